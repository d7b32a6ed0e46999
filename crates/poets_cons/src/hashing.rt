//! What nodes feed to a hasher.
ghost use Rattle.std.specs.Prelude.{◌≡◌, ◌++◌, fold, map};
ghost use Rattle.std.specs.Hash as fed;
ghost use Rattle.poets_expr.specs.Expression.{expression_of};
ghost use Rattle.poets_expr.specs.Same.{op_place};
ghost use Rattle.poets_cons.specs.Row.{row_of};
ghost use Rattle.poets_cons.specs.code.Hashing.{expression_writes, args_writes, row_writes};

use crate::node::Node;
use poets_expr::{Expr, Op};
use std::hash::{Hash, Hasher};

fn place_of_op(op: Op) -> u8
    ensures { result ≡ op_place op }
{
    match op {
        Op::Add => 0,
        Op::Sub => 1,
        Op::Mul => 2,
        Op::Div => 3,
        Op::Rem => 4,
        Op::Eq => 5,
        Op::Ne => 6,
        Op::Lt => 7,
        Op::Le => 8,
        Op::Gt => 9,
        Op::Ge => 10,
        Op::And => 11,
        Op::Or => 12,
    }
}

// Feeds an expression.
#[tactic(auto, using(crate::proofs::Folding::fold_joined))]
fn feed_expression<H: Hasher>(e: &Expr, state: &mut H)
    ensures { state.new ≡ fold H.write state.old (expression_writes (expression_of e.now)) }
{
    match e {
        Expr::Int(number) => state.write_i64(*number),
        Expr::Bool(answer) => answer.hash(state),
        Expr::Res(resource) => {
            state.write_u32(resource.kind.id);
            state.write_i64(resource.amount);
        }
        Expr::Day(day) => state.write_i64(day.number()),
        Expr::Undefined(_) => {}
        Expr::Name(name) => state.write_u32(name.id),
        Expr::Neg(a) | Expr::Not(a) | Expr::Amount(a) | Expr::KindOf(a) => {
            feed_expression(a, state);
        }
        Expr::Make(a, b) => {
            feed_expression(a, state);
            feed_expression(b, state);
        }
        Expr::Op(op, a, b) => {
            state.write_u8(place_of_op(*op));
            feed_expression(a, state);
            feed_expression(b, state);
        }
        Expr::If(a, b, c) => {
            feed_expression(a, state);
            feed_expression(b, state);
            feed_expression(c, state);
        }
    }
}

// Feeds the arguments, one after the other.
#[tactic(auto, using(crate::proofs::Folding::fold_joined))]
fn feed_args<H: Hasher>(args: &[Expr], state: &mut H)
    ensures { state.new ≡ fold H.write state.old (args_writes (map expression_of args.now)) }
{
    let Some((arg, rest)) = args.split_first() else {
        return;
    };
    feed_expression(arg, state);
    feed_args(rest, state);
}

// Feeds a node.
#[tactic(auto, using(crate::proofs::Folding::fold_joined))]
pub(crate) fn feed<H: Hasher>(node: &Node, state: &mut H)
    ensures { state.new ≡ fold H.write state.old (row_writes (row_of node.now)) }
{
    match node {
        Node::Success | Node::Failure => {}
        Node::Transmit { when, then, .. } => {
            state.write_usize(*then);
            feed_expression(&**when, state);
        }
        Node::Plus(a, b) | Node::Par(a, b) | Node::Seq(a, b) => {
            state.write_usize(*a);
            state.write_usize(*b);
        }
        Node::App { name, args } => {
            state.write_u32(name.id);
            feed_args(args.as_slice(), state);
        }
    }
}
