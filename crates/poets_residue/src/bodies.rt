//! Applications unfolded.
ghost use Rattle.std.specs.Prelude.{◌≡◌, ◌+◌, ◌≤◌, IfOk, OnOk, []};
ghost use Rattle.poets_expr.specs.Env.{declared_of, itself};
ghost use Rattle.poets_expr.specs.Expression.{expression_of};
ghost use Rattle.poets_expr.specs.Val.{val};
ghost use Rattle.poets_meaning.specs.Arguments as spec;
ghost use Rattle.poets_norm.specs.Asking.{to_ask};
ghost use Rattle.poets_norm.specs.Questions.{operated, questions};
ghost use Rattle.poets_norm.specs.Rows.{Enters};
ghost use Rattle.poets_cons.specs.Table.{Extends};
ghost use Rattle.poets_residue.specs.Bodies.{unfolded, with_body, AreGivens, Unfolds};

use poets_cons::Arena;
use poets_expr::{Asks, Decls, Env, Expr, Given, eval};
use poets_meaning::Studied;
use poets_norm::enter_normal;
use poets_syntax::{Param, Template, subst};
use poets_value::{List, Memory, Name, Ty, Value, push};
use std::alloc::Global;

// What a name stands for that no pair has.
fn meaning(decls: &Decls, name: Name) -> Option<Value>
    ensures { result ≡ itself name (declared_of decls.now.names name) }
{
    match decls.names.get(&name) {
        Some(Ty::Agent) => Some(Value::Agent(name)),
        Some(Ty::Kind) => Some(Value::Kind(name)),
        _ => None,
    }
}

// The value of an argument; that of a literal or a name is known.
fn value_of<L>(decls: &Decls, arg: &Expr, asks: &mut Asks<L>) -> Option<Value>
    ensures value { result ≡ val (declared_of decls.now.names) [] (expression_of arg.now) }
    ensures rises { asks.old ≤ asks.new }
    ensures asks { asks.new ≤ asks.old + operated (expression_of arg.now) }
{
    // The count that was handed in is at most the greatest `u64`.
    let _count = asks.count();
    match arg {
        Expr::Int(number) => Some(Value::Int(*number)),
        Expr::Bool(answer) => Some(Value::Bool(*answer)),
        Expr::Day(day) => Some(Value::Day(*day)),
        Expr::Res(resource) => Some(Value::Resource(*resource)),
        Expr::Undefined(_) => None,
        Expr::Name(name) => meaning(decls, *name),
        other => eval(&Env { decls, pairs: &[] }, other, asks),
    }
}

/// What the parameters stand for, the newest last. An argument that is a literal or a name is not evaluated.
pub fn argument_givens<L>(
    alloc: Global,
    decls: &Decls,
    params: &[Param],
    args: &[Expr],
    asks: &mut Asks<L>,
) -> Result<List<(Name, Given)>, Memory>
    ensures pairs { IfOk result (λ r. AreGivens decls.now params.now args.now r.items) }
    ensures rises { asks.old ≤ asks.new }
    ensures asks { asks.new ≤ asks.old + to_ask args.now }
{
    let mut pairs = List::new(alloc);
    for (param, arg) in params.iter().zip(args) {
        let value = value_of(decls, arg, asks);
        let given = Given {
            value,
            ty: param.ty,
        };
        push(&mut pairs, (param.name, given))?;
    }
    Ok(pairs)
}

/// The number of the row of the body of a template with its parameters replaced, in normal form, which is entered in
/// the table. What is evaluated of the arguments and the body need not be evaluated again.
pub fn unfold<L>(
    alloc: Global,
    studied: &Studied,
    template: &Template,
    args: &[Expr],
    arena: &mut Arena,
    asks: &mut Asks<L>,
) -> Result<usize, Memory>
    ensures grows { Extends arena.old arena.new }
    ensures body { Enters arena.new result (unfolded studied.now template.now args.now) }
    ensures rises { asks.old ≤ asks.new }
    ensures asks { asks.new ≤ with_body questions template.now args.now asks.old }
    ensures arguments { asks.new ≤ with_body spec.arguments template.now args.now asks.old }
    ensures questions { OnOk result (Unfolds studied.now template.now args.now asks.old asks.new) }
{
    let decls = &studied.book().decls;
    let pairs = argument_givens(alloc, decls, template.params.as_slice(), args, asks)?;
    let body = subst(alloc, &template.body, pairs.as_slice())?;
    enter_normal(alloc, studied, arena, body, asks)
}
