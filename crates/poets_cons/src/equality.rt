//! Equal nodes.
ghost use Rattle.std.specs.Prelude.{◌≡◌, map};
ghost use Rattle.std.specs.Ordering.{on};
ghost use Rattle.std.specs.Cmp.{on_equiv, partial_equiv_from_equiv};
ghost use Rattle.poets_expr.specs.Expression.{expression_of};
ghost use Rattle.poets_syntax.specs.Same as spec;
ghost use Rattle.poets_cons.specs.Row.{row_of};
ghost use Rattle.poets_cons.specs.Same.{same_row};
ghost use Rattle.poets_cons.specs.code.Hashing.{row_writes};
ghost use Rattle.poets_cons.specs.code.SameRows.{row_laws, row_fed};

use crate::hashing::feed;
use crate::node::Node;
use poets_expr::{Expr, same};
use std::hash::{Hash, Hasher};

fn same_args(a: &[Expr], b: &[Expr]) -> bool
    ensures { result ≡ spec.same_args (map expression_of a.now) (map expression_of b.now) }
{
    let mut left = a;
    let mut right = b;
    while let (Some((x, xs)), Some((y, ys))) = (left.split_first(), right.split_first()) {
        if !same(x, y) {
            return false;
        }
        left = xs;
        right = ys;
    }
    left.is_empty() && right.is_empty()
}

// Whether two nodes have the same form and the same parts.
fn same_nodes(a: &Node, b: &Node) -> bool
    ensures { result ≡ same_row (row_of a.now) (row_of b.now) }
{
    match (a, b) {
        (Node::Success, Node::Success) => true,
        (Node::Failure, Node::Failure) => true,
        (
            Node::Transmit {
                binders: x,
                when: p,
                then: c,
            },
            Node::Transmit {
                binders: y,
                when: q,
                then: d,
            },
        ) => x == y && same(&**p, &**q) && c == d,
        (Node::Plus(x, v), Node::Plus(y, w)) => x == y && v == w,
        (Node::Par(x, v), Node::Par(y, w)) => x == y && v == w,
        (Node::Seq(x, v), Node::Seq(y, w)) => x == y && v == w,
        (Node::App { name: f, args: x }, Node::App { name: g, args: y }) => {
            f == g && same_args(x.as_slice(), y.as_slice())
        }
        _ => false,
    }
}

impl PartialEq for Node {
    ghost eq = { on row_of same_row };

    ghost laws = { partial_equiv_from_equiv (on_equiv row_of row_laws) };

    fn eq(&self, other: &Node) -> bool {
        same_nodes(self, other)
    }
}

impl Eq for Node {
    ghost laws = { on_equiv row_of row_laws };
}

impl Hash for Node {
    ghost hash_input = { λ a. row_writes (row_of a) };

    ghost respects_eq = { λ x y h. row_fed.fed (row_of x) (row_of y) h };

    fn hash<H: Hasher>(&self, state: &mut H) {
        feed(self, state);
    }
}
