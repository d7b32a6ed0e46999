//! Whether two expressions are one tree.
ghost use Rattle.std.specs.Prelude.{◌≡◌, ◌↔◌, IsTrue};
ghost use Rattle.poets_expr.specs.Expression.{expression_of};
ghost use Rattle.poets_expr.specs.Same as spec;

use crate::expr::Expr;

/// Whether two trees are equal.
#[tactic(auto, using(crate::proofs::SameTrees::same_iff))]
pub fn same(a: &Expr, b: &Expr) -> bool
    ensures test { result ≡ spec.same (expression_of a.now) (expression_of b.now) }
    ensures equal { IsTrue result ↔ (expression_of a.now ≡ expression_of b.now) }
{
    same_trees(a, b)
}

fn same_trees(a: &Expr, b: &Expr) -> bool
    ensures { result ≡ spec.same (expression_of a.now) (expression_of b.now) }
{
    match (a, b) {
        (Expr::Int(x), Expr::Int(y)) => x == y,
        (Expr::Bool(x), Expr::Bool(y)) => x == y,
        (Expr::Day(x), Expr::Day(y)) => x == y,
        (Expr::Res(x), Expr::Res(y)) => x == y,
        (Expr::Undefined(x), Expr::Undefined(y)) => x == y,
        (Expr::Name(x), Expr::Name(y)) => x == y,
        (Expr::Neg(x), Expr::Neg(y)) => same_trees(x, y),
        (Expr::Not(x), Expr::Not(y)) => same_trees(x, y),
        (Expr::Amount(x), Expr::Amount(y)) => same_trees(x, y),
        (Expr::KindOf(x), Expr::KindOf(y)) => same_trees(x, y),
        (Expr::Make(x, v), Expr::Make(y, w)) => same_trees(x, y) && same_trees(v, w),
        (Expr::Op(o, x, v), Expr::Op(p, y, w)) => { o == p && same_trees(x, y) && same_trees(v, w) }
        (Expr::If(x, v, t), Expr::If(y, w, u)) => {
            same_trees(x, y) && same_trees(v, w) && same_trees(t, u)
        }
        _ => false,
    }
}
