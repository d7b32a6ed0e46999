//! The size of expressions.
ghost use Rattle.std.specs.Prelude.{◌≡◌, ◌-◌, ◌^◌, min};
ghost use Rattle.poets_expr.specs.Expression.{expression_of};
ghost use Rattle.poets_expr.specs.Size.{nodes};

use crate::expr::Expr;

/// The number of nodes, or the greatest `u64` where there are more.
pub fn size(e: &Expr) -> u64
    ensures { result ≡ min (nodes (expression_of e.now)) (2 ^ 64 - 1) }
{
    match e {
        Expr::Int(_)
        | Expr::Bool(_)
        | Expr::Day(_)
        | Expr::Res(_)
        | Expr::Undefined(_)
        | Expr::Name(_) => 1,
        Expr::Neg(a) | Expr::Not(a) | Expr::Amount(a) | Expr::KindOf(a) => {
            size(a).saturating_add(1)
        }
        Expr::Make(a, b) | Expr::Op(_, a, b) => size(a).saturating_add(size(b)).saturating_add(1),
        Expr::If(a, b, c) => size(a)
            .saturating_add(size(b))
            .saturating_add(size(c))
            .saturating_add(1),
    }
}
