//! Closed expressions, folded to literals.
ghost use Rattle.std.specs.Prelude.{◌≡◌, ◌≤◌, IfOk};
ghost use Rattle.poets_expr.specs.Env.{declared_of};
ghost use Rattle.poets_expr.specs.Expression.{expression_of};
ghost use Rattle.poets_expr.specs.Asked.{one_more_if};
ghost use Rattle.poets_expr.specs.Fold as fold;
ghost use Rattle.poets_expr.specs.OfExpr.{is_folded_expr, folded_expr};

use crate::copies::copy;
use crate::env::{Asks, Decls, Env};
use crate::evaluation::eval;
use crate::expr::{Expr, Given};
use crate::replacing::literal;
use poets_value::{Memory, Ty};
use std::alloc::Global;

// Whether every free name is declared.
fn is_closed(decls: &Decls, e: &Expr) -> bool
    ensures { result ≡ fold.is_closed (declared_of decls.now.names) (expression_of e.now) }
{
    match e {
        Expr::Int(_) | Expr::Bool(_) | Expr::Day(_) | Expr::Res(_) | Expr::Undefined(_) => true,
        Expr::Name(name) => decls.names.contains_key(name),
        Expr::Neg(a) | Expr::Not(a) | Expr::Amount(a) | Expr::KindOf(a) => is_closed(decls, a),
        Expr::Make(a, b) | Expr::Op(_, a, b) => is_closed(decls, a) && is_closed(decls, b),
        Expr::If(a, b, c) => is_closed(decls, a) && is_closed(decls, b) && is_closed(decls, c),
    }
}

// Whether it is a literal; a declared name is the literal of its agent or kind.
fn is_literal(decls: &Decls, e: &Expr) -> bool
    ensures { result ≡ fold.is_literal (declared_of decls.now.names) (expression_of e.now) }
{
    match e {
        Expr::Int(_) | Expr::Bool(_) | Expr::Day(_) | Expr::Res(_) | Expr::Undefined(_) => true,
        Expr::Name(name) => decls.names.contains_key(name),
        _ => false,
    }
}

/// The literal of the expression's value where it is closed and no literal yet, and otherwise the expression itself.
///
/// `ty` is the expression's type.
pub fn fold_closed<L>(
    alloc: Global,
    decls: &Decls,
    e: &Expr,
    ty: Ty,
    asks: &mut Asks<L>,
) -> Result<Expr, Memory>
    ensures value { IfOk result (λ r. expression_of r ≡ folded_expr decls.now e.now ty) }
    ensures asks { asks.new ≡ one_more_if (is_folded_expr decls.now e.now) asks.old }
    ensures rises { asks.old ≤ asks.new }
{
    if is_literal(decls, e) || !is_closed(decls, e) {
        return copy(alloc, e);
    }
    let env = Env { decls, pairs: &[] };
    let value = eval(&env, e, asks);
    Ok(literal(&Given { value, ty }))
}
