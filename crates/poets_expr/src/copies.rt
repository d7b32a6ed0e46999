//! Copies of expressions.
ghost use Rattle.std.specs.Prelude.{◌≡◌, IfOk};
ghost use Rattle.poets_expr.specs.Expression.{expression_of};

use crate::expr::Expr;
use crate::replacing::subst;
use poets_value::Memory;
use std::alloc::Global;

/// The same tree.
#[tactic(auto, using(crate::proofs::ValSubst::subst_nil))]
pub fn copy(alloc: Global, e: &Expr) -> Result<Expr, Memory>
    ensures { IfOk result (λ r. expression_of r ≡ expression_of e.now) }
{
    subst(alloc, e, &[])
}
