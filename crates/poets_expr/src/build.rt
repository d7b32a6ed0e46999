//! Building expressions from others.
ghost use Rattle.std.specs.Prelude.{◌≡◌, IfOk};

pub use crate::comparing::same;
pub use crate::copies::copy;
use crate::expr::Expr;
pub use crate::replacing::{literal, subst};
use poets_value::Memory;
use std::alloc::Global;

/// An expression in a box of its own.
pub fn boxed(alloc: Global, e: Expr) -> Result<Box<Expr>, Memory>
    ensures { IfOk result (λ b. b.value ≡ e) }
{
    Ok(Box::new(alloc, e)?)
}
