//! Residuals of contracts by events, and whether contracts are past the limit.
#![tactic(auto)]

mod bodies;
mod derivation;
mod endings;
pub mod laws;
mod limits;
mod residuals;
mod row_widths;
mod shared;
mod transmits;

pub use bodies::{argument_givens, unfold};
pub use derivation::residual_rows;
pub use endings::may_end;
pub use limits::past_limit;
pub use residuals::residual;
pub use row_widths::wide_rows;
pub use shared::may_end_rows;
pub use transmits::event_givens;
