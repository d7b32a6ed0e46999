//! Reports: what they are, and what they answer over a list of events.
#![tactic(auto)]

mod arguments;
mod folds;
mod keyed;
mod laws;
mod report;
mod scope;

pub use arguments::argument_values;
pub use folds::{Change, Fold, value_of};
pub use laws::{every_answer, one_answer, order_of_keys};
pub use report::{Answer, Report, copy};
