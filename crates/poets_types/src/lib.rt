//! Types of statements: what is declared, and whether each statement is typed, or the first fault.
#![tactic(auto)]

mod binder;
mod book;
mod cause;
mod command;
mod contract;
mod declared;
mod expression;
mod index;
mod params;
mod scope;
mod table;
mod template;

pub use book::{Checked, check_book};
pub use cause::{CallFault, TypeCause, TypeFault};
pub use command::{check_call, check_calls, check_term};
