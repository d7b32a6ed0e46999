//! Sessions: what a text says, exactly where it is a valid session, or its first fault.
#![tactic(auto)]

mod checking;
mod counting;
mod fault;
mod form;
pub mod laws;
mod lines;
mod pieces;
mod reading;
mod scripts;
mod session;
mod splitting;
mod validity;

pub use fault::{SessionCause, SessionFault};
pub use form::Form;
pub use lines::fault_text;
pub use pieces::{after_end, ahead_of_end};
pub use reading::read;
pub use session::Session;
pub use validity::session_of;
