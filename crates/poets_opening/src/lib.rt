//! The session that a source gives, or how a run ends that got none.
#![tactic(auto)]

mod opening;

pub use opening::open_session;
