//! The word `resume`: a session of clerks goes on with the calls that a journal holds.
#![tactic(auto)]

mod resuming;

pub use resuming::resume;
