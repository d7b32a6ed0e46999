//! Histories, and which reply is right.
#![tactic(auto)]

mod laws;

pub use laws::{
    ledger_is_gathered, one_answer, one_history, one_marks, one_owed, one_reply,
    only_accepted_change, owed_is_residual, past_limit_is,
};
