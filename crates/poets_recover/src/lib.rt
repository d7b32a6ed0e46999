//! The texts that a journal holds, read as calls.
#![tactic(auto)]

mod fault;
pub mod laws;
mod limits;
mod making;
mod reading;
mod stored;

pub use fault::RecoverFault;
pub use limits::MOST_STORED;
pub use making::{Recovered, recover};
pub use stored::stored_calls;
