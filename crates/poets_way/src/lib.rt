//! In which way a trace performs a contract, and how that is checked.
#![tactic(auto)]

mod goals;
pub mod laws;
mod node;
mod parts;
mod sides;
mod table;
mod texts;
mod trails;
mod verifying;
mod way;

pub use node::Node;
pub use texts::way_text;
pub use trails::Trails;
pub use verifying::verify;
pub use way::Way;
