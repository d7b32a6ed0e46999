//! What contracts mean: what performs them, and what is known of studied books.
#![tactic(auto)]

pub mod laws;
mod sizes;
mod studied;

pub use sizes::{LARGEST, WIDEST, WIDTH_CUT, size};
pub use studied::{Mark, Studied};
