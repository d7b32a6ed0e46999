//! Contracts as rows of nodes, in which equal parts are one row.
#![tactic(auto)]

mod arena;
mod bag;
mod classes;
mod copying;
mod entering;
mod equality;
mod form;
mod hashing;
mod node;
mod notes;
mod replacing;
mod rows;
mod shape;

pub use arena::{Arena, node_at};
pub use entering::enter;
pub use node::Node;
pub use notes::Notes;
pub use replacing::replaced_at;
pub use rows::{Rows, of_term, rows_at, to_term};
