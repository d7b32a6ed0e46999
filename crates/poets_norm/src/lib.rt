//! Normal forms of contracts, and their width.
#![tactic(auto)]

mod applications;
pub mod joining;
pub mod laws;
mod normals;
mod row_normals;
mod widths;

pub use normals::{app, normal, par, plus, send, seq};
pub use row_normals::{enter_normal, normal_rows};
pub use widths::wide;
