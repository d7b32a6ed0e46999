//! A disk with one file: what its calls promise of a crash, a disk in memory that fails by plan, and the file
//! `poets.journal` of the current folder.
#![tactic(auto)]

mod disk;
mod file;
pub mod laws;
mod left;
mod memory;

pub use disk::Disk;
pub use file::FileDisk;
pub use memory::MemoryDisk;
