//! Names, types and values.

use crate::Day;

/// A name's place in the table of names: names with equal places have equal texts.
#[derive(Debug, Clone, Copy, PartialEq, Eq, PartialOrd, Ord, Hash)]
pub struct Name {
    pub id: u32,
}

/// The types of values.
#[derive(Debug, Clone, Copy, PartialEq, Eq, PartialOrd, Ord)]
pub enum Ty {
    Int,
    Bool,
    Agent,
    Kind,
    Resource,
    Day,
}

/// An amount of one declared kind. Resources are ordered by kind, and then by amount.
#[derive(Debug, Clone, Copy, PartialEq, Eq, PartialOrd, Ord)]
pub struct Resource {
    pub kind: Name,
    pub amount: i64,
}

/// A value of the contract language, in the order of `docs/LANGUAGE.md`, "Values".
#[derive(Debug, Clone, Copy, PartialEq, Eq, PartialOrd, Ord)]
pub enum Value {
    Int(i64),
    Bool(bool),
    Agent(Name),
    Kind(Name),
    Resource(Resource),
    Day(Day),
}
