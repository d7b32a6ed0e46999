//! What a seat at the turnstile knows. No value of these types is made: they occur in proofs alone.
use std::collections::LinkedList;

/// What is fixed when a turnstile is made: the machine's frame, and the number of clerks.
pub struct Setting<F> {
    pub frame: F,
    pub clerks: u32,
}

/// How far a seat's call is.
pub enum Stage<C> {
    /// It has no ticket.
    Idle,
    /// It has this ticket.
    Waiting(u64),
    /// Its ticket is served, and it holds the machine. The log at that moment.
    Serving(u64, LinkedList<(u32, C)>),
}

/// What a seat knows.
pub struct View<C, F> {
    /// The clerk's number, or 0 for a note.
    pub number: u32,
    pub stage: Stage<C>,
    /// The prefix of the log that was seen.
    pub front: LinkedList<(u32, C)>,
    /// A prefix of the log that was heard of.
    pub heard: LinkedList<(u32, C)>,
    /// The clerk's own calls.
    pub calls: LinkedList<C>,
    /// How many numbers were given out, if this seat gives them out, or 0.
    pub count: u32,
    /// The clerks that this seat took in, each with its own calls.
    pub ended: LinkedList<(u32, LinkedList<C>)>,
    pub setting: Option<Setting<F>>,
}
