//! Commands, replies, and the entries of a history.

use poets_expr::Expr;
use poets_report::Answer;
use poets_syntax::Term;
use poets_value::{Day, Event, List, Name, Value};
use std::sync::Arc;

/// What a clerk asks for. Contracts and reports are given by their names.
#[derive(Debug, PartialEq, Eq, Drop)]
pub enum Command {
    Register {
        name: Name,
        /// Shared, so that the contract can be kept without a copy.
        term: Arc<Term>,
    },
    Transmit {
        name: Name,
        event: Event,
    },
    /// Withdraws the event at that place, counted from 1, among those that are recorded on the contract.
    Void {
        name: Name,
        place: u64,
    },
    End {
        name: Name,
    },
    Show {
        name: Name,
    },
    Tally {
        report: Name,
        args: List<Expr>,
    },
    Portfolio {
        report: Name,
        args: List<Expr>,
        over: List<Name>,
    },
    Watch {
        report: Name,
        args: List<Expr>,
    },
    /// Asks for the watch with that number, from 1.
    Read {
        number: u64,
    },
}

/// The reply to a command. Contracts and watches are numbered from 1.
#[derive(Debug, PartialEq, Eq, Drop)]
pub enum Reply {
    Registered(u64),
    /// The contract with that number has the name.
    NameTaken(u64),
    Hopeless,
    TooLarge,
    /// The event is recorded as the contract's event of that number.
    Recorded {
        count: u64,
        may_end: bool,
    },
    /// The event is withdrawn, and so many remain on the contract.
    Voided {
        count: u64,
        may_end: bool,
    },
    /// No event of the contract has that place.
    NoEvent(u64),
    NoContract(Name),
    Ended,
    /// An event of that later day is recorded.
    Late(Day),
    Unmatched,
    EndedNow,
    AlreadyEnded,
    NotPerformed,
    Shown {
        residual: Term,
        count: u64,
        may_end: bool,
        ended: bool,
    },
    Answered(Answer),
    Folio(Folio),
    Watching(u64),
    NoWatch(u64),
}

/// A report over the events of each of several contracts.
#[derive(Debug, PartialEq, Eq, Drop)]
pub struct Folio {
    pub rows: List<(Name, Answer)>,
    /// The sum of the rows, for a report of whole numbers without a key. `Some(None)` is "undefined".
    pub total: Option<Option<Value>>,
}

/// A clerk's command with its reply.
#[derive(Debug, PartialEq, Eq, Drop)]
pub struct Entry {
    pub clerk: u32,
    pub command: Arc<Command>,
    pub reply: Reply,
}
