//! Nodes of ways.

/// The head of a way in a table. Its parts are numbers of earlier ways, and its sides the number of a list of sides.
#[derive(Debug, Clone, Copy)]
pub enum Node {
    /// Of `Success`: nothing is left to do.
    Nothing,
    /// Of an application: that of its template's body.
    Enter(usize),
    /// Of a transmit, which takes the first event: that of its continuation.
    Take(usize),
    /// Of a choice: that of its left part.
    Left(usize),
    /// Of a choice: that of its right part.
    Right(usize),
    /// Of two contracts side by side: whose each event is, and those of both.
    Both {
        sides: usize,
        first: usize,
        second: usize,
    },
    /// Of a sequence: how many events are the first part's, and those of both parts.
    Then {
        count: u64,
        first: usize,
        second: usize,
    },
}

/// A list of sides in a table: one side in front of an earlier list, and how many of all are second ones.
#[derive(Debug, Clone, Copy)]
pub(crate) struct Side {
    pub second: bool,
    pub rest: usize,
    pub seconds: usize,
}
