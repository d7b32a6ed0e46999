//! What comes of the scripts.
use poets_machine::Machine;
use poets_turn::ClerkOf;
use poets_value::List;

/// The answer to a call: the number of entries before it in the history, and the reply.
#[derive(Debug, PartialEq, Eq, Drop)]
pub struct DoneOf<R> {
    pub place: u64,
    pub reply: R,
}

/// The clerks, and for each the answers to its calls, in order.
#[derive(Drop)]
pub struct WorkedOf<M, C, F, R> {
    pub clerks: List<ClerkOf<M, C, F>>,
    pub answers: List<List<DoneOf<R>>>,
    /// Whether some clerk ran out of memory.
    pub memory: bool,
}

/// The answer to a call of the machine.
pub type Done<M> = DoneOf<<M as Machine>::Reply>;

/// What comes of scripts of calls of the machine.
pub type Worked<M> = WorkedOf<
    M,
    <M as Machine>::Call,
    <M as Machine>::Frame,
    <M as Machine>::Reply,
>;
