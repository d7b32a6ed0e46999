//! The law of steps, carried by a function that does nothing.
ghost use Rattle.poets_open.specs.Laws.{OpenForEvents, OpenAfterTrace};

/// After a declared event a contract in normal form, as residuals are, is not `Failure` exactly where the predicate of
/// one of its steps holds of the event.
pub fn open_for_events()
    ensures normal { OpenForEvents }
    ensures after_trace { OpenAfterTrace }
{}
