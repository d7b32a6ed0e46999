//! Laws of runs with a disk, each carried by a function that does nothing.
ghost use Rattle.poets_kept.specs.Laws.{KeptCallsAreRecovered, KeptTextsAreFew, LimitsAre, StatusesAre};

/// The statuses are those of `docs/LANGUAGE.md`, "Words and statuses".
pub fn statuses_are()
    ensures { StatusesAre }
{}

/// The limits are those of `docs/LANGUAGE.md`, "Limits".
pub fn limits_are()
    ensures { LimitsAre }
{}

/// The texts of a session's calls, kept in whatever order, have less than 1,400,000,000 bytes together.
pub fn kept_texts_are_few()
    ensures { KeptTextsAreFew }
{}

/// The texts of the first calls of a session's history are calls of the session's book again, under the book's own
/// table of names, and have these texts again.
pub fn kept_calls_are_recovered()
    ensures { KeptCallsAreRecovered }
{}
