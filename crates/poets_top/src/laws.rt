//! Laws of runs, each carried by a function that does nothing.
ghost use Rattle.poets_top.specs.Laws.{NoFormsEndByStatus, OneClerk, OneReplay, OneReplayed, OneRun};
ghost use Rattle.poets_top.specs.Laws.{RunsAreReplayed, RunsEndByStatus};

/// The calls in a history of one clerk's session are his script, in its order. So two runs of it that end with status 0
/// have the same history, and where source and sink tell their bytes, they write the same text.
pub fn one_clerk()
    ensures calls { OneClerk }
    ensures run { OneRun }
{}

/// A journal has one history at most. So two replays of it that end with status 0 have the same history, and where
/// source and sink tell their bytes, they write the same text.
pub fn one_replay()
    ensures history { OneReplay }
    ensures replayed { OneReplayed }
{}

/// A journal that has the calls of a run, under the same book, has the history of the run.
pub fn runs_are_replayed()
    ensures { RunsAreReplayed }
{}

/// There is one rule for each exit status, and a run ends by the rule of its status: the rules say no more and no less
/// than the clauses `ends` and `no_form` of `run`.
pub fn runs_end_by_status()
    ensures asked { RunsEndByStatus }
    ensures no_form { NoFormsEndByStatus }
{}
