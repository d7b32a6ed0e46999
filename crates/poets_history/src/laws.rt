//! Laws of what is owed and of replies, each carried by a function that does nothing.
ghost use Rattle.poets_history.specs.Gathered.{LedgerIsGathered};
ghost use Rattle.poets_history.specs.Laws.{OneReply, OnlyAcceptedChange, OneHistory, OneAnswer, OneMarks, OneOwed, OwedIsResidual, PastLimitIs};

/// After the same history a command has at most one reply.
pub fn one_reply()
    ensures { OneReply }
{}

/// Only an accepted command changes the ledger.
pub fn only_accepted_change()
    ensures { OnlyAcceptedChange }
{}

/// There is at most one legal history of the same calls.
pub fn one_history()
    ensures { OneHistory }
{}

/// After given calls a command has at most one reply.
pub fn one_answer()
    ensures { OneAnswer }
{}

/// The ledger of a history is four lists, each gathered from the history itself.
pub fn ledger_is_gathered()
    ensures { LedgerIsGathered }
{}

/// Which templates are nullable, and which hopeful, depends on the book alone.
pub fn one_marks()
    ensures { OneMarks }
{}

/// After a trace one contract is owed at most.
pub fn one_owed()
    ensures { OneOwed }
{}

/// With right marks the residual by the trace is what is owed.
pub fn owed_is_residual()
    ensures { OwedIsResidual }
{}

/// With right marks `is_past_limit` decides whether a contract is past the limit.
pub fn past_limit_is()
    ensures { PastLimitIs }
{}
