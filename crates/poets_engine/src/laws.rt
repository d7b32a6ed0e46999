//! Laws of histories, each carried by a function that does nothing.
ghost use Rattle.poets_engine.specs.Laws.{LegalHistoriesShow};

/// In a legal history of typed commands under a studied book, each residual that is shown is performed by exactly the
/// completions of the contract's recorded trace.
pub fn legal_histories_show()
    ensures { LegalHistoriesShow }
{}
