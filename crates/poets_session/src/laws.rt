//! The laws of sessions.
ghost use Rattle.poets_session.specs.Laws.{OneSession, NoSessionRefused, NoValidRefused, OneRefusal};
ghost use Rattle.poets_session.specs.Laws.{OneRefusalOfStatements, OneLine, EveryTextIsRead, AllStatementsAreJudged};
ghost use Rattle.poets_session.specs.Laws.{SessionsAreWritten, StatementIsWritten, CommandsAreWritten};
ghost use Rattle.poets_session.specs.Laws.{FaultsOfTextsAreListed, FaultsOfStatementsAreListed};

/// A text is one session of a form at most.
pub fn one_session()
    ensures { OneSession }
{}

/// A text that is refused is no session, and statements that are refused are no valid one.
pub fn no_session_refused()
    ensures text { NoSessionRefused }
    ensures statements { NoValidRefused }
{}

/// A text is refused in one way at most as a session of a form, but for how the first cycle goes on, and by one line.
/// So are statements.
pub fn one_refusal()
    ensures refusal { OneRefusal }
    ensures line { OneLine }
    ensures statements { OneRefusalOfStatements }
{}

/// Of a text that is no session of a form, and of statements that are no valid one, it cannot be that no refusal holds.
pub fn every_text_is_read()
    ensures text { EveryTextIsRead }
    ensures statements { AllStatementsAreJudged }
{}

/// What a text says has its names in the text's table, and its numbers and days are those of the language. So it is
/// with what any tokens of which this holds say as a statement, and with the commands of statements of which it holds.
pub fn sessions_are_written()
    ensures statements { SessionsAreWritten }
    ensures statement { StatementIsWritten }
    ensures commands { CommandsAreWritten }
{}

/// The names in a fault stand in its table.
pub fn faults_are_listed()
    ensures texts { FaultsOfTextsAreListed }
    ensures statements { FaultsOfStatementsAreListed }
{}
