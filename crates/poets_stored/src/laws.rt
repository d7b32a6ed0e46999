//! Laws of the commands of sessions, each stated by a function that does nothing.
ghost use Rattle.poets_stored.specs.Laws.{CommandsOfSessionsAreShort, CommandsOfSessionsAreShortTogether};
ghost use Rattle.poets_stored.specs.Laws.{SessionsAreStorable, CommandsOfSessionsReadBack};
ghost use Rattle.poets_stored.specs.Laws.{CallsAreStorable, CallsOfSessionsAreStorable};

/// A command of a session has a text in a journal of at most 80 bytes for each byte of the session's text, and 12 more.
pub fn commands_of_sessions_are_short()
    ensures { CommandsOfSessionsAreShort }
{}

/// Calls that make commands of a session, each at most once, in whatever order and by whichever clerks, have texts in a
/// journal of at most 80 bytes together for each byte of the session's text, and 12 more for each call.
pub fn commands_of_sessions_are_short_together()
    ensures { CommandsOfSessionsAreShortTogether }
{}

/// Each command of a session has a text in a journal, which fits a record.
pub fn commands_of_sessions_are_storable()
    ensures { SessionsAreStorable }
{}

/// Each command of a session reads back from its text in a journal, and is not too deep for one that was stored.
pub fn commands_of_sessions_read_back()
    ensures { CommandsOfSessionsReadBack }
{}

/// The calls of a session can be put into a journal. So can those of any scripts whose commands can be stored.
pub fn calls_of_sessions_are_storable()
    ensures sessions { CallsOfSessionsAreStorable }
    ensures scripts { CallsAreStorable }
{}
