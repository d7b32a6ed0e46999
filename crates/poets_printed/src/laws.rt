//! Laws of printed commands, each stated by a function that does nothing.
//!
//! A text has one list of tokens (`poets_lex`, `one_reading`). So the laws of depth speak of every reading of the
//! printed text.
ghost use Rattle.poets_printed.specs.Depths.{NeverTooDeepStored};
ghost use Rattle.poets_printed.specs.Lengths.{CommandsAreShort};
ghost use Rattle.poets_printed.specs.Numbered.{NumberedReadsBack, NumberedAreShort};

/// A command prints as at most 80 bytes for each token that it was read from.
pub fn commands_are_short()
    ensures { CommandsAreShort }
{}

/// What is printed of a command that was not too deep is not too deep for a stored one.
pub fn never_too_deep()
    ensures { NeverTooDeepStored }
{}

/// A command that was not too deep prints with its clerk's number as a text that reads back as that statement, and is
/// not too deep for a stored one.
pub fn numbered_commands_read_back()
    ensures { NumberedReadsBack }
{}

/// A command prints with its clerk's number as at most 80 bytes for each token that it was read from, and 12 more.
pub fn numbered_commands_are_short()
    ensures { NumberedAreShort }
{}
