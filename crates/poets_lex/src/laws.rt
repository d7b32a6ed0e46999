//! Laws of tokens, each stated by a function that does nothing.
ghost use Rattle.poets_lex.specs.Laws.{OneReading, NoReadingAtFault, OneFault, EveryTextIsCut, TokensStand};

/// A text has one list of tokens, and leaves one table of names.
pub fn one_reading()
    ensures { OneReading }
{}

/// A text with a fault has no tokens.
pub fn no_reading_at_fault()
    ensures { NoReadingAtFault }
{}

/// A text has one first fault at most.
pub fn one_fault()
    ensures { OneFault }
{}

/// A text that has no tokens cannot be without a fault.
pub fn every_text_is_cut()
    ensures { EveryTextIsCut }
{}

/// The tokens' spans rise, and the bytes of each span are its token's.
pub fn tokens_stand()
    ensures { TokensStand }
{}
