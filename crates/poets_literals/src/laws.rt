//! Laws of values and their texts, each stated by a function that does nothing.
ghost use Rattle.poets_literals.specs.Laws.{ListedArePlaced, OneValue};

/// Each name of a table of names is the first place of its text.
pub fn listed_are_placed()
    ensures { ListedArePlaced }
{}

/// Two values as declared that have one text are the same value.
pub fn one_value()
    ensures { OneValue }
{}
