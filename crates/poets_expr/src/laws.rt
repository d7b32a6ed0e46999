//! Laws of expressions, each stated by a function that does nothing.
ghost use Rattle.poets_expr.specs.Laws.{UndeclaredPairsKeepDeclared, ReplacedKeepsValue, ReplacedKeepsValueAlone, LiteralHasValue, FoldedKeepsValue, FoldedKeepsValueOfExpr, DeclaredLiteralsGiveDeclared, ClosedNamesAreDeclared, ValueIsWhole, LiteralIsWhole, ReplacedIsWhole, FoldedIsWhole};

/// Where no pair has a declared name, declared names stand for themselves.
pub fn declared_names_kept()
    ensures { UndeclaredPairsKeepDeclared }
{}

/// An expression with its names replaced has the value that it has where these names have these values.
pub fn values_of_replaced()
    ensures under { ReplacedKeepsValue }
    ensures alone { ReplacedKeepsValueAlone }
    ensures literal { LiteralHasValue }
{}

/// A folded expression has the value that it had, unless it was closed and had an undeclared kind as its value.
pub fn values_of_folded()
    ensures expression { FoldedKeepsValue }
    ensures expr { FoldedKeepsValueOfExpr }
    ensures literals { DeclaredLiteralsGiveDeclared }
{}

/// An expression is closed exactly where each of its free names is declared.
pub fn closed_expressions()
    ensures { ClosedNamesAreDeclared }
{}

/// What this crate makes of whole expressions and whole values is whole.
pub fn whole_results()
    ensures value { ValueIsWhole }
    ensures literal { LiteralIsWhole }
    ensures replaced { ReplacedIsWhole }
    ensures folded { FoldedIsWhole }
{}
