//! The laws of `Perf` and `May`, and of guarded and studied books, each carried by a function that does nothing.
ghost use Rattle.std.specs.Prelude.{◌≡◌, ℕ, min};
ghost use Rattle.poets_meaning.specs.Laws.{NothingGranted, RestGranted, AllGranted, GrantedAnywhere, GrantedByShape, NullableByShape, HopefulByShape, NullableByMarks, ReplacedAlike, ReplacedPerformed};
ghost use Rattle.poets_meaning.specs.StudiedLaws.{StudiedMarksAreRight, WidthUnfolds};
ghost use Rattle.poets_meaning.specs.Spread.{largest};
ghost use Rattle.poets_meaning.specs.Width.{widest, cut};

/// With no granted step, what may be performed is what is performed.
pub fn nothing_granted()
    ensures { NothingGranted }
{}

/// Where a trace performs a contract, as many granted steps may stand in for its last events.
pub fn rest_granted()
    ensures { RestGranted }
{}

/// Granted steps may stand in for all events of a trace.
pub fn all_granted()
    ensures { AllGranted }
{}

/// What granted steps alone perform depends on no environment.
pub fn granted_anywhere()
    ensures { GrantedAnywhere }
{}

/// What granted steps alone perform depends on the shape of a contract alone.
pub fn granted_by_shape()
    ensures { GrantedByShape }
{}

/// Whether a contract is nullable or hopeful depends on its shape alone.
pub fn nullable_and_hopeful_by_shape()
    ensures nullable { NullableByShape }
    ensures hopeful { HopefulByShape }
{}

/// Right marks of the templates tell whether the empty trace performs a contract.
pub fn nullable_by_marks()
    ensures { NullableByMarks }
{}

/// A contract with its names replaced may be performed just as it may where the names have these values.
pub fn replaced_alike()
    ensures { ReplacedAlike }
{}

/// A contract with its names replaced is performed by the traces that perform it where the names have these values.
pub fn replaced_performed()
    ensures { ReplacedPerformed }
{}

/// The marks of a studied book are right.
pub fn studied_marks()
    ensures { StudiedMarksAreRight }
{}

/// In a guarded book the width counts an application with the width of its template's body.
pub fn width_unfolds()
    ensures { WidthUnfolds }
{}

/// The limits: the greatest size and the greatest spread of a contract that is kept, and where widths are cut.
pub fn limits()
    ensures largest { largest ≡ 1000 }
    ensures widest { widest ≡ 4096 }
    ensures cut { (n : ℕ) → cut n ≡ min n 4097 }
{}
