//! The laws of residuals, each carried by a function that does nothing.
ghost use Rattle.poets_residue.specs.Laws.{StudiedBooks, ResidualFollows, ResidualOne, ResidualIs, ResidualAt};
ghost use Rattle.poets_residue.specs.Laws.{ResidualOfApplication, ResidualWellFormed, ResidualAtWellFormed};
ghost use Rattle.poets_residue.specs.Laws.{ResidualAtCountsFit, ResidualAtNormal, ResidualAtWhole, TraceFollowed};
ghost use Rattle.poets_residue.specs.Laws.{TracePerformed, TraceHopeless, TraceHopeful, TraceWellFormed, TraceNormal};
ghost use Rattle.poets_residue.specs.Laws.{TraceWhole, EnoughUnfoldings, ReadyUnfolds, ReadyOfApplication};
ghost use Rattle.poets_residue.specs.TypedLaws.{ResidualTyped, ResidualAtTyped, TraceTyped, ReadyLiterals};
ghost use Rattle.poets_residue.specs.TypedLaws.{NoneOperated, AskedOfBody, TraceAskedOfBody};

/// A studied book meets the premises of these laws.
pub fn studied_books()
    ensures { StudiedBooks }
{}

/// The residual is performed by what may follow the event.
pub fn residual_follows()
    ensures { ResidualFollows }
{}

/// There is one residual at most.
pub fn residual_one()
    ensures { ResidualOne }
{}

/// With enough unfoldings the function gives the residual.
pub fn residual_is()
    ensures { ResidualIs }
{}

/// With enough unfoldings what the function gives is performed by what may follow the event.
pub fn residual_at()
    ensures { ResidualAt }
{}

/// In a guarded book an application leaves what its body leaves.
pub fn residual_of_application()
    ensures { ResidualOfApplication }
{}

/// The residual of a well-formed contract is well-formed, that of a normal form a normal form, and that of a whole
/// contract whole. Where the numbers of arguments fit, they fit in the residual.
pub fn residual_well_formed()
    ensures formed { ResidualWellFormed }
    ensures formed_at { ResidualAtWellFormed }
    ensures fit_at { ResidualAtCountsFit }
    ensures normal_at { ResidualAtNormal }
    ensures whole_at { ResidualAtWhole }
{}

/// After a trace the residual is performed by what may follow the trace.
pub fn trace_followed()
    ensures may { TraceFollowed }
    ensures performed { TracePerformed }
{}

/// After a trace the residual is `Failure` exactly where no number of granted steps finishes; where it is not, some
/// number does.
pub fn trace_hopeless()
    ensures hopeless { TraceHopeless }
    ensures hopeful { TraceHopeful }
{}

/// After a trace the residual is a normal form, well-formed and whole.
pub fn trace_well_formed()
    ensures formed { TraceWellFormed }
    ensures normal { TraceNormal }
    ensures whole { TraceWhole }
{}

/// In a typed book the residual of a closed typed contract is closed and typed, by one event and after a trace.
pub fn residual_typed()
    ensures by_event { ResidualTyped }
    ensures at { ResidualAtTyped }
    ensures after_trace { TraceTyped }
{}

/// In a guarded book as many unfoldings in a row as there are templates find all that is ready in a contract, and an
/// application is ready with what is ready in its body.
pub fn enough_unfoldings()
    ensures at_least { EnoughUnfoldings }
    ensures unfolds { ReadyUnfolds }
    ensures application { ReadyOfApplication }
{}

/// In a typed book the arguments of applications that are ready in a closed typed contract in normal form, as residuals
/// are, are literals or declared names: such an application takes at most as many evaluations as its template's body
/// has arguments.
pub fn arguments_are_values()
    ensures values { ReadyLiterals }
    ensures operated { NoneOperated }
    ensures asked { AskedOfBody }
    ensures after_trace { TraceAskedOfBody }
{}
