//! The laws of normal forms, each carried by a function that does nothing.
ghost use Rattle.poets_norm.specs.Laws.{NormalAlike, NormalHopeless, NormalTwice, NormalWhole, PlainBooks};
ghost use Rattle.poets_norm.specs.Laws.{NormalWellFormed, NormalCountsFit, NormalTyped};

/// The normal form is performed as the contract is.
pub fn normal_alike()
    ensures { NormalAlike }
{}

/// The normal form is `Failure` exactly where the contract is not hopeful.
pub fn normal_hopeless()
    ensures { NormalHopeless }
{}

/// The normal form of a normal form is itself.
pub fn normal_twice()
    ensures { NormalTwice }
{}

/// The normal form of a whole contract is whole.
pub fn normal_whole()
    ensures { NormalWhole }
{}

/// The normal form of a well-formed contract is well-formed.
pub fn normal_well_formed()
    ensures { NormalWellFormed }
{}

/// The normal form applies templates to as many arguments as the contract does.
pub fn normal_counts_fit()
    ensures { NormalCountsFit }
{}

/// The normal form of a typed contract is typed.
pub fn normal_typed()
    ensures { NormalTyped }
{}

/// A book without templates meets the premises of the laws.
pub fn plain_books()
    ensures { PlainBooks }
{}
