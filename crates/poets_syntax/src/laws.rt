//! What typing says of contracts, of their values and of replacing names, each law carried by a function that does
//! nothing.
ghost use Rattle.poets_syntax.specs.Laws.{WellFormedBindsUndeclared, ReplacedIsWhole, TypedIsWellFormed};
ghost use Rattle.poets_syntax.specs.Laws.{TypedApplicationsFit, TypedBodiesFit, TypedCountsFit, CountsFitWhereKnown};
ghost use Rattle.poets_syntax.specs.DemandLaws.{TypesByDemands, TypeFaultsByDemands, ContractsByDemands, ContractFaultsByDemands};
ghost use Rattle.poets_syntax.specs.DemandLaws.{OneCause};
ghost use Rattle.poets_syntax.specs.TypedLaws.{TypesByRules, ContractsByRules, ValueIsOfType, FoldedHasType, ReplacedHasType, ReplacedIsTyped};

/// A well-formed contract binds no declared name, as replacing names requires.
pub fn well_formed_binders()
    ensures { WellFormedBindsUndeclared }
{}

/// Whole contracts stay whole.
pub fn replaced_whole()
    ensures { ReplacedIsWhole }
{}

/// Expressions and contracts pass their checks exactly where they are typed by the rules of typing (`docs/LANGUAGE.md`,
/// "Names and types").
pub fn typed_by_rules()
    ensures expressions { TypesByRules }
    ensures contracts { ContractsByRules }
{}

/// The checks of expressions and contracts report the cause of the first demand of typing that is not met, and report
/// nothing exactly where all are met (`docs/LANGUAGE.md`, "Names and types").
pub fn faults_by_demands()
    ensures types { TypesByDemands }
    ensures type_faults { TypeFaultsByDemands }
    ensures contracts { ContractsByDemands }
    ensures contract_faults { ContractFaultsByDemands }
    ensures one_cause { OneCause }
{}

/// A typed contract is well-formed and has the right numbers of arguments, as the other laws require.
pub fn typed_well_formed()
    ensures well_formed { TypedIsWellFormed }
    ensures counts { TypedCountsFit }
{}

/// The value of a typed expression, where each name in its scope has a value of its type, is undefined or of its type.
pub fn value_of_type()
    ensures { ValueIsOfType }
{}

/// Folding an expression keeps its type.
pub fn folded_typed()
    ensures { FoldedHasType }
{}

/// Typed expressions and contracts stay typed where names are replaced by values of their types.
pub fn replaced_typed()
    ensures expression { ReplacedHasType }
    ensures contract { ReplacedIsTyped }
{}

/// In a typed contract and a typed book applications have as many arguments as their templates have parameters.
pub fn typed_applications_fit()
    ensures contract { TypedApplicationsFit }
    ensures bodies { TypedBodiesFit }
    ensures counts { CountsFitWhereKnown }
{}
