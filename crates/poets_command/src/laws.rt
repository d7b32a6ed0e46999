//! Laws of typed commands, each carried by a function that does nothing.
ghost use Rattle.poets_command.specs.AnswerTypes.{AnswersHaveTypes};
ghost use Rattle.poets_command.specs.DemandLaws.{CommandsByDemands, CommandFaultsByDemands};
ghost use Rattle.poets_command.specs.DemandLaws.{StatementsByDemands, StatementFaultsByDemands};
ghost use Rattle.poets_command.specs.Laws.{TemplatesByRules, ReportsByRules, CommandsByRules, TypedRegistration, TypedEvent, TypedReport};

/// Templates, reports and commands pass their checks exactly where they are typed by the rules of typing
/// (`docs/LANGUAGE.md`, "Names and types").
pub fn typed_by_rules()
    ensures templates { TemplatesByRules }
    ensures reports { ReportsByRules }
    ensures commands { CommandsByRules }
{}

/// The checks of commands and statements report the cause of the first demand of typing that is not met, and report
/// nothing exactly where all are met (`docs/LANGUAGE.md`, "Names and types").
pub fn faults_by_demands()
    ensures commands { CommandsByDemands }
    ensures command_faults { CommandFaultsByDemands }
    ensures statements { StatementsByDemands }
    ensures statement_faults { StatementFaultsByDemands }
{}

/// A typed registration is of a well-formed contract with the right numbers of arguments.
pub fn typed_registration()
    ensures { TypedRegistration }
{}

/// A typed transmission is of an event whose agents and kind are declared as such.
pub fn typed_event()
    ensures { TypedEvent }
{}

/// A typed tally, portfolio or watch is of a report that takes so many arguments.
pub fn typed_report()
    ensures { TypedReport }
{}

/// All keys of a typed report have one type, and its values have the report's type (`docs/LANGUAGE.md`, "Names and types").
pub fn answers_have_types()
    ensures { AnswersHaveTypes }
{}
