//! The lines of texts that are no sessions.
ghost use Rattle.std.specs.Prelude.{◌≡◌, IfOk, string_bytes};
ghost use Rattle.poets_session.specs.Texts as texts;
ghost use Rattle.poets_session.specs.Refusals.{Unguarded};
ghost use Rattle.poets_session.specs.FaultLines.{IsLineOf};
ghost use Rattle.poets_session.specs.code.Lines.{TellsFault, TellsRefusal};
ghost use Rattle.poets_session.specs.declared.fault.SessionCause.TheVariants as C;

use crate::{SessionCause, SessionFault};
use poets_guard::GuardFault;
use poets_lex::{LexFault, Names};
use poets_parse::SyntaxFault;
use poets_print::{name_text, type_text};
use poets_types::{TypeCause, TypeFault};
use poets_value::{List, Memory, Name};
use std::alloc::Global;

// The line that names a byte.
fn at_byte(alloc: Global, at: u32, what: &str) -> Result<String, Memory>
    ensures { IfOk result (λ text. string_bytes text ≡ texts.at_byte at what.now) }
{
    Ok(format!(in alloc; "refused at byte {at}: {what}\n")?)
}

// The line that names a statement.
fn in_statement(alloc: Global, number: u64, what: &str) -> Result<String, Memory>
    ensures { IfOk result (λ text. string_bytes text ≡ texts.in_statement number what.now) }
{
    Ok(format!(in alloc; "refused in statement {number}: {what}\n")?)
}

// What is wrong with the types of a statement.
fn type_fault_text(alloc: Global, names: &Names, cause: TypeCause) -> Result<String, Memory>
    ensures { IfOk result (TellsFault names.now cause) }
{
    match cause {
        TypeCause::Twice { name } => {
            let name = name_text(names, name);
            Ok(format!(in alloc; "Twice {name}")?)
        }
        TypeCause::Unknown { name } => {
            let name = name_text(names, name);
            Ok(format!(in alloc; "Unknown {name}")?)
        }
        TypeCause::WrongCount {
            name,
            wanted,
            found,
        } => {
            let name = name_text(names, name);
            Ok(format!(in alloc; "WrongCount {name}: wanted {wanted}, found {found}")?)
        }
        TypeCause::WrongType { wanted, found } => {
            let wanted = type_text(wanted);
            let found = type_text(found);
            Ok(format!(in alloc; "WrongType: wanted {wanted}, found {found}")?)
        }
        TypeCause::Memory => Err(Memory),
    }
}

// The line of a statement that is not typed.
fn type_line(alloc: Global, names: &Names, fault: TypeFault) -> Result<String, Memory>
    ensures { IfOk result (IsLineOf names.now (C.Types fault)) }
{
    let what = type_fault_text(alloc, names, fault.cause)?;
    in_statement(alloc, fault.statement, &what)
}

// The text of the first name, and nothing where there is none.
fn first_text<'a>(names: &'a Names, cycle: &[Name]) -> &'a str
    ensures { result.now ≡ texts.first_text names.now cycle.now }
{
    match cycle {
        [] => "",
        [first, ..] => name_text(names, *first),
    }
}

// The line of a cycle, which tells its first name.
fn cycle_line(
    alloc: Global,
    names: &Names,
    number: u64,
    cycle: &List<Name>,
) -> Result<String, Memory>
    ensures { IfOk result (TellsRefusal names.now (Unguarded number cycle.now.items)) }
{
    let first = first_text(names, cycle.as_slice());
    let what = format!(in alloc; "Unguarded {first}")?;
    in_statement(alloc, number, &what)
}

/// The line that tells why a text is no session, with its LF, by `docs/LANGUAGE.md`, "Refused texts".
///
/// "Out of memory" has no line, and is returned as it is. No fault that `read` hands out has a cycle without a name.
pub fn fault_text(alloc: Global, fault: &SessionFault) -> Result<String, Memory>
    ensures line { IfOk result (IsLineOf fault.now.names fault.now.what) }
{
    let names = &fault.names;
    match &fault.what {
        SessionCause::Lex(LexFault::BadByte { at }) => at_byte(alloc, *at, "BadByte"),
        SessionCause::Lex(LexFault::LongNumber { at }) => at_byte(alloc, *at, "LongNumber"),
        SessionCause::Lex(LexFault::LongName { at }) => at_byte(alloc, *at, "LongName"),
        SessionCause::Syntax {
            statement,
            fault: SyntaxFault::TooDeep,
        } => in_statement(alloc, *statement, "TooDeep"),
        SessionCause::Syntax {
            statement,
            fault: SyntaxFault::NoSentence,
        } => in_statement(alloc, *statement, "NoSentence"),
        SessionCause::Misplaced { statement } => in_statement(alloc, *statement, "Misplaced"),
        SessionCause::TooMany { statement } => in_statement(alloc, *statement, "TooMany"),
        SessionCause::Types(fault) => type_line(alloc, names, *fault),
        SessionCause::Guard {
            statement,
            fault: GuardFault::Unguarded { cycle },
        } => cycle_line(alloc, names, *statement, cycle),
        SessionCause::Lex(LexFault::Memory)
        | SessionCause::Syntax {
            fault: SyntaxFault::Memory,
            ..
        }
        | SessionCause::Guard {
            fault: GuardFault::Memory,
            ..
        }
        | SessionCause::Memory => Err(Memory),
    }
}
