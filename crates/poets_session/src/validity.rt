//! Statements as a session.
ghost use Rattle.std.specs.Prelude.{◌≡◌, IfOk, OnOk, IfErr};
ghost use Rattle.poets_command.specs.Statements.{statements_of};
ghost use Rattle.poets_session.specs.Sessions.{AreValid, Represents};
ghost use Rattle.poets_session.specs.Refusals.{AreRefused};
ghost use Rattle.poets_session.specs.Causes.{IsCauseOf, IsFirstFaultOf};
ghost use Rattle.poets_session.specs.code.Parts.{HoldParts};

use crate::checking::{check_types, study_book};
use crate::counting::check_places;
use crate::scripts::{Calls, calls_in};
use crate::{Form, Session, SessionCause, SessionFault};
use poets_command::Statement;
use poets_lex::Names;
use poets_rules::Rules;
use poets_types::Checked;
use poets_value::List;
use std::alloc::Global;

/// A session without the texts of its names.
#[derive(Drop)]
pub(crate) struct Parts {
    pub(crate) rules: Rules,
    pub(crate) calls: Calls,
}

// What the statements say as a session of the form.
fn parts_of(alloc: Global, statements: List<Statement>, form: Form) -> Result<Parts, SessionCause>
    ensures valid { OnOk result (AreValid form (statements_of statements.items)) }
    ensures parts { IfOk result (HoldParts (statements_of statements.items)) }
    ensures refused { IfErr result (IsCauseOf (AreRefused form (statements_of statements.items))) }
{
    check_places(form, statements.as_slice())?;
    let Checked { book, reports } = check_types(alloc, statements.as_slice())?;
    let studied = study_book(alloc, book, statements.as_slice())?;
    let calls = calls_in(alloc, statements)?;
    let rules = Rules { studied, reports };
    Ok(Parts { rules, calls })
}

/// The session of the form that the statements are, phase by phase: their places, declared names, types, and
/// guardedness. The fault is that of the first phase that fails, and in it of the least statement.
///
/// The table has the texts of the statements' names, and goes into the session or the fault as it is. Where each name
/// of the statements stands in it, each that a fault tells does too.
pub fn session_of(
    alloc: Global,
    names: Names,
    statements: List<Statement>,
    form: Form,
) -> Result<Session, SessionFault>
    ensures valid { OnOk result (AreValid form (statements_of statements.items)) }
    ensures holds { IfOk result (Represents (statements_of statements.items)) }
    ensures names { IfOk result (λ session. session.names ≡ names) }
    ensures refused { IfErr result (IsFirstFaultOf form (statements_of statements.items)) }
    ensures told { IfErr result (λ fault. fault.names ≡ names) }
{
    match parts_of(alloc, statements, form) {
        Ok(Parts { rules, calls }) => Ok(Session {
            names,
            rules,
            scripts: calls.scripts,
            journal: calls.journal,
        }),
        Err(what) => Err(SessionFault { names, what }),
    }
}
