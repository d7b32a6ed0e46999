//! Reading a text as a session.
ghost use Rattle.std.specs.Prelude.{◌≡◌, ◌≤◌, length, [], IfOk, IfErr};
ghost use Rattle.poets_value.specs.Limits.{longest_text};
ghost use Rattle.poets_command.specs.Statements.{statements_of};
ghost use Rattle.poets_session.specs.Sessions.{IsReadAs, HoldsText};
ghost use Rattle.poets_session.specs.Refusals.{IsUnreadable};
ghost use Rattle.poets_session.specs.Causes.{IsFirstFault, IsCauseOf};

use crate::splitting::statements;
use crate::validity::session_of;
use crate::{Form, Session, SessionCause, SessionFault};
use poets_command::Statement;
use poets_lex::{Names, tokens};
use poets_value::List;
use std::alloc::Global;

// The statements of a text. Its names go into the table, which has none.
fn read_statements(
    alloc: Global,
    text: &[u8],
    names: &mut Names,
) -> Result<List<Statement>, SessionCause>
    requires short { length text.now ≤ longest_text }
    requires empty { names.old ≡ [] }
    ensures read { IfOk result (λ found. IsReadAs text.now names.new (statements_of found.items)) }
    ensures unreadable { IfErr result (IsCauseOf (IsUnreadable text.now names.new)) }
{
    let tokens = tokens(alloc, text, names)?;
    statements(alloc, tokens.as_slice())
}

/// Reads a text as a session of the form, phase by phase: tokens, statements, their places, declared names,
/// types, and guardedness. The fault is that of the first phase that fails, and in it of the least statement.
///
/// The rules are those of `docs/LANGUAGE.md`.
pub fn read(alloc: Global, text: &[u8], form: Form) -> Result<Session, SessionFault>
    requires { length text.now ≤ longest_text }
    ensures session { IfOk result (HoldsText text.now form) }
    ensures refused { IfErr result (IsFirstFault text.now form) }
{
    let mut names = Names::new(alloc);
    match read_statements(alloc, text, &mut names) {
        Ok(statements) => session_of(alloc, names, statements, form),
        Err(what) => Err(SessionFault { names, what }),
    }
}
