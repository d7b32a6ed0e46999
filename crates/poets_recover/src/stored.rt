//! The calls that a journal holds.
ghost use Rattle.std.specs.Prelude.{◌≤◌, length, All, IfOk, IfErr};
ghost use Rattle.std.specs.Arc.{arc_value};
ghost use Rattle.poets_value.specs.Limits.{longest_text};
ghost use Rattle.poets_lex.specs.Table.{Extends};
ghost use Rattle.poets_command.specs.Calls.{command_of};
ghost use Rattle.poets_command.specs.Taken.{IsTaken};
ghost use Rattle.poets_rules.specs.Rules.{book_of_rules, reports_of_rules};
ghost use Rattle.poets_session.specs.Sessions.{calls_in};
ghost use Rattle.poets_recover.specs.Stored.{AreStoredCalls, bytes_in, length_of_all, most_stored, TellsRefused};
ghost use Rattle.poets_recover.specs.code.Reading.{AreTyped, TellsMistyped};

use crate::RecoverFault;
use crate::reading::read_calls;
use poets_command::Command;
use poets_lex::Names;
use poets_rules::Rules;
use poets_types::{TypeCause, check_calls};
use poets_value::List;
use std::alloc::Global;
use std::sync::Arc;

// The calls are typed in the book of the rules, or the number, from 1, of the first that is not.
fn check(alloc: Global, rules: &Rules, calls: &[(u32, Arc<Command>)]) -> Result<(), RecoverFault>
    ensures typed { IfOk result (λ _. AreTyped rules.now calls.now) }
    ensures fault { IfErr result (TellsMistyped rules.now calls.now) }
{
    let Err(fault) = check_calls(alloc, rules.studied.book(), rules.reports.as_slice(), calls)
    else {
        return Ok(());
    };
    if let TypeCause::Memory = fault.cause {
        return Err(RecoverFault::Memory);
    }
    Err(RecoverFault::Text {
        number: fault.place as u64 + 1,
    })
}

/// The calls that the texts of a journal are. Their new names get the next numbers of the table.
///
/// The time is linear in the bytes of the texts. After a fault, names of the texts may have been added to the table.
pub fn stored_calls(
    alloc: Global,
    names: &mut Names,
    rules: &Rules,
    texts: &[List<u8>],
) -> Result<List<(u32, Arc<Command>)>, RecoverFault>
    requires { length names.old ≤ longest_text }
    ensures calls { IfOk result (λ calls.
        AreStoredCalls (book_of_rules rules.now) (reports_of_rules rules.now) names.old (bytes_in texts.now)
        (calls_in calls.items) names.new) }
    ensures within { IfOk result (λ _. length_of_all (bytes_in texts.now) ≤ most_stored) }
    ensures taken { IfOk result (λ calls. All
        (λ call. IsTaken (book_of_rules rules.now) (reports_of_rules rules.now) (command_of (arc_value call.1)))
        calls.items) }
    ensures refused { IfErr result
        (TellsRefused (book_of_rules rules.now) (reports_of_rules rules.now) names.old (bytes_in texts.now)) }
    ensures names { Extends names.old names.new }
{
    let calls = read_calls(alloc, names, texts)?;
    check(alloc, rules, calls.as_slice())?;
    if calls.len() < texts.len() {
        return Err(RecoverFault::Text {
            number: calls.len() as u64 + 1,
        });
    }
    Ok(calls)
}
