//! The calls that a journal holds, made on a new engine.
ghost use Rattle.std.specs.Prelude.{◌≡◌, ◌≤◌, length, IfOk, IfErr};
ghost use Rattle.poets_value.specs.Limits.{longest_text};
ghost use Rattle.poets_syntax.specs.Whole.{IsWholeBook};
ghost use Rattle.poets_rules.specs.Rules.{book_of_rules, reports_of_rules};
ghost use Rattle.poets_making.specs.Noted.{AreNoted, AreRight};
ghost use Rattle.poets_command.specs.Calls.{calls_of, history_of};
ghost use Rattle.poets_recover.specs.Stored.{AreStoredCalls, bytes_in, length_of_all, most_stored, TellsRefused};

use crate::RecoverFault;
use crate::stored::stored_calls;
use poets_command::Entry;
use poets_engine::Engine;
use poets_lex::Names;
use poets_making::make_calls;
use poets_rules::Rules;
use poets_value::List;
use std::alloc::Global;
use std::thread::Threads;

/// The engine that made the calls of a journal, their history, and the texts of its names.
#[derive(Drop)]
pub struct Recovered {
    pub names: Names,
    pub engine: Engine,
    pub history: List<Entry>,
}

/// Reads the texts of a journal as calls, and makes these, in their order, on a new engine with the rules. Their new
/// names get the next numbers of the table.
///
/// The time to read the texts is linear in their bytes.
pub fn recover<R: Threads + Sync>(
    rt: &R,
    alloc: Global,
    mut names: Names,
    rules: Rules,
    texts: &List<List<u8>>,
) -> Result<Recovered, RecoverFault>
    requires few { length names ≤ longest_text }
    requires whole { IsWholeBook (book_of_rules rules) }
    ensures calls { IfOk result (λ r.
        AreStoredCalls (book_of_rules rules) (reports_of_rules rules) names (bytes_in texts.now.items)
        (calls_of (history_of r.history.items)) r.names) }
    ensures within { IfOk result (λ _. length_of_all (bytes_in texts.now.items) ≤ most_stored) }
    ensures right { IfOk result (λ r. AreRight rules r.history) }
    ensures noted { IfOk result (λ r. AreNoted r.engine (history_of r.history.items)) }
    ensures rules { IfOk result (λ r. r.engine.rules ≡ rules) }
    ensures refused { IfErr result
        (TellsRefused (book_of_rules rules) (reports_of_rules rules) names (bytes_in texts.now.items)) }
{
    let calls = stored_calls(alloc, &mut names, &rules, texts.as_slice())?;
    let (engine, history) = make_calls(rt, alloc, rules, calls.as_slice())?;
    Ok(Recovered {
        names,
        engine,
        history,
    })
}
