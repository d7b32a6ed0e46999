//! The clerks' scripts, made all at once on one engine.
ghost use Rattle.std.specs.Prelude.{◌≤◌, length, IfOk};
ghost use Rattle.poets_value.specs.Limits.{most_clerks};
ghost use Rattle.poets_rules.specs.Rules.{book_of_rules};
ghost use Rattle.poets_syntax.specs.Whole.{IsWholeBook};
ghost use Rattle.poets_making.specs.Noted.{AreEntriesOf, AreRight, AreScriptsTaken, HaveScripts};

use poets_clerks::{Gate, make_history};
use poets_command::{Command, Entry, Reply};
use poets_engine::Engine;
use poets_rules::Rules;
use poets_value::{List, Memory, push};
use std::alloc::Global;
use std::sync::{Arc, Wait};
use std::thread::Threads;

/// The entries of the history that clerks make with their scripts, all at once.
pub fn make_scripts<G: Gate + Sync, R: Threads + Wait + Sync>(
    rt: &R,
    alloc: Global,
    rules: Rules,
    scripts: &List<List<Arc<Command>>>,
    gate: &G,
) -> Result<List<Entry>, Memory>
    requires whole { IsWholeBook (book_of_rules rules) }
    requires taken { AreScriptsTaken rules scripts.now.items }
    requires few { length scripts.now.items ≤ most_clerks }
    ensures right { IfOk result (AreRight rules) }
    ensures scripts { IfOk result (HaveScripts scripts.now.items) }
{
    rules.studied.recall();
    let engine = Engine::new(alloc, rules);
    if scripts.is_empty() {
        return Ok(List::new(alloc));
    }
    let (engine, replies) = make_history(rt, alloc, engine, scripts, gate)?;
    entries_of(alloc, engine.history().as_slice(), replies)
}

/// The entries of calls, each with its reply. Where calls and replies differ in number, the rest is left out.
pub fn entries_of(
    alloc: Global,
    calls: &[(u32, Arc<Command>)],
    replies: List<Reply>,
) -> Result<List<Entry>, Memory>
    ensures { IfOk result (AreEntriesOf calls.now replies.items) }
{
    let mut entries = List::new(alloc);
    for ((clerk, command), reply) in calls.iter().zip(replies.into_vec()) {
        let entry = Entry {
            clerk: *clerk,
            command: Arc::try_clone(command)?,
            reply,
        };
        push(&mut entries, entry)?;
    }
    Ok(entries)
}
