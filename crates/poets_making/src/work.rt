//! Calls, made one after the other on the calling thread.
ghost use Rattle.std.specs.Prelude.{◌≡◌, IfOk};
ghost use Rattle.poets_syntax.specs.Whole.{IsWholeBook};
ghost use Rattle.std.specs.Arc.{arc_value};
ghost use Rattle.poets_command.specs.Calls.{command_of, history_of};
ghost use Rattle.poets_rules.specs.Rules.{book_of_rules};
ghost use Rattle.poets_engine.specs.Takes.{IsTakenBy};
ghost use Rattle.poets_session.specs.Sessions.{calls_in};
ghost use Rattle.poets_making.specs.Noted.{AreNoted, AreRight, AreTaken, HaveCalls, NotesCall};

use poets_command::{Command, Entry};
use poets_engine::Engine;
use poets_expr::Asks;
use poets_rules::Rules;
use poets_value::{List, Memory, push};
use std::alloc::Global;
use std::sync::Arc;
use std::thread::Threads;

// Makes one call, and notes its entry.
fn call<R: Threads + Sync>(
    rt: &R,
    alloc: Global,
    engine: &mut Engine,
    entries: &mut List<Entry>,
    clerk: u32,
    command: &Arc<Command>,
) -> Result<(), Memory>
    requires taken { IsTakenBy engine.old.rules (command_of (arc_value command.now)) }
    requires noted { AreNoted engine.old (history_of entries.old.items) }
    ensures noted { IfOk result (λ _. AreNoted engine.new (history_of entries.new.items)) }
    ensures calls { IfOk result (λ _. NotesCall clerk command.now entries.old entries.new) }
    ensures frame { engine.new.rules ≡ engine.old.rules }
{
    let kept = engine.apply(rt, alloc, clerk, command, &mut Asks::new(()))?;
    let reply = Engine::finish(rt, alloc, kept)?;
    let command = Arc::try_clone(command)?;
    let entry = Entry {
        clerk,
        command,
        reply,
    };
    push(entries, entry)
}

/// The engine after the calls, made in their order, and the entries of their history.
pub fn make_calls<R: Threads + Sync>(
    rt: &R,
    alloc: Global,
    rules: Rules,
    calls: &[(u32, Arc<Command>)],
) -> Result<(Engine, List<Entry>), Memory>
    requires whole { IsWholeBook (book_of_rules rules) }
    requires taken { AreTaken rules calls.now }
    ensures rules { IfOk result (λ made. made.0.rules ≡ rules) }
    ensures noted { IfOk result (λ made. AreNoted made.0 (history_of made.1.items)) }
    ensures right { IfOk result (λ made. AreRight rules made.1) }
    ensures calls { IfOk result (λ made. HaveCalls (calls_in calls.now) made.1) }
{
    rules.studied.recall();
    let mut engine = Engine::new(alloc, rules);
    let mut entries = List::new(alloc);
    for numbered in calls {
        call(
            rt,
            alloc,
            &mut engine,
            &mut entries,
            numbered.0,
            &numbered.1,
        )?;
    }
    Ok((engine, entries))
}
