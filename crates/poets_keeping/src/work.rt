//! The clerks' scripts, made all at once on one engine whose calls are put into a journal.
ghost use Rattle.std.specs.Prelude.{◌≡◌, ◌+◌, ◌^◌, ◌≤◌, ◌<◌, [], IfSome, false, length, drop};
ghost use Rattle.poets_clerks.specs.Histories.{AreReplies, HasScriptParts, HasScripts};
ghost use Rattle.poets_clerks.specs.Scripts.{AreTaken, calls_of_scripts};
ghost use Rattle.poets_value.specs.Limits.{most_clerks};
ghost use Rattle.poets_session.specs.Sessions.{commands_in};
ghost use Rattle.poets_journal.specs.Keeping.{IsStorable};
ghost use Rattle.poets_making.specs.Noted.{AreScriptsTaken};
ghost use Rattle.poets_stored.specs.Laws.{AreStorableScripts};
ghost use Rattle.poets_engine.specs.State.{HasLegalHistory, commands_of};
ghost use Rattle.poets_disk.specs.Disks.{GoesOn};
ghost use Rattle.poets_keeping.specs.Made.{AreMade, OfTaken};
ghost use Rattle.poets_keeping.specs.code.Entries.{AreEntriesWith};

use poets_clerks::{Gate, MadeOf, attempt_history};
use poets_command::{Command, Entry, Reply};
use poets_disk::Disk;
use poets_engine::Engine;
use poets_journal::{Journal, Journaled, Put};
use poets_lex::Names;
use poets_machine::Machine;
use poets_making::entries_of;
use poets_onward::Onward;
use poets_stored::CommandPut;
use poets_value::List;
use std::alloc::Global;
use std::sync::{Arc, Wait};
use std::thread::Threads;

/// What came of scripts: the whole history where memory was enough, how many calls are stored, and the disk.
#[derive(Drop)]
pub(crate) struct KeptCalls<D> {
    pub(crate) history: Option<List<Entry>>,
    pub(crate) stored: u64,
    pub(crate) disk: D,
}

/// Makes the calls of the scripts, all at once, on an engine that took so many calls before, and puts each into the
/// journal, behind the texts that it holds. The history has none of the earlier calls.
pub(crate) fn keep_calls<D: Disk + Drop + Send, G: Gate + Sync, R: Threads + Wait + Sync>(
    rt: &R,
    alloc: Global,
    engine: Engine,
    earlier: u64,
    names: &Names,
    scripts: &List<List<Arc<Command>>>,
    gate: &G,
    journal: Journal<D>,
) -> KeptCalls<D>
    requires earlier { length engine.calls ≡ earlier }
    requires taken { AreScriptsTaken engine.rules scripts.now.items }
    requires few { length scripts.now.items ≤ most_clerks }
    requires storable { AreStorableScripts names.now scripts.now.items }
    requires works { journal.failed ≡ false }
    // Whatever history the engine took before.
    ensures made { OfTaken engine (λ p. AreMade engine.rules names.now p (commands_in scripts.now.items)
        (D.seen journal.disk) (D.seen result.disk) (D.faults journal.disk) (D.faults result.disk)
        result.stored result.history) }
    ensures within { IfSome result.history (λ history. result.stored ≤ length history.items) }
    ensures numbered { IfSome result.history (λ history. earlier + length history.items < 2 ^ 64) }
    ensures later { D.faults journal.disk ≤ D.faults result.disk }
    ensures time { GoesOn (D.seen journal.disk) (D.seen result.disk) }
{
    engine.studied().recall();
    let onward = Onward::new(engine, earlier);
    let machine = Journaled::new(onward, journal, CommandPut::new(names));
    let MadeOf { machine, replies } = attempt_kept(rt, alloc, machine, scripts, gate);
    let stored = machine.stored();
    let (onward, disk) = machine.end();
    let engine = onward.end();
    let history = entries_with(alloc, &engine, earlier, replies);
    KeptCalls {
        history,
        stored,
        disk,
    }
}

// Makes the calls of the scripts on a machine with a journal that took no call yet.
fn attempt_kept<
    M: Machine + Send,
    D: Disk + Drop + Send,
    P: Put<M::Call> + Drop + Send,
    G: Gate + Sync,
    R: Threads + Wait + Sync,
>(
    rt: &R,
    alloc: Global,
    machine: Journaled<M, D, P>,
    scripts: &List<List<Arc<M::Call>>>,
    gate: &G,
) -> MadeOf<Journaled<M, D, P>, M::Reply>
where
    M::Call: Send + Sync,
    M::Reply: Send,
    M::Kept: Send,
    requires few { length scripts.now.items ≤ most_clerks }
    requires new { M.history machine.machine ≡ [] }
    requires takes { AreTaken
        (λ call. M.takes (M.frame machine.machine) call × IsStorable P.has_text P.text (P.table machine.put) call)
        scripts.now }
    ensures frame { M.frame result.machine.machine ≡ M.frame machine.machine }
    ensures table { P.table result.machine.put ≡ P.table machine.put }
    ensures made { result.machine.made ≡ machine.made }
    ensures part { HasScriptParts (calls_of_scripts scripts.now) (M.history result.machine.machine) }
    ensures history { IfSome result.replies
        (λ _. HasScripts (calls_of_scripts scripts.now) (M.history result.machine.machine)) }
    ensures replies { IfSome result.replies (λ replies.
        AreReplies (M.answers (M.frame machine.machine)) (M.history result.machine.machine) replies.items) }
{
    attempt(rt, alloc, machine, scripts, gate)
}

// Makes the calls of the scripts on a machine that took no call yet, where there are any.
fn attempt<M: Machine + Send, G: Gate + Sync, R: Threads + Wait + Sync>(
    rt: &R,
    alloc: Global,
    machine: M,
    scripts: &List<List<Arc<M::Call>>>,
    gate: &G,
) -> MadeOf<M, M::Reply>
where
    M::Call: Send + Sync,
    M::Reply: Send,
    M::Kept: Send,
    requires few { length scripts.now.items ≤ most_clerks }
    requires new { M.history machine ≡ [] }
    requires takes { AreTaken (M.takes (M.frame machine)) scripts.now }
    ensures frame { M.frame result.machine ≡ M.frame machine }
    ensures part { HasScriptParts (calls_of_scripts scripts.now) (M.history result.machine) }
    ensures history { IfSome result.replies (λ _. HasScripts (calls_of_scripts scripts.now) (M.history result.machine)) }
    ensures replies { IfSome result.replies (λ replies.
        AreReplies (M.answers (M.frame machine)) (M.history result.machine) replies.items) }
{
    if scripts.is_empty() {
        return MadeOf {
            machine,
            replies: Some(List::new(alloc)),
        };
    }
    attempt_history(rt, alloc, machine, scripts, gate)
}

// The entries of the engine's calls behind the earlier ones, where there are replies to them, and memory enough.
fn entries_with(
    alloc: Global,
    engine: &Engine,
    earlier: u64,
    replies: Option<List<Reply>>,
) -> Option<List<Entry>>
    requires within { earlier ≤ length engine.now.calls }
    ensures entries { IfSome result (AreEntriesWith (drop earlier engine.now.calls) replies) }
    ensures numbered { IfSome result (λ entries. earlier + length entries.items < 2 ^ 64) }
    ensures legal { HasLegalHistory engine.now }
{
    let calls = later_calls(engine, earlier);
    let replies = replies?;
    match entries_of(alloc, calls, replies) {
        Ok(entries) => Some(entries),
        Err(_) => None,
    }
}

// The engine's calls behind the earlier ones. The number of all is one of 64 bits.
fn later_calls(engine: &Engine, earlier: u64) -> &[(u32, Arc<Command>)]
    requires within { earlier ≤ length engine.now.calls }
    ensures calls { commands_of result.now ≡ drop earlier engine.now.calls }
    ensures numbered { earlier + length result.now < 2 ^ 64 }
    ensures legal { HasLegalHistory engine.now }
{
    let calls = engine.history();
    &calls.as_slice()[earlier as usize..calls.len()]
}
