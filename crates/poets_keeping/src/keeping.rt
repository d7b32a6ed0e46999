//! The word `keep`: the clerks' scripts are made, and their calls kept in a journal.
ghost use Rattle.std.specs.Prelude.{◌≡◌, ◌+◌, ◌^◌, ◌≤◌, ◌<◌, [], false, length, take};
ghost use Rattle.poets_value.specs.Limits.{most_clerks};
ghost use Rattle.poets_command.specs.Calls.{history_of};
ghost use Rattle.poets_disk.specs.Disks.{GoesOn};
ghost use Rattle.poets_making.specs.Noted.{AreScriptsTaken};
ghost use Rattle.poets_session.specs.Sessions.{commands_in};
ghost use Rattle.poets_session.specs.declared.form.Form.TheVariants as F;
ghost use Rattle.poets_stored.specs.Laws.{AreStorableScripts};
ghost use Rattle.poets_writing.specs.Outcomes.{lines_after};
ghost use Rattle.poets_writing.specs.Writing.{change};
ghost use Rattle.poets_keeping.specs.Promises.{EndsAsKept};
ghost use Rattle.poets_keeping.specs.code.Ended.{Keeps, WasRead};
ghost use Rattle.poets_keeping.specs.Journals.{HeldTexts, OnlyStarted};
ghost use Rattle.poets_keeping.specs.Made.{KeepsScripts, OfTaken, kept_status};
ghost use Rattle.poets_keeping.specs.Writing.{WritesAs};

use crate::journal::{damaged_line, holds_line};
use crate::outcome::{DAMAGED, DISK_FAULT, HOLDS_CALLS, KeptOutcome, stopped, unstored};
use crate::work::{KeptCalls, keep_calls};
use crate::writing::{tell, write_entries};
use poets_clerks::Gate;
use poets_command::{Command, Entry};
use poets_disk::Disk;
use poets_engine::Engine;
use poets_io::{Sink, Source};
use poets_journal::{Journal, StartFault, Started};
use poets_lex::Names;
use poets_opening::open_session;
use poets_session::{Form, Session};
use poets_value::List;
use poets_writing::{DONE, NO_MEMORY};
use std::alloc::Global;
use std::sync::{Arc, Wait};
use std::thread::Threads;

/// Reads a session of clerks, makes its calls, keeps them in the disk's journal, and writes their history.
///
/// The journal is started once the session is read, and each script has a thread of its own.
pub fn keep<S: Source, K: Sink, G: Gate + Sync, D: Disk + Drop + Send, R: Threads + Wait + Sync>(
    rt: &R,
    alloc: Global,
    source: &mut S,
    sink: &mut K,
    gate: &G,
    disk: D,
) -> KeptOutcome<D>
    ensures ends { EndsAsKept D.seen D.faults (change S.left S.faults source.old source.new)
        (change K.held K.faults sink.old sink.new) disk result }
    ensures later { (S.faults source.old ≤ S.faults source.new) × (K.faults sink.old ≤ K.faults sink.new) }
    ensures disk_later { D.faults disk ≤ D.faults result.disk }
    ensures time { GoesOn (D.seen disk) (D.seen result.disk) }
{
    match open_session(alloc, source, sink, Form::Clerks) {
        Ok(session) => keep_session(rt, alloc, sink, session, gate, disk),
        Err(outcome) => unstored(outcome, disk),
    }
}

// Starts the journal, and makes the calls of a session.
fn keep_session<K: Sink, G: Gate + Sync, D: Disk + Drop + Send, R: Threads + Wait + Sync>(
    rt: &R,
    alloc: Global,
    sink: &mut K,
    session: Session,
    gate: &G,
    disk: D,
) -> KeptOutcome<D>
    requires read { WasRead F.Clerks session }
    ensures keeps { Keeps D.seen D.faults session (change K.held K.faults sink.old sink.new) disk result }
    ensures later { K.faults sink.old ≤ K.faults sink.new }
    ensures disk_later { D.faults disk ≤ D.faults result.disk }
    ensures time { GoesOn (D.seen disk) (D.seen result.disk) }
{
    match Journal::start(alloc, disk) {
        Ok(Started { journal, texts }) => {
            if texts.is_empty() {
                keep_first(rt, alloc, sink, session, gate, journal)
            } else {
                let line = holds_line(alloc, texts.len());
                tell(alloc, sink, HOLDS_CALLS, line, 0, journal.end())
            }
        }
        Err(StartFault::Damaged { disk, number }) => {
            let line = damaged_line(alloc, number);
            tell(alloc, sink, DAMAGED, line, 0, disk)
        }
        Err(StartFault::Disk { disk }) => stopped(alloc, DISK_FAULT, 0, disk),
        Err(StartFault::Memory { disk }) => stopped(alloc, NO_MEMORY, 0, disk),
    }
}

// Makes the calls of a session, keeps them in a journal that holds none, and writes their history.
fn keep_first<K: Sink, G: Gate + Sync, D: Disk + Drop + Send, R: Threads + Wait + Sync>(
    rt: &R,
    alloc: Global,
    sink: &mut K,
    session: Session,
    gate: &G,
    journal: Journal<D>,
) -> KeptOutcome<D>
    requires read { WasRead F.Clerks session }
    requires works { journal.failed ≡ false }
    // Whatever disk the journal was started on, which held no call.
    ensures keeps { (disk : D) → OnlyStarted (D.seen disk) (D.seen journal.disk)
        → HeldTexts (D.seen disk) (D.seen journal.disk) (D.faults disk) (D.faults journal.disk) []
        → Keeps D.seen D.faults session (change K.held K.faults sink.old sink.new) disk result }
    ensures later { K.faults sink.old ≤ K.faults sink.new }
    ensures disk_later { D.faults journal.disk ≤ D.faults result.disk }
    ensures time { GoesOn (D.seen journal.disk) (D.seen result.disk) }
{
    let Session {
        names,
        rules,
        scripts,
        journal: _,
    } = session;
    rules.studied.recall();
    let engine = Engine::new(alloc, rules);
    keep_scripts(rt, alloc, sink, &names, engine, &scripts, gate, journal)
}

/// Makes the calls of scripts on an engine, after those that it took, keeps them in the journal, after the texts that
/// it holds, and writes the lines of those that are stored, with numbers that go on from there.
///
/// Each script has a thread of its own, and the disk comes back once all of them ended.
pub fn keep_scripts<K: Sink, G: Gate + Sync, D: Disk + Drop + Send, R: Threads + Wait + Sync>(
    rt: &R,
    alloc: Global,
    sink: &mut K,
    names: &Names,
    engine: Engine,
    scripts: &List<List<Arc<Command>>>,
    gate: &G,
    journal: Journal<D>,
) -> KeptOutcome<D>
    requires taken { AreScriptsTaken engine.rules scripts.now.items }
    requires few { length scripts.now.items ≤ most_clerks }
    requires storable { AreStorableScripts names.now scripts.now.items }
    requires works { journal.failed ≡ false }
    // Whatever history the engine took before.
    ensures keeps { OfTaken engine (λ p. KeepsScripts D.seen D.faults engine.rules names.now p
        (commands_in scripts.now.items) journal.disk result.disk (change K.held K.faults sink.old sink.new)
        result.status (history_of result.history.items) result.stored) }
    ensures later { K.faults sink.old ≤ K.faults sink.new }
    ensures disk_later { D.faults journal.disk ≤ D.faults result.disk }
    ensures time { GoesOn (D.seen journal.disk) (D.seen result.disk) }
{
    let earlier = engine.history().len() as u64;
    let KeptCalls {
        history,
        stored,
        disk,
    } = keep_calls(rt, alloc, engine, earlier, names, scripts, gate, journal);
    match history {
        Some(history) => write_kept(alloc, sink, names, earlier, history, stored, disk),
        None => stopped(alloc, NO_MEMORY, stored, disk),
    }
}

// Writes the lines of the calls that are stored, with numbers that go on from earlier ones.
fn write_kept<K: Sink, D>(
    alloc: Global,
    sink: &mut K,
    names: &Names,
    earlier: u64,
    history: List<Entry>,
    stored: u64,
    disk: D,
) -> KeptOutcome<D>
    requires within { stored ≤ length history.items }
    requires numbered { earlier + length history.items < 2 ^ 64 }
    ensures written { WritesAs (kept_status stored history)
        (lines_after names.now earlier (take stored history.items)) (change K.held K.faults sink.old sink.new)
        result.status }
    ensures history { result.history ≡ history }
    ensures stored { result.stored ≡ stored }
    ensures disk { result.disk ≡ disk }
    ensures later { K.faults sink.old ≤ K.faults sink.new }
{
    let answer = kept_status(stored, &history);
    let entries = &history.as_slice()[..stored as usize];
    let status = write_entries(alloc, sink, names, earlier, entries, answer);
    KeptOutcome {
        status,
        history,
        stored,
        disk,
    }
}

// The status of a run that stored so many calls of its history.
fn kept_status(stored: u64, history: &List<Entry>) -> u8
    ensures { result ≡ kept_status stored history.now }
{
    if stored == history.len() as u64 {
        DONE
    } else {
        DISK_FAULT
    }
}
