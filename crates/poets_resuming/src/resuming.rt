//! The word `resume`: the calls that a journal holds are recovered, and clerks' scripts are made after them.
ghost use Rattle.std.specs.Prelude.{◌≡◌, ◌≤◌, false};
ghost use Rattle.poets_disk.specs.Disks.{GoesOn};
ghost use Rattle.poets_journal.specs.Journals.{texts_of};
ghost use Rattle.poets_session.specs.declared.form.Form.TheVariants as F;
ghost use Rattle.poets_writing.specs.Writing.{change};
ghost use Rattle.poets_resuming.specs.Promises.{EndsAsResumed};
ghost use Rattle.poets_keeping.specs.code.Ended.{WasRead};
ghost use Rattle.poets_resuming.specs.code.Resumed.{Resumes, ResumesFrom};

use poets_clerks::Gate;
use poets_disk::Disk;
use poets_io::{Sink, Source};
use poets_journal::{Journal, StartFault, Started};
use poets_keeping::{
    DAMAGED, DISK_FAULT, KeptOutcome, damaged_line, keep_scripts, stopped, tell, unstored,
};
use poets_opening::open_session;
use poets_recover::{RecoverFault, Recovered, recover};
use poets_session::{Form, Session};
use poets_value::List;
use poets_writing::NO_MEMORY;
use std::alloc::Global;
use std::sync::Wait;
use std::thread::Threads;

/// Reads a session of clerks, recovers the calls that the disk's journal holds, makes those of the session after them,
/// keeps these too, and writes their lines, with numbers that go on from there. A journal without calls is begun.
///
/// The history of the outcome is that of the session alone, and its stored calls are the session's.
pub fn resume<S: Source, K: Sink, G: Gate + Sync, D: Disk + Drop + Send, R: Threads + Wait + Sync>(
    rt: &R,
    alloc: Global,
    source: &mut S,
    sink: &mut K,
    gate: &G,
    disk: D,
) -> KeptOutcome<D>
    ensures ends { EndsAsResumed D.seen D.faults (change S.left S.faults source.old source.new)
        (change K.held K.faults sink.old sink.new) disk result }
    ensures later { (S.faults source.old ≤ S.faults source.new) × (K.faults sink.old ≤ K.faults sink.new) }
    ensures disk_later { D.faults disk ≤ D.faults result.disk }
    ensures time { GoesOn (D.seen disk) (D.seen result.disk) }
{
    match open_session(alloc, source, sink, Form::Clerks) {
        Ok(session) => resume_session(rt, alloc, sink, session, gate, disk),
        Err(outcome) => unstored(outcome, disk),
    }
}

// Starts the journal, and goes on with it.
fn resume_session<K: Sink, G: Gate + Sync, D: Disk + Drop + Send, R: Threads + Wait + Sync>(
    rt: &R,
    alloc: Global,
    sink: &mut K,
    session: Session,
    gate: &G,
    disk: D,
) -> KeptOutcome<D>
    requires read { WasRead F.Clerks session }
    ensures resumes { Resumes D.seen D.faults session (change K.held K.faults sink.old sink.new) disk result }
    ensures later { K.faults sink.old ≤ K.faults sink.new }
    ensures disk_later { D.faults disk ≤ D.faults result.disk }
    ensures time { GoesOn (D.seen disk) (D.seen result.disk) }
{
    match Journal::start(alloc, disk) {
        Ok(Started { journal, texts }) => {
            resume_texts(rt, alloc, sink, session, gate, journal, &texts)
        }
        Err(StartFault::Damaged { disk, number }) => {
            let line = damaged_line(alloc, number);
            tell(alloc, sink, DAMAGED, line, 0, disk)
        }
        Err(StartFault::Disk { disk }) => stopped(alloc, DISK_FAULT, 0, disk),
        Err(StartFault::Memory { disk }) => stopped(alloc, NO_MEMORY, 0, disk),
    }
}

// Recovers the calls that the texts of the journal are, and makes those of the session after them.
fn resume_texts<K: Sink, G: Gate + Sync, D: Disk + Drop + Send, R: Threads + Wait + Sync>(
    rt: &R,
    alloc: Global,
    sink: &mut K,
    session: Session,
    gate: &G,
    journal: Journal<D>,
    texts: &List<List<u8>>,
) -> KeptOutcome<D>
    requires read { WasRead F.Clerks session }
    requires works { journal.failed ≡ false }
    ensures resumes { ResumesFrom D.seen D.faults session (texts_of texts.now)
        (change K.held K.faults sink.old sink.new) journal.disk result }
    ensures later { K.faults sink.old ≤ K.faults sink.new }
    ensures disk_later { D.faults journal.disk ≤ D.faults result.disk }
    ensures time { GoesOn (D.seen journal.disk) (D.seen result.disk) }
{
    let Session {
        names,
        rules,
        scripts,
        journal: _,
    } = session;
    match recover(rt, alloc, names, rules, texts) {
        Ok(Recovered { names, engine, .. }) => {
            keep_scripts(rt, alloc, sink, &names, engine, &scripts, gate, journal)
        }
        Err(RecoverFault::Text { number }) => {
            let line = damaged_line(alloc, number);
            tell(alloc, sink, DAMAGED, line, 0, journal.end())
        }
        Err(RecoverFault::Memory) => stopped(alloc, NO_MEMORY, 0, journal.end()),
    }
}
