//! The word `recover`: the calls that a journal holds are made.
ghost use Rattle.std.specs.Prelude.{◌≡◌, ◌≤◌};
ghost use Rattle.poets_disk.specs.Disks.{GoesOn};
ghost use Rattle.poets_journal.specs.Journals.{texts_of};
ghost use Rattle.poets_session.specs.declared.form.Form.TheVariants as F;
ghost use Rattle.poets_writing.specs.Writing.{change};
ghost use Rattle.poets_keeping.specs.Journals.{OnlyStarted};
ghost use Rattle.poets_keeping.specs.Promises.{EndsAsRecovered};
ghost use Rattle.poets_keeping.specs.code.Ended.{RecoversFrom, Recovers, WasRead};

use crate::journal::damaged_line;
use crate::outcome::{DAMAGED, DISK_FAULT, KeptOutcome, stopped, unstored};
use crate::writing::{tell, write_entries};
use poets_disk::Disk;
use poets_io::{Sink, Source};
use poets_journal::{Journal, StartFault, Started};
use poets_opening::open_session;
use poets_recover::{RecoverFault, Recovered, recover};
use poets_session::{Form, Session};
use poets_value::List;
use poets_writing::{DONE, NO_MEMORY};
use std::alloc::Global;
use std::thread::Threads;

/// Reads a book, makes the calls that the disk's journal holds, and writes their history.
///
/// The journal is started once the book is read. The calls are made one after the other.
pub fn recover_journal<S: Source, K: Sink, D: Disk + Drop, R: Threads + Sync>(
    rt: &R,
    alloc: Global,
    source: &mut S,
    sink: &mut K,
    disk: D,
) -> KeptOutcome<D>
    ensures ends { EndsAsRecovered D.seen D.faults (change S.left S.faults source.old source.new)
        (change K.held K.faults sink.old sink.new) disk result }
    ensures later { (S.faults source.old ≤ S.faults source.new) × (K.faults sink.old ≤ K.faults sink.new) }
    ensures disk_later { D.faults disk ≤ D.faults result.disk }
    ensures time { GoesOn (D.seen disk) (D.seen result.disk) }
{
    match open_session(alloc, source, sink, Form::Book) {
        Ok(session) => recover_session(rt, alloc, sink, session, disk),
        Err(outcome) => unstored(outcome, disk),
    }
}

// Starts the journal, and makes its calls under the session's book.
fn recover_session<K: Sink, D: Disk + Drop, R: Threads + Sync>(
    rt: &R,
    alloc: Global,
    sink: &mut K,
    session: Session,
    disk: D,
) -> KeptOutcome<D>
    requires { WasRead F.Book session }
    ensures recovers { Recovers D.seen D.faults session (change K.held K.faults sink.old sink.new) disk result }
    ensures started { OnlyStarted (D.seen disk) (D.seen result.disk) }
    ensures later { K.faults sink.old ≤ K.faults sink.new }
    ensures disk_later { D.faults disk ≤ D.faults result.disk }
{
    match Journal::start(alloc, disk) {
        Ok(Started { journal, texts }) => {
            recover_texts(rt, alloc, sink, session, &texts, journal.end())
        }
        Err(StartFault::Damaged { disk, number }) => {
            let line = damaged_line(alloc, number);
            tell(alloc, sink, DAMAGED, line, 0, disk)
        }
        Err(StartFault::Disk { disk }) => stopped(alloc, DISK_FAULT, 0, disk),
        Err(StartFault::Memory { disk }) => stopped(alloc, NO_MEMORY, 0, disk),
    }
}

// Makes the calls that the texts are, and writes their history.
fn recover_texts<K: Sink, D, R: Threads + Sync>(
    rt: &R,
    alloc: Global,
    sink: &mut K,
    session: Session,
    texts: &List<List<u8>>,
    disk: D,
) -> KeptOutcome<D>
    requires { WasRead F.Book session }
    ensures recovers { RecoversFrom session (texts_of texts.now) (change K.held K.faults sink.old sink.new) result }
    ensures disk { result.disk ≡ disk }
    ensures later { K.faults sink.old ≤ K.faults sink.new }
{
    let stored = texts.len() as u64;
    let Session { names, rules, .. } = session;
    match recover(rt, alloc, names, rules, texts) {
        Ok(Recovered { names, history, .. }) => {
            let status = write_entries(alloc, sink, &names, 0, history.as_slice(), DONE);
            KeptOutcome {
                status,
                history,
                stored,
                disk,
            }
        }
        Err(RecoverFault::Text { number }) => {
            let line = damaged_line(alloc, number);
            tell(alloc, sink, DAMAGED, line, stored, disk)
        }
        Err(RecoverFault::Memory) => stopped(alloc, NO_MEMORY, stored, disk),
    }
}
