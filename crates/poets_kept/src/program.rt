//! The program's one call with a disk.
ghost use Rattle.std.specs.Prelude.{◌≡◌, ◌≤◌, ℕ, List, []};
ghost use Rattle.poets_top.specs.Explaining.{HasExplained};
ghost use Rattle.poets_top.specs.Exporting.{HasExported};
ghost use Rattle.poets_top.specs.Promises.{AskTo, AskToShow, Demonstrates, EndsAsAsked, EndsAsDeserved, IfDone};
ghost use Rattle.poets_top.specs.Replaying.{HasReplayed};
ghost use Rattle.poets_top.specs.Running.{HasRun};
ghost use Rattle.poets_top.specs.Runs.{IsStatusOrMemory};
ghost use Rattle.poets_words.specs.declared.mode.Task.TheVariants as T;
ghost use Rattle.poets_writing.specs.Writing.{change};
ghost use Rattle.poets_disk.specs.Disks.{GoesOn};
ghost use Rattle.poets_keeping.specs.Keeping.{HasKept};
ghost use Rattle.poets_keeping.specs.Promises.{EndsAsKept, EndsAsRecovered};
ghost use Rattle.poets_keeping.specs.Recovering.{HasRecovered};
ghost use Rattle.poets_resuming.specs.Promises.{EndsAsResumed};
ghost use Rattle.poets_resuming.specs.Resuming.{HasResumed};
ghost use Rattle.poets_kept.specs.Promises.{AreNoKeptForm, DeservesKeeping, DeservesRecovering, DeservesResuming};
ghost use Rattle.poets_kept.specs.Promises.{EndsDeserved, IfKept, outcome_of};
ghost use Rattle.poets_kept.specs.Words.{AskForJournal, AskToKeep, AskToRecover, AskToResume};

use crate::words::{JournalTask, journal_task};
use poets_clerks::Gate;
use poets_disk::Disk;
use poets_io::{Sink, Source};
use poets_journal::laws::texts_of_a_file;
use poets_keeping::{KeptOutcome, keep, recover_journal, unstored};
use poets_resuming::resume;
use poets_top::run;
use poets_writing::{DONE, USAGE};
use std::alloc::Global;
use std::sync::Wait;
use std::thread::Threads;

/// Does all that `run` does, and with the words `keep`, `recover` and `resume` what needs a disk. `keep` runs a session
/// of clerks and puts each call into the journal on the disk. Over a disk that held no call, an image at any moment of
/// the run holds the first calls of a right history; at its end it holds the stored ones, and at most one more; only
/// the lines of the stored ones are written. `recover` makes the calls of such a journal under a book, and writes their
/// history. `resume` goes on after them with a session of clerks, as `keep` would after none; its history, its lines
/// and its stored calls are those of the session alone.
///
/// Other words do not touch the disk. The words and the statuses are those of `docs/LANGUAGE.md`, "Words and statuses";
/// `docs/DEFINITIONS.md`, "Disks and journals", says what is required of a disk. Of a disk that does not tell its
/// bytes, as a file of the operating system does not, the clauses say nothing but what its count of faults tells, and,
/// with the statuses 8 and 9 and with `recover` and `resume`, that there are some texts for which the run is right.
pub fn run_kept<
    S: Source,
    K: Sink,
    G: Gate + Sync,
    D: Disk + Drop + Send,
    R: Threads + Wait + Sync,
>(
    rt: &R,
    alloc: Global,
    words: &[String],
    source: &mut S,
    sink: &mut K,
    gate: &G,
    disk: D,
) -> KeptOutcome<D>
    ensures usage { result.status ≡ USAGE → AreNoKeptForm words.now }
    ensures no_form { AreNoKeptForm words.now → IsStatusOrMemory USAGE result.status
        × source.new ≡ source.old × sink.new ≡ sink.old × result.history.items ≡ [] }
    ensures ends { EndsAsAsked words.now (change S.left S.faults source.old source.new)
        (change K.held K.faults sink.old sink.new) (outcome_of result) }
    ensures has_run { AskTo words.now T.Run → IfDone (outcome_of result)
        (HasRun (S.left source.old) (S.left source.new) (K.held sink.old) (K.held sink.new)) }
    ensures has_replayed { AskTo words.now T.Replay → IfDone (outcome_of result)
        (HasReplayed (S.left source.old) (S.left source.new) (K.held sink.old) (K.held sink.new)) }
    ensures has_explained { (name : List ℕ) → AskTo words.now (T.Explain name) → IfDone (outcome_of result)
        (HasExplained name (S.left source.old) (S.left source.new) (K.held sink.old) (K.held sink.new)) }
    ensures has_exported { AskTo words.now T.Export → IfDone (outcome_of result)
        (HasExported (S.left source.old) (S.left source.new) (K.held sink.old) (K.held sink.new)) }
    ensures has_demonstrated { (sales : ℕ) → AskToShow words.now sales →
        Demonstrates sales source.old source.new (K.held sink.old) (K.held sink.new) (outcome_of result) }
    ensures status { EndsAsDeserved words.now (change S.left S.faults source.old source.new)
        (change K.held K.faults sink.old sink.new) (outcome_of result) }
    ensures later { (S.faults source.old ≤ S.faults source.new) × (K.faults sink.old ≤ K.faults sink.new)
        × (D.faults disk ≤ D.faults result.disk) }
    ensures time { GoesOn (D.seen disk) (D.seen result.disk) }
    // Other words do not touch the disk.
    ensures untouched { ¬ (AskForJournal words.now) → (result.disk ≡ disk) × (result.stored ≡ 0) }
    ensures keeps { AskToKeep words.now → EndsAsKept D.seen D.faults (change S.left S.faults source.old source.new)
        (change K.held K.faults sink.old sink.new) disk result }
    ensures has_kept { AskToKeep words.now → IfKept result
        (HasKept (S.left source.old) (S.left source.new) (K.held sink.old) (K.held sink.new)
        (D.seen disk) (D.seen result.disk)) }
    ensures recovers { AskToRecover words.now →
        EndsAsRecovered D.seen D.faults (change S.left S.faults source.old source.new)
        (change K.held K.faults sink.old sink.new) disk result }
    ensures has_recovered { AskToRecover words.now → IfKept result
        (HasRecovered (S.left source.old) (S.left source.new) (K.held sink.old) (K.held sink.new) (D.seen disk)) }
    ensures resumes { AskToResume words.now →
        EndsAsResumed D.seen D.faults (change S.left S.faults source.old source.new)
        (change K.held K.faults sink.old sink.new) disk result }
    ensures has_resumed { AskToResume words.now → IfKept result
        (HasResumed (S.left source.old) (S.left source.new) (K.held sink.old) (K.held sink.new)
        (D.seen disk) (D.seen result.disk)) }
    ensures keep_status { AskToKeep words.now → EndsDeserved DeservesKeeping
        (change S.left S.faults source.old source.new) (change K.held K.faults sink.old sink.new)
        (D.seen disk) (D.faults disk) (D.faults result.disk) result.status }
    ensures recover_status { AskToRecover words.now → EndsDeserved DeservesRecovering
        (change S.left S.faults source.old source.new) (change K.held K.faults sink.old sink.new)
        (D.seen disk) (D.faults disk) (D.faults result.disk) result.status }
    ensures resume_status { AskToResume words.now → EndsDeserved DeservesResuming
        (change S.left S.faults source.old source.new) (change K.held K.faults sink.old sink.new)
        (D.seen disk) (D.faults disk) (D.faults result.disk) result.status }
{
    // A file holds one list of texts alone, and a damaged one holds none.
    texts_of_a_file();
    match journal_task(words) {
        Some(JournalTask::Keep) => keep(rt, alloc, source, sink, gate, disk),
        Some(JournalTask::Recover) => recover_journal(rt, alloc, source, sink, disk),
        Some(JournalTask::Resume) => resume(rt, alloc, source, sink, gate, disk),
        None => unstored(run(rt, alloc, words, source, sink, gate), disk),
    }
}
