//! The program's one call.
ghost use Rattle.std.specs.Prelude.{◌≡◌, ◌≢◌, ◌≤◌, ℕ, List, []};
ghost use Rattle.poets_top.specs.Explaining.{HasExplained};
ghost use Rattle.poets_top.specs.Exporting.{HasExported};
ghost use Rattle.poets_top.specs.Promises.{AreNoForm, AskTo, AskToShow, Demonstrates, EndsAsAsked, EndsAsDeserved};
ghost use Rattle.poets_top.specs.Promises.{IfDone};
ghost use Rattle.poets_top.specs.Replaying.{HasReplayed};
ghost use Rattle.poets_top.specs.Running.{HasRun};
ghost use Rattle.poets_top.specs.Runs.{IsStatusOrMemory};
ghost use Rattle.poets_top.specs.Tasks.{form_of};
ghost use Rattle.poets_top.specs.code.Answering.{AnswersSession, EndsTask};
ghost use Rattle.poets_top.specs.code.Sessions.{WasRead};
ghost use Rattle.poets_words.specs.declared.mode.Task.TheVariants as T;
ghost use Rattle.poets_writing.specs.Writing.{change};

use crate::checking::check;
use crate::demonstrating::demonstrate;
use crate::explaining::explain;
use crate::exporting::export;
use crate::replaying::replay;
use crate::running::run_scripts;
use crate::tasks::form_of;
use poets_clerks::Gate;
use poets_io::{Sink, Source};
use poets_opening::open_session;
use poets_session::Session;
use poets_words::{Mode, Task, mode_of};
use poets_writing::{NO_MEMORY, Outcome, USAGE, without_history};
use std::alloc::Global;
use std::sync::Wait;
use std::thread::Threads;

/// Does all that the program does: reads a session, makes its calls, and writes the history, one line by each call of
/// `write` where the sink takes whole pieces, or what explains one of its contracts, or a JSON document; or reads a book, and writes what
/// it declares; or reads nothing, and shows a demonstration. The clerks of a session or a demonstration work at once,
/// each in a thread of its own where one can be started. The gate is told of the stages of their calls, and may hold
/// them back.
///
/// The words and the statuses are those of `docs/LANGUAGE.md`, "Words and statuses". A source that does not tell
/// its bytes, as standard input does not, may have given any: the clauses then say only that there are some bytes for
/// which the run is right.
pub fn run<S: Source, K: Sink, G: Gate + Sync, R: Threads + Wait + Sync>(
    rt: &R,
    alloc: Global,
    words: &[String],
    source: &mut S,
    sink: &mut K,
    gate: &G,
) -> Outcome
    ensures usage { result.status ≡ USAGE → AreNoForm words.now }
    ensures no_form { AreNoForm words.now → IsStatusOrMemory USAGE result.status
        × source.new ≡ source.old × sink.new ≡ sink.old × result.history.items ≡ [] }
    ensures ends { EndsAsAsked words.now (change S.left S.faults source.old source.new)
        (change K.held K.faults sink.old sink.new) result }
    ensures has_run { AskTo words.now T.Run →
        IfDone result (HasRun (S.left source.old) (S.left source.new) (K.held sink.old) (K.held sink.new)) }
    ensures has_replayed { AskTo words.now T.Replay →
        IfDone result (HasReplayed (S.left source.old) (S.left source.new) (K.held sink.old) (K.held sink.new)) }
    ensures has_explained { (name : List ℕ) → AskTo words.now (T.Explain name) →
        IfDone result (HasExplained name (S.left source.old) (S.left source.new) (K.held sink.old) (K.held sink.new)) }
    ensures has_exported { AskTo words.now T.Export →
        IfDone result (HasExported (S.left source.old) (S.left source.new) (K.held sink.old) (K.held sink.new)) }
    ensures has_demonstrated { (sales : ℕ) → AskToShow words.now sales →
        Demonstrates sales source.old source.new (K.held sink.old) (K.held sink.new) result }
    ensures status { EndsAsDeserved words.now (change S.left S.faults source.old source.new)
        (change K.held K.faults sink.old sink.new) result }
    ensures later { (S.faults source.old ≤ S.faults source.new) × (K.faults sink.old ≤ K.faults sink.new) }
{
    let Ok(found) = mode_of(alloc, words) else {
        return without_history(alloc, NO_MEMORY);
    };
    let Some(mode) = found else {
        return without_history(alloc, USAGE);
    };
    match mode {
        Mode::Read(task) => read_and_answer(rt, alloc, &task, source, sink, gate),
        Mode::Demo(sales) => demonstrate(rt, alloc, sink, sales, gate),
    }
}

// Reads the source, and answers what it gave.
fn read_and_answer<S: Source, K: Sink, G: Gate + Sync, R: Threads + Wait + Sync>(
    rt: &R,
    alloc: Global,
    task: &Task,
    source: &mut S,
    sink: &mut K,
    gate: &G,
) -> Outcome
    ensures status { result.status ≢ USAGE }
    ensures ends { EndsTask task.now (change S.left S.faults source.old source.new)
        (change K.held K.faults sink.old sink.new) result }
{
    match open_session(alloc, source, sink, form_of(task)) {
        Ok(session) => answer(rt, alloc, task, session, sink, gate),
        Err(outcome) => outcome,
    }
}

// Answers a session of the task's form.
fn answer<K: Sink, G: Gate + Sync, R: Threads + Wait + Sync>(
    rt: &R,
    alloc: Global,
    task: &Task,
    session: Session,
    sink: &mut K,
    gate: &G,
) -> Outcome
    requires { WasRead (form_of task.now) session }
    ensures { AnswersSession task.now session (change K.held K.faults sink.old sink.new) result }
{
    match task {
        Task::Check => check(alloc, sink, &session),
        Task::Run => run_scripts(rt, alloc, sink, session, gate),
        Task::Replay => replay(rt, alloc, sink, session),
        Task::Explain(name) => explain(rt, alloc, sink, session, name),
        Task::Export => export(rt, alloc, sink, session),
    }
}
