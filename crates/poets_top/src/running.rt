//! The word `run`: the clerks' scripts are made.
ghost use Rattle.poets_session.specs.declared.form.Form.TheVariants as F;
ghost use Rattle.poets_writing.specs.Writing.{change};
ghost use Rattle.poets_top.specs.code.Answering.{AnswersSession};
ghost use Rattle.poets_top.specs.code.Sessions.{WasRead};
ghost use Rattle.poets_words.specs.declared.mode.Task.TheVariants as T;

use poets_clerks::Gate;
use poets_io::Sink;
use poets_making::make_scripts;
use poets_session::Session;
use poets_writing::{NO_MEMORY, Outcome, without_history, write};
use std::alloc::Global;
use std::sync::Wait;
use std::thread::Threads;

/// Makes the calls of the clerks' scripts, all at once, and writes their history.
pub(crate) fn run_scripts<K: Sink, G: Gate + Sync, R: Threads + Wait + Sync>(
    rt: &R,
    alloc: Global,
    sink: &mut K,
    session: Session,
    gate: &G,
) -> Outcome
    requires { WasRead F.Clerks session }
    ensures { AnswersSession T.Run session (change K.held K.faults sink.old sink.new) result }
{
    let Session {
        names,
        rules,
        scripts,
        journal: _,
    } = session;
    match make_scripts(rt, alloc, rules, &scripts, gate) {
        Ok(history) => write(alloc, sink, &names, history),
        Err(_) => without_history(alloc, NO_MEMORY),
    }
}
