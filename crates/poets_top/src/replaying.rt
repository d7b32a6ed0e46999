//! The word `replay`: the calls of a journal are made.
ghost use Rattle.poets_session.specs.declared.form.Form.TheVariants as F;
ghost use Rattle.poets_writing.specs.Writing.{change};
ghost use Rattle.poets_top.specs.code.Answering.{AnswersSession};
ghost use Rattle.poets_top.specs.code.Sessions.{WasRead};
ghost use Rattle.poets_words.specs.declared.mode.Task.TheVariants as T;

use poets_io::Sink;
use poets_making::make_calls;
use poets_session::Session;
use poets_writing::{NO_MEMORY, Outcome, without_history, write};
use std::alloc::Global;
use std::thread::Threads;

/// Makes the calls of a journal, and writes their history.
pub(crate) fn replay<K: Sink, R: Threads + Sync>(
    rt: &R,
    alloc: Global,
    sink: &mut K,
    session: Session,
) -> Outcome
    requires { WasRead F.Journal session }
    ensures { AnswersSession T.Replay session (change K.held K.faults sink.old sink.new) result }
{
    let Session {
        names,
        rules,
        scripts: _,
        journal,
    } = session;
    match make_calls(rt, alloc, rules, journal.as_slice()) {
        Ok((_, history)) => write(alloc, sink, &names, history),
        Err(_) => without_history(alloc, NO_MEMORY),
    }
}
