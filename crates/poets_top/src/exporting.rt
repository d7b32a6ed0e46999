//! The word `export`: the calls of a journal are made, and the book and their history are written as a JSON document.
ghost use Rattle.std.specs.Prelude.{IfOk, string_bytes};
ghost use Rattle.poets_session.specs.declared.form.Form.TheVariants as F;
ghost use Rattle.poets_writing.specs.Writing.{change};
ghost use Rattle.poets_top.specs.code.Answering.{AnswersSession};
ghost use Rattle.poets_top.specs.code.Exported.{ExportsAfter};
ghost use Rattle.poets_top.specs.code.Sessions.{WasRead};
ghost use Rattle.poets_words.specs.declared.mode.Task.TheVariants as T;

use poets_command::Entry;
use poets_engine::Engine;
use poets_io::Sink;
use poets_json::document_text;
use poets_lex::Names;
use poets_making::make_calls;
use poets_session::Session;
use poets_value::{List, Memory};
use poets_writing::{DONE, NO_MEMORY, Outcome, without_history, write_outcome};
use std::alloc::Global;
use std::thread::Threads;

/// Makes the calls of a journal, and writes the document of its book and their history.
pub(crate) fn export<K: Sink, R: Threads + Sync>(
    rt: &R,
    alloc: Global,
    sink: &mut K,
    session: Session,
) -> Outcome
    requires { WasRead F.Journal session }
    ensures { AnswersSession T.Export session (change K.held K.faults sink.old sink.new) result }
{
    let Session {
        names,
        rules,
        scripts: _,
        journal,
    } = session;
    let Ok((engine, history)) = make_calls(rt, alloc, rules, journal.as_slice()) else {
        return without_history(alloc, NO_MEMORY);
    };
    match document_line(alloc, &names, &engine, &history) {
        Ok(line) => {
            let outcome = Outcome {
                status: DONE,
                history,
            };
            write_outcome(sink, outcome, line.as_str())
        }
        Err(_) => without_history(alloc, NO_MEMORY),
    }
}

// The document of the engine's book and of its history, and a line feed.
fn document_line(
    alloc: Global,
    names: &Names,
    engine: &Engine,
    history: &List<Entry>,
) -> Result<String, Memory>
    ensures { IfOk result (λ line. ExportsAfter engine.now names.now history.now (string_bytes line)) }
{
    let book = engine.studied().book();
    // The map's names rise.
    let _entries = book.decls.names.iter();
    let mut line = document_text(alloc, names, book, engine.reports(), history)?;
    line.push_str("\n")?;
    Ok(line)
}
