//! A source is read to its end, and its text as a session.
ghost use Rattle.std.specs.Prelude.{◌≡◌, ◌≤◌, IfErr, IfOk, OnOk, length};
ghost use Rattle.poets_session.specs.Causes.{IsFirstFault};
ghost use Rattle.poets_session.specs.Sessions.{HoldsText};
ghost use Rattle.poets_writing.specs.Writing.{change};
ghost use Rattle.poets_opening.specs.Limits.{longest};
ghost use Rattle.poets_opening.specs.Opening.{EndsWithout, Opens};
ghost use Rattle.poets_opening.specs.code.Opened.{RefusesEach};

use poets_io::{ReadFault, Sink, Source, read_up_to};
use poets_session::{Form, Session, SessionFault, fault_text, read};
use poets_value::LONGEST_TEXT;
use poets_writing::{
    NO_MEMORY, NO_SESSION, Outcome, READ_FAULT, TOO_LONG, without_history, write_line,
};
use std::alloc::Global;

/// The session of the form that the source gives. An `Err` is the outcome of a run that got none: the line of the text's
/// first fault was written to the sink, or that of a text which is too long, or the source failed, or memory was not
/// enough. The statuses are those of `docs/LANGUAGE.md`, "Words and statuses".
pub fn open_session<S: Source, K: Sink>(
    alloc: Global,
    source: &mut S,
    sink: &mut K,
    form: Form,
) -> Result<Session, Outcome>
    ensures session { IfOk result (Opens form (change S.left S.faults source.old source.new)) }
    ensures unwritten { OnOk result (sink.new ≡ sink.old) }
    ensures without { IfErr result (EndsWithout form (change S.left S.faults source.old source.new)
        (change K.held K.faults sink.old sink.new)) }
    ensures later { (S.faults source.old ≤ S.faults source.new) × (K.faults sink.old ≤ K.faults sink.new) }
{
    match read_up_to(alloc, source, LONGEST_TEXT) {
        Ok(text) => session_in(alloc, sink, text.as_slice(), form),
        Err(ReadFault::TooLong) => Err(write_line(
            alloc,
            sink,
            TOO_LONG,
            "refused: longer than 16777216 bytes\n",
        )),
        Err(ReadFault::Failed) => Err(without_history(alloc, READ_FAULT)),
        Err(ReadFault::Memory) => Err(without_history(alloc, NO_MEMORY)),
    }
}

// The session of the form that a text is, or the outcome of a run that got none.
fn session_in<K: Sink>(
    alloc: Global,
    sink: &mut K,
    text: &[u8],
    form: Form,
) -> Result<Session, Outcome>
    requires { length text.now ≤ longest }
    ensures session { IfOk result (HoldsText text.now form) }
    ensures unwritten { OnOk result (sink.new ≡ sink.old) }
    ensures refused { IfErr result (RefusesEach (λ given. given ≡ text.now) form
        (change K.held K.faults sink.old sink.new)) }
    ensures later { K.faults sink.old ≤ K.faults sink.new }
{
    match read(alloc, text, form) {
        Ok(session) => Ok(session),
        Err(fault) => Err(refuse(alloc, sink, form, &fault)),
    }
}

// Writes the line of a text's first fault.
fn refuse<K: Sink>(alloc: Global, sink: &mut K, form: Form, fault: &SessionFault) -> Outcome
    ensures refused { RefusesEach (λ text. IsFirstFault text form fault.now) form
        (change K.held K.faults sink.old sink.new) result }
    ensures later { K.faults sink.old ≤ K.faults sink.new }
{
    match fault_text(alloc, fault) {
        Ok(line) => write_line(alloc, sink, NO_SESSION, line.as_str()),
        Err(_) => without_history(alloc, NO_MEMORY),
    }
}
