//! What is written: the history's lines, each by one call where the sink takes whole pieces, and the lines of refusals.
ghost use Rattle.std.specs.Prelude.{◌≡◌, ◌+◌, ◌^◌, ◌≤◌, ◌<◌, [], length, OnOk, OnErr, IsErrOf};
ghost use Rattle.std.specs.Io.KnownBytes.{Appends};
ghost use Rattle.poets_io.specs.Causes.{Rose};
ghost use Rattle.poets_io.specs.Streams.{AppendsPart};
ghost use Rattle.poets_command.specs.Calls.{history_of};
ghost use Rattle.poets_writing.specs.Outcomes.{WritesHistory, WritesLine, lines_of, lines_after};
ghost use Rattle.poets_writing.specs.Writing.{change};
ghost use Rattle.poets_writing.specs.declared.writing.WriteFault.TheVariants as F;

use crate::outcome::{DONE, NO_MEMORY, Outcome, WRITE_FAULT, without_history};
use poets_command::Entry;
use poets_io::{Failed, Sink, write_all};
use poets_lex::Names;
use poets_print::line_text;
use poets_value::{List, Memory};
use std::alloc::Global;
use thiserror::Error;

/// Why a text was not written whole.
#[derive(Debug, Clone, Copy, PartialEq, Eq, Error)]
pub enum WriteFault {
    /// The sink failed.
    #[error("the sink failed")]
    Failed,

    /// Out of memory.
    #[error("no memory is left")]
    Memory,
}

impl From<Failed> for WriteFault {
    ghost use Rattle.std.specs.Prelude.{◌≡◌};
    ghost use Rattle.poets_writing.specs.declared.writing.WriteFault.{WriteFault};

    ghost from_gives = { λ _ e. e ≡ WriteFault.Failed };

    fn from(_: Failed) -> WriteFault {
        WriteFault::Failed
    }
}

impl From<Memory> for WriteFault {
    ghost use Rattle.std.specs.Prelude.{◌≡◌};
    ghost use Rattle.poets_writing.specs.declared.writing.WriteFault.{WriteFault};

    ghost from_gives = { λ _ e. e ≡ WriteFault.Memory };

    fn from(_: Memory) -> WriteFault {
        WriteFault::Memory
    }
}

/// Writes the lines of the entries, numbered from 1.
pub fn write_history<K: Sink>(
    alloc: Global,
    sink: &mut K,
    names: &Names,
    entries: &[Entry],
) -> Result<(), WriteFault>
    ensures ok { OnOk result (Appends (K.held sink.old) (K.held sink.new) (lines_of names.now entries.now)) }
    ensures stopped { OnErr result (AppendsPart (K.held sink.old) (K.held sink.new) (lines_of names.now entries.now)) }
    ensures later { K.faults sink.old ≤ K.faults sink.new }
    ensures kept { ¬ (IsErrOf result F.Failed) → K.faults sink.new ≡ K.faults sink.old }
    ensures failed { IsErrOf result F.Failed → Rose (K.faults sink.old) (K.faults sink.new) }
{
    write_lines(alloc, sink, names, 0, entries)
}

/// Writes the lines of entries that come after so many earlier ones, with numbers that go on from those.
pub fn write_lines<K: Sink>(
    alloc: Global,
    sink: &mut K,
    names: &Names,
    earlier: u64,
    entries: &[Entry],
) -> Result<(), WriteFault>
    requires numbered { earlier + length entries.now < 2 ^ 64 }
    ensures ok { OnOk result (Appends (K.held sink.old) (K.held sink.new) (lines_after names.now earlier entries.now)) }
    ensures stopped { OnErr result
        (AppendsPart (K.held sink.old) (K.held sink.new) (lines_after names.now earlier entries.now)) }
    ensures later { K.faults sink.old ≤ K.faults sink.new }
    ensures kept { ¬ (IsErrOf result F.Failed) → K.faults sink.new ≡ K.faults sink.old }
    ensures failed { IsErrOf result F.Failed → Rose (K.faults sink.old) (K.faults sink.new) }
{
    for (place, entry) in entries.iter().enumerate() {
        let line = line_text(alloc, names, earlier + place as u64 + 1, entry)?;
        write_all(sink, line.as_bytes())?;
    }
    Ok(())
}

/// Writes the history, and hands it out.
pub fn write<K: Sink>(alloc: Global, sink: &mut K, names: &Names, history: List<Entry>) -> Outcome
    ensures history { result.history ≡ history }
    ensures lines { WritesHistory names.now (history_of history.items) (change K.held K.faults sink.old sink.new)
        result }
{
    match write_history(alloc, sink, names, history.as_slice()) {
        Ok(()) => Outcome {
            status: DONE,
            history,
        },
        Err(WriteFault::Failed) => Outcome {
            status: WRITE_FAULT,
            history,
        },
        Err(WriteFault::Memory) => Outcome {
            status: NO_MEMORY,
            history,
        },
    }
}

/// Writes a line that is not part of a history, and returns the status.
pub fn write_line<K: Sink>(alloc: Global, sink: &mut K, status: u8, line: &str) -> Outcome
    ensures history { result.history.items ≡ [] }
    ensures line { WritesLine line.now (change K.held K.faults sink.old sink.new) status result }
{
    write_outcome(sink, without_history(alloc, status), line)
}

/// Writes the line of an outcome, and hands the outcome out.
pub fn write_outcome<K: Sink>(sink: &mut K, outcome: Outcome, line: &str) -> Outcome
    ensures history { result.history ≡ outcome.history }
    ensures line { WritesLine line.now (change K.held K.faults sink.old sink.new) outcome.status result }
{
    match write_all(sink, line.as_bytes()) {
        Ok(()) => outcome,
        Err(_) => Outcome {
            status: WRITE_FAULT,
            history: outcome.history,
        },
    }
}
