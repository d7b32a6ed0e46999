//! What a run with a disk writes.
ghost use Rattle.std.specs.Prelude.{◌≡◌, ◌+◌, ◌^◌, ◌≤◌, ◌<◌, [], length, IfOk, OnErr, string_bytes};
ghost use Rattle.poets_writing.specs.Outcomes.{lines_after};
ghost use Rattle.poets_writing.specs.Writing.{change};
ghost use Rattle.poets_keeping.specs.Writing.{WritesAs};

use crate::outcome::{KeptOutcome, stopped};
use poets_command::Entry;
use poets_io::Sink;
use poets_lex::Names;
use poets_value::Memory;
use poets_writing::{NO_MEMORY, WRITE_FAULT, WriteFault, write_line, write_lines};
use std::alloc::Global;

/// Writes the lines of entries that come after so many earlier ones, and returns the status, or that of what stopped
/// it.
pub fn write_entries<K: Sink>(
    alloc: Global,
    sink: &mut K,
    names: &Names,
    earlier: u64,
    entries: &[Entry],
    status: u8,
) -> u8
    requires numbered { earlier + length entries.now < 2 ^ 64 }
    ensures written { WritesAs status (lines_after names.now earlier entries.now)
        (change K.held K.faults sink.old sink.new) result }
    ensures later { K.faults sink.old ≤ K.faults sink.new }
{
    match write_lines(alloc, sink, names, earlier, entries) {
        Ok(()) => status,
        Err(WriteFault::Failed) => WRITE_FAULT,
        Err(WriteFault::Memory) => NO_MEMORY,
    }
}

/// Writes a line, if memory was enough for it, and ends with the status.
pub fn tell<K: Sink, D>(
    alloc: Global,
    sink: &mut K,
    status: u8,
    line: Result<String, Memory>,
    stored: u64,
    disk: D,
) -> KeptOutcome<D>
    ensures told { IfOk line (λ text. WritesAs status (string_bytes text) (change K.held K.faults sink.old sink.new)
        result.status) }
    ensures untold { OnErr line ((result.status ≡ NO_MEMORY) × (sink.new ≡ sink.old)) }
    ensures history { result.history.items ≡ [] }
    ensures stored { result.stored ≡ stored }
    ensures disk { result.disk ≡ disk }
    ensures later { K.faults sink.old ≤ K.faults sink.new }
{
    let Ok(line) = line else {
        return stopped(alloc, NO_MEMORY, stored, disk);
    };
    let outcome = write_line(alloc, sink, status, line.as_str());
    KeptOutcome {
        status: outcome.status,
        history: outcome.history,
        stored,
        disk,
    }
}
