//! A piece written whole, and a source read to its end.
ghost use Rattle.std.specs.Prelude.{◌≡◌, ◌<◌, ◌≤◌, length, IfOk, IfSome, OnOk, OnErr, IsErrOf};
ghost use Rattle.std.specs.Io.KnownBytes.{Appends};
ghost use Rattle.poets_io.specs.Causes.{HasCause, Rose};
ghost use Rattle.poets_io.specs.Reading.{OnFailed, OnMemory, OnTooLong, GivesWhole, LosesPast};
ghost use Rattle.poets_io.specs.Streams.{AppendsPart, LosesFront};

use crate::{Failed, ReadFault, Sink, Source, append};
use poets_value::{List, Memory};
use std::alloc::Global;

/// The most bytes that are asked of a source at once.
pub const BLOCK: usize = 65_536;

/// Writes the whole piece, in as few calls as the sink allows, and in none where it is empty. It stops at the first fault.
#[tactic(auto, using(crate::proofs::Transfers::transfers))]
pub fn write_all<K: Sink>(sink: &mut K, piece: &[u8]) -> Result<(), Failed>
    ensures ok { OnOk result (Appends (K.held sink.old) (K.held sink.new) piece.now) }
    ensures err { OnErr result (AppendsPart (K.held sink.old) (K.held sink.new) piece.now) }
    ensures cause { HasCause (K.faults sink.old) (K.faults sink.new) result }
{
    let mut at = 0;
    while at < piece.len() {
        at += sink.write(&piece[at..])?;
    }
    Ok(())
}

/// Reads the source to its end, or until it fails or has given more than `limit` bytes. Each read but the last takes at
/// least one byte, so there are at most `limit + 1` reads.
#[tactic(auto, using(crate::proofs::Transfers::transfers))]
pub fn read_up_to<S: Source>(
    alloc: Global,
    source: &mut S,
    limit: usize,
) -> Result<List<u8>, ReadFault>
    ensures later { S.faults source.old ≤ S.faults source.new }
    ensures kept { ¬ (IsErrOf result ReadFault.Failed) → S.faults source.new ≡ S.faults source.old }
    ensures failed { OnFailed result (Rose (S.faults source.old) (S.faults source.new)) }
    ensures short { IfOk result (λ text. length text.items ≤ limit) }
    ensures whole { IfOk result (GivesWhole (S.left source.old) (S.left source.new)) }
    ensures longer { OnTooLong result (IfSome (S.left source.old) (λ xs. limit < length xs)) }
    ensures too_long { OnTooLong result (LosesPast limit BLOCK (S.left source.old) (S.left source.new)) }
    ensures stopped { OnFailed result (LosesFront 0 limit (S.left source.old) (S.left source.new)) }
    ensures memory { OnMemory result (LosesFront 0 limit (S.left source.old) (S.left source.new)) }
{
    let mut block = new_block(alloc)?;
    read_blocks(alloc, source, &mut block, limit)
}

// A buffer for reads.
fn new_block(alloc: Global) -> Result<Vec<u8>, Memory>
    ensures { IfOk result (λ block. length block.items ≡ BLOCK) }
{
    Ok(vec![in alloc; 0u8; BLOCK]?)
}

// The same, by blocks that are read into a buffer.
#[tactic(auto, using(crate::proofs::Transfers::transfers))]
fn read_blocks<S: Source>(
    alloc: Global,
    source: &mut S,
    block: &mut [u8],
    limit: usize,
) -> Result<List<u8>, ReadFault>
    requires { 0 < length block.old }
    ensures later { S.faults source.old ≤ S.faults source.new }
    ensures kept { ¬ (IsErrOf result ReadFault.Failed) → S.faults source.new ≡ S.faults source.old }
    ensures failed { OnFailed result (Rose (S.faults source.old) (S.faults source.new)) }
    ensures short { IfOk result (λ text. length text.items ≤ limit) }
    ensures whole { IfOk result (GivesWhole (S.left source.old) (S.left source.new)) }
    ensures too_long { OnTooLong result (LosesPast limit (length block.old) (S.left source.old) (S.left source.new)) }
    ensures stopped { OnFailed result (LosesFront 0 limit (S.left source.old) (S.left source.new)) }
    ensures memory { OnMemory result (LosesFront 0 limit (S.left source.old) (S.left source.new)) }
{
    let mut text = List::new(alloc);
    'reading: loop {
        let count = source.read(block)?;
        if count == 0 {
            return Ok(text);
        }
        if count > limit - text.len() {
            return Err(ReadFault::TooLong);
        }
        append(&mut text, &block[..count])?;
    }
}
