//! A journal is started: the texts that a disk holds are read, whatever a crash left of its file.
ghost use Rattle.std.specs.Prelude.{◌≡◌, ◌≢◌, ◌<◌, ◌≤◌, ◌+◌, false, [], ◌∷◌, true, drop, length, option_map};
ghost use Rattle.std.specs.Prelude.{IfOk, IfSome, OnOk, IsErrOf};
ghost use Rattle.poets_io.specs.Causes.{HasCause, Rose};
ghost use Rattle.poets_disk.specs.Disks.{Rests, GoesOn, During, IsSure, MayLeave, longest_file};
ghost use Rattle.poets_journal.specs.Texts.{HoldsTexts, IsClosed, IsDamaged, Texts};
ghost use Rattle.poets_journal.specs.Journals.{AllHold, texts_of};
ghost use Rattle.poets_journal.specs.code.Gates.{IsReady};
ghost use Rattle.poets_journal.specs.Starts.{StaysOrIsShort, with_gate};
ghost use Rattle.poets_journal.specs.code.Opens.{OnNumber, HasRead, IsOpened};

use crate::journal::Journal;
use crate::records::record;
use poets_disk::Disk;
use poets_io::{Failed, append, copied};
use poets_value::{List, Memory, push};
use std::alloc::Global;

/// The most bytes that are read at once.
const BLOCK: usize = 65_536;

/// A journal, and the texts that it held.
#[derive(Drop)]
pub struct Started<D: Disk> {
    pub journal: Journal<D>,
    pub texts: List<List<u8>>,
}

/// Why a journal was not started.
#[derive(Debug, PartialEq, Eq, Drop)]
pub enum StartFault<D> {
    /// The disk failed.
    Disk { disk: D },

    /// The record with this number, from 1, is not whole, or has no byte after it.
    Damaged { disk: D, number: u64 },

    /// Out of memory.
    Memory { disk: D },
}

// The texts that a file holds, and how many bytes stand ahead of its gate.
#[derive(Drop)]
struct Opened {
    texts: List<List<u8>>,
    gate: u64,
}

// Why a file was not opened.
#[derive(Clone, Copy)]
enum OpenFault {
    Disk,
    Damaged { number: u64 },
    Memory,
}

impl From<Failed> for OpenFault {
    ghost use Rattle.poets_journal.specs.declared.start.OpenFault.TheVariants as F;

    ghost from_gives = { λ _ e. e ≡ F.Disk };

    fn from(_: Failed) -> OpenFault {
        OpenFault::Disk
    }
}

impl From<Memory> for OpenFault {
    ghost use Rattle.poets_journal.specs.declared.start.OpenFault.TheVariants as F;

    ghost from_gives = { λ _ e. e ≡ F.Memory };

    fn from(_: Memory) -> OpenFault {
        OpenFault::Memory
    }
}

impl<D: Disk> Journal<D> {
    ghost use Rattle.poets_journal.specs.Starts.{disk_of, HasStartCause, OnDamaged};

    /// Starts the journal that a disk holds, whatever a crash left of it. A file of at most one byte becomes an empty
    /// journal. A damaged file stays as it is.
    pub fn start(alloc: Global, disk: D) -> Result<Started<D>, StartFault<D>>
        ensures time { GoesOn (D.seen disk) (D.seen (disk_of result)) }
        // An image of any moment of the call is one from its start, or has at most one byte.
        ensures during { During (D.seen disk) (D.seen (disk_of result))
            (StaysOrIsShort (D.seen disk) (D.seen (disk_of result))) }
        ensures works { IfOk result (λ s. s.journal.failed ≡ false) }
        ensures started { IfOk result (λ s. AllHold (D.seen s.journal.disk) (texts_of s.texts)) }
        ensures texts { IfOk result (λ s. IfSome (D.seen disk).bytes (λ file. HoldsTexts file (texts_of s.texts))) }
        ensures file { IfOk result (λ s. (D.seen s.journal.disk).bytes ≡ option_map with_gate (D.seen disk).bytes) }
        // Where it held a text, no image came to those from its start.
        ensures still { IfOk result (λ s. texts_of s.texts ≢ []
            → During (D.seen disk) (D.seen s.journal.disk) (MayLeave (D.seen disk))) }
        ensures damaged { OnDamaged result (λ number. IfSome (D.seen disk).bytes (λ file. IsDamaged file number)) }
        ensures nothing { OnDamaged result (λ number. IfSome (D.seen disk).bytes
            (λ file. (texts : Texts) → ¬ (HoldsTexts file texts))) }
        ensures kept { OnDamaged result (λ number. (D.seen (disk_of result)).bytes ≡ (D.seen disk).bytes) }
        ensures later { D.faults disk ≤ D.faults (disk_of result) }
        ensures cause { HasStartCause (D.faults disk) (D.faults (disk_of result)) result }
    {
        let mut disk = disk;
        match open(alloc, &mut disk) {
            Ok(Opened { texts, gate }) => Ok(Started {
                journal: Journal::opened(disk, gate),
                texts,
            }),
            Err(OpenFault::Disk) => Err(StartFault::Disk { disk }),
            Err(OpenFault::Damaged { number }) => Err(StartFault::Damaged { disk, number }),
            Err(OpenFault::Memory) => Err(StartFault::Memory { disk }),
        }
    }
}

// Opens the disk's file.
fn open<D: Disk>(alloc: Global, disk: &mut D) -> Result<Opened, OpenFault>
    ensures time { GoesOn (D.seen disk.old) (D.seen disk.new) }
    ensures during { During (D.seen disk.old) (D.seen disk.new)
        (StaysOrIsShort (D.seen disk.old) (D.seen disk.new)) }
    ensures ready { IfOk result (λ o. IsReady (D.seen disk.new) o.gate) }
    ensures all { IfOk result (λ o. AllHold (D.seen disk.new) (texts_of o.texts)) }
    ensures texts { IfOk result (λ o. IfSome (D.seen disk.old).bytes (λ file. HoldsTexts file (texts_of o.texts))) }
    ensures file { IfOk result (λ o. (D.seen disk.new).bytes ≡ option_map with_gate (D.seen disk.old).bytes) }
    ensures still { IfOk result (λ o. texts_of o.texts ≢ []
        → During (D.seen disk.old) (D.seen disk.new) (MayLeave (D.seen disk.old))) }
    ensures damaged { OnNumber result (λ number. IfSome (D.seen disk.old).bytes (λ file. IsDamaged file number)) }
    ensures kept { OnNumber result (λ number. (D.seen disk.new).bytes ≡ (D.seen disk.old).bytes) }
    ensures later { D.faults disk.old ≤ D.faults disk.new }
    ensures same { ¬ (IsErrOf result OpenFault.Disk) → D.faults disk.new ≡ D.faults disk.old }
    ensures cause { IsErrOf result OpenFault.Disk → Rose (D.faults disk.old) (D.faults disk.new) }
{
    let bytes = read_sure(alloc, disk)?;
    if bytes.len() > 1 {
        let opened = records(alloc, bytes.as_slice())?;
        return Ok(opened);
    }
    close_gate(disk)?;
    Ok(Opened {
        texts: List::new(alloc),
        gate: 0,
    })
}

// Syncs the disk, and reads its file.
fn read_sure<D: Disk>(alloc: Global, disk: &mut D) -> Result<List<u8>, OpenFault>
    ensures rests { Rests (D.seen disk.old) (D.seen disk.new) }
    ensures sure { OnOk result (IsSure (D.seen disk.new)) }
    ensures bytes { IfOk result (λ list. IfSome (D.seen disk.old).bytes (λ file. list.items ≡ file)) }
    ensures long { IfOk result (λ list. length list.items ≤ longest_file) }
    ensures plain { OnNumber result (λ number. ⊥) }
    ensures later { D.faults disk.old ≤ D.faults disk.new }
    ensures same { ¬ (IsErrOf result OpenFault.Disk) → D.faults disk.new ≡ D.faults disk.old }
    ensures cause { IsErrOf result OpenFault.Disk → Rose (D.faults disk.old) (D.faults disk.new) }
{
    disk.sync()?;
    let bytes = read_file(alloc, disk)?;
    Ok(bytes)
}

// Reads the disk's file. It asks the length once, and reads no further.
fn read_file<D: Disk>(alloc: Global, disk: &mut D) -> Result<List<u8>, OpenFault>
    ensures rests { Rests (D.seen disk.old) (D.seen disk.new) }
    ensures bytes { IfOk result (λ list. IfSome (D.seen disk.old).bytes (λ file. list.items ≡ file)) }
    ensures long { IfOk result (λ list. length list.items ≤ longest_file) }
    ensures plain { OnNumber result (λ number. ⊥) }
    ensures later { D.faults disk.old ≤ D.faults disk.new }
    ensures same { ¬ (IsErrOf result OpenFault.Disk) → D.faults disk.new ≡ D.faults disk.old }
    ensures cause { IsErrOf result OpenFault.Disk → Rose (D.faults disk.old) (D.faults disk.new) }
{
    let length = disk.length()?;
    let mut block = new_block(alloc)?;
    let bytes = read_blocks(alloc, disk, &mut block, length)?;
    Ok(bytes)
}

// Reads so many bytes of the disk's file by blocks, or fewer where it gives no more.
fn read_blocks<D: Disk>(
    alloc: Global,
    disk: &mut D,
    block: &mut [u8],
    long: u64,
) -> Result<List<u8>, OpenFault>
    requires room { 0 < length block.old }
    requires long { IfSome (D.seen disk.old).bytes (λ file. long ≡ length file) }
    ensures rests { Rests (D.seen disk.old) (D.seen disk.new) }
    ensures bytes { IfOk result (λ list. IfSome (D.seen disk.old).bytes (λ file. list.items ≡ file)) }
    ensures long { IfOk result (λ list. length list.items ≤ long) }
    ensures plain { OnNumber result (λ number. ⊥) }
    ensures later { D.faults disk.old ≤ D.faults disk.new }
    ensures same { ¬ (IsErrOf result OpenFault.Disk) → D.faults disk.new ≡ D.faults disk.old }
    ensures cause { IsErrOf result OpenFault.Disk → Rose (D.faults disk.old) (D.faults disk.new) }
{
    let mut bytes = List::new(alloc);
    let mut more = true;
    'reading: while more {
        more = read_part(disk, &mut bytes, block, long)?;
    }
    Ok(bytes)
}

// Reads some more bytes of the first so many of the file behind those that were read, where these are not all, and says
// whether there were any.
fn read_part<D: Disk>(
    disk: &mut D,
    bytes: &mut List<u8>,
    block: &mut [u8],
    long: u64,
) -> Result<bool, OpenFault>
    requires room { 0 < length block.old }
    requires within { length bytes.old.items ≤ long }
    requires long { IfSome (D.seen disk.old).bytes (λ file. long ≡ length file) }
    ensures rests { Rests (D.seen disk.old) (D.seen disk.new) }
    ensures more { IfOk result (λ more. IfSome (D.seen disk.old).bytes (HasRead more bytes.old.items bytes.new.items)) }
    ensures grows { IfOk result (λ more. more ≡ true → length bytes.old.items < length bytes.new.items) }
    ensures fits { OnOk result (length bytes.new.items ≤ long) }
    ensures plain { OnNumber result (λ number. ⊥) }
    ensures later { D.faults disk.old ≤ D.faults disk.new }
    ensures same { ¬ (IsErrOf result OpenFault.Disk) → D.faults disk.new ≡ D.faults disk.old }
    ensures cause { IsErrOf result OpenFault.Disk → Rose (D.faults disk.old) (D.faults disk.new) }
{
    let most = long - bytes.len() as u64;
    if most == 0 {
        return Ok(false);
    }
    let left = most.min(block.len() as u64) as usize;
    let more = read_more(disk, bytes, &mut block[..left])?;
    Ok(more)
}

// A buffer for reads.
fn new_block(alloc: Global) -> Result<Vec<u8>, Memory>
    ensures { IfOk result (λ block. length block.items ≡ BLOCK) }
{
    Ok(vec![in alloc; 0u8; BLOCK]?)
}

// Reads some more bytes of the file behind those that were read, as many as the buffer holds at most, and says whether
// there were any.
fn read_more<D: Disk>(disk: &mut D, bytes: &mut List<u8>, buf: &mut [u8]) -> Result<bool, OpenFault>
    requires { 0 < length buf.old }
    ensures rests { Rests (D.seen disk.old) (D.seen disk.new) }
    ensures more { IfOk result (λ more. IfSome (D.seen disk.old).bytes (HasRead more bytes.old.items bytes.new.items)) }
    ensures grows { IfOk result (λ more. more ≡ true → length bytes.old.items < length bytes.new.items) }
    ensures fits { OnOk result (length bytes.new.items ≤ length bytes.old.items + length buf.old) }
    ensures plain { OnNumber result (λ number. ⊥) }
    ensures later { D.faults disk.old ≤ D.faults disk.new }
    ensures same { ¬ (IsErrOf result OpenFault.Disk) → D.faults disk.new ≡ D.faults disk.old }
    ensures cause { IsErrOf result OpenFault.Disk → Rose (D.faults disk.old) (D.faults disk.new) }
{
    let count = disk.read(bytes.len() as u64, buf)?;
    append(bytes, &buf[..count])?;
    Ok(count > 0)
}

// Makes a file of at most one byte a closed gate.
fn close_gate<D: Disk>(disk: &mut D) -> Result<(), Failed>
    requires short { IfSome (D.seen disk.old).bytes (λ file. length file ≤ 1) }
    requires sure { IsSure (D.seen disk.old) }
    ensures time { GoesOn (D.seen disk.old) (D.seen disk.new) }
    ensures during { During (D.seen disk.old) (D.seen disk.new) (λ image. length image ≤ 1) }
    ensures ready { OnOk result (IsReady (D.seen disk.new) 0) }
    ensures file { OnOk result ((D.seen disk.new).bytes ≡ option_map (λ file. 0 ∷ []) (D.seen disk.old).bytes) }
    ensures cause { HasCause (D.faults disk.old) (D.faults disk.new) result }
{
    disk.write(0, &[0])?;
    disk.sync()?;
    Ok(())
}

// The texts that the bytes hold.
fn records(alloc: Global, bytes: &[u8]) -> Result<Opened, OpenFault>
    requires { 1 < length bytes.now }
    ensures opened { IfOk result (λ o. IsOpened bytes.now (texts_of o.texts) o.gate) }
    ensures damaged { OnNumber result (IsDamaged bytes.now) }
    ensures plain { IsErrOf result OpenFault.Disk → ⊥ }
{
    let long = bytes.len();
    let mut texts = List::new(alloc);
    let mut rest = bytes;
    'reading: while is_open(rest) {
        let Some((text, more)) = record(behind(rest)) else {
            return Err(OpenFault::Damaged {
                number: texts.len() as u64 + 1,
            });
        };
        push(&mut texts, copied(alloc, text)?)?;
        rest = more;
    }
    Ok(Opened {
        texts,
        gate: (long - rest.len()) as u64,
    })
}

// Whether the bytes begin with an open gate.
fn is_open(bytes: &[u8]) -> bool
    requires { 0 < length bytes.now }
    ensures yes { result ≡ true → bytes.now ≡ 1 ∷ drop 1 bytes.now }
    ensures no { result ≡ false → IsClosed bytes.now }
{
    bytes[0] == 1
}

// What stands behind the first byte.
fn behind(bytes: &[u8]) -> &[u8]
    requires { 0 < length bytes.now }
    ensures { result.now ≡ drop 1 bytes.now }
{
    &bytes[1..]
}
