//! An adder whose amounts are stored.
ghost use Rattle.std.specs.Prelude.{◌≡◌, IfOk};

use crate::making::{bytes, disk, leaves};
use poets_disk::{Disk, FileDisk, MemoryDisk};
use poets_journal::{Journal, Journaled, Put};
use poets_machine::Machine;
use poets_test_adder::Adder;
use poets_value::{List, Memory, push};
use std::alloc::Global;
use std::sync::Arc;
use std::test::Fail;
use std::thread::Threads;

// Writes an amount as one byte.
#[derive(Clone, Copy)]
struct OneByte;

impl Put<u64> for OneByte {
    type Table = ();

    ghost use Rattle.std.specs.Prelude.{◌<◌, ◌%◌, [], ◌∷◌};

    ghost table = { λ _. tt };

    ghost has_text = { λ table amount. amount < 256 };

    ghost text = { λ table clerk amount. amount % 256 ∷ [] };

    fn put(&self, alloc: Global, clerk: u32, call: &u64) -> Result<List<u8>, Memory> {
        let mut list = List::new(alloc);
        push(&mut list, (*call % 256) as u8)?;
        Ok(list)
    }
}

// An adder of amounts up to 9, with the journal on the disk.
fn adder<D: Disk + Drop>(alloc: Global, disk: D) -> Result<Journaled<Adder, D, OneByte>, Memory>
    ensures { IfOk result (λ j. ⟦<Adder as Machine>⟧.frame j.machine ≡ 9) }
{
    let Ok(started) = Journal::start(alloc, disk) else {
        return Err(Memory);
    };
    Ok(Journaled::new(Adder::new(alloc, 9), started.journal, OneByte))
}

// What came of a run: how many amounts were stored, their sum, and whether an image of the disk has these bytes.
type Came = (u64, u64, bool);

// Adds five, so many times, to an adder with a journal on the disk.
fn came<R: Threads + Sync>(
    rt: &R,
    alloc: Global,
    disk: MemoryDisk,
    times: usize,
    pick: u64,
    wanted: &[u8],
) -> Result<Came, Memory> {
    let mut machine = adder(alloc, disk)?;
    let five = Arc::new(alloc, 5)?;
    for _ in 0..times {
        let _ = machine.turn(rt, alloc, 1, &five)?;
    }
    let stored = machine.stored();
    let (adder, disk) = machine.end();
    Ok((stored, adder.sum(), leaves(alloc, &disk, pick, wanted)?))
}

#[test]
fn amounts_are_stored_until_the_disk_fails(rt: HostRuntime) -> Result<(), Fail> {
    let disk = disk(rt.alloc(), List::new(rt.alloc()), &[12])?;
    let wanted = [1, 0, 0, 0, 1, 5, 1, 0, 0, 0, 1, 5, 0];
    assert_eq!(rt; came(&rt, rt.alloc(), disk, 4, 0, &wanted)?, (2, 20, true));
    Ok(())
}

// A journal holds the text of the byte 7 already.
#[test]
fn amounts_are_stored_behind_earlier_texts(rt: HostRuntime) -> Result<(), Fail> {
    let file = bytes(rt.alloc(), &[1, 0, 0, 0, 1, 7, 0])?;
    let disk = disk(rt.alloc(), file, &[])?;
    let wanted = [1, 0, 0, 0, 1, 7, 1, 0, 0, 0, 1, 5, 0];
    assert_eq!(rt; came(&rt, rt.alloc(), disk, 1, 1, &wanted)?, (1, 5, true));
    Ok(())
}

// Hands a value on to where another thread may have it.
fn sent<T: Send>(value: T) -> T {
    value
}

// A machine with a journal, and a disk over a file, may go to another thread.
#[test]
fn a_machine_may_be_sent(rt: HostRuntime) -> Result<(), Fail> {
    let alloc = rt.alloc();
    let machine = sent(adder(alloc, disk(alloc, List::new(alloc), &[])?)?);
    assert_eq!(rt; machine.stored(), 0);
    let _ = sent(FileDisk::new(&rt));
    Ok(())
}
