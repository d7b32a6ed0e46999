//! A machine whose calls are put into a journal.
ghost use Rattle.std.specs.Prelude.{◌≡◌, ◌<◌, ◌≤◌, ◌+◌, ℕ, [], ◌∷◌, ◌++◌, false, if◌then◌else◌};
ghost use Rattle.poets_disk.specs.Disks.{GoesOn, longest_file};
ghost use Rattle.poets_journal.specs.Texts.{IsFrame, Text, Texts};
ghost use Rattle.poets_journal.specs.Keeping.{IsKept, IsStorable, texts_by};

use crate::records::frame;
use crate::{Journal, Put};
use poets_disk::Disk;
use poets_machine::Machine;
use poets_value::{List, Memory};
use std::alloc::Global;
use std::marker::Model;
use std::snapshot::Snapshot;
use std::sync::Arc;
use std::thread::Threads;

/// The frame of a machine with a journal: that of the machine, what the texts depend on, and the disk as it was when
/// the two were put together. The disk's clock then tells the moment.
pub struct JournaledFrame<F, T, D> {
    pub inner: F,
    pub table: T,
    pub made: D,
}

/// A machine whose calls are put into a journal, each after its turn. A call is acknowledged once its text was
/// appended. After a fault of the disk the machine goes on, and no further call is acknowledged.
#[derive(Drop)]
pub struct Journaled<M: Machine, D: Disk, P: Put<M::Call>> {
    machine: M,
    journal: Journal<D>,
    put: P,
    stored: u64,
    made: Snapshot<Journal<D>>,
}

impl<M: Machine, D: Disk, P: Put<M::Call>> Model for Journaled<M, D, P> {
    ghost use Rattle.std.specs.Prelude.{◌≤◌};
    ghost use Rattle.poets_journal.specs.Keeping.{JournaledOf, journaled_code, IsKept, texts_by};

    ghost Value = { JournaledOf M D P };

    ghost coded = { journaled_code M.code D.code P.code };

    ghost view = { λ j. record {
      machine = j.machine;
      journal = j.journal;
      put = j.put;
      stored = j.stored;
      made = j.made.value.disk;
    } };

    ghost invariant = { λ j. (j.stored ≤ j.journal.gate)
        × IsKept (D.seen j.made.value.disk) (D.seen j.journal.disk)
        (D.faults j.made.value.disk) (D.faults j.journal.disk) j.journal.failed j.stored
        (texts_by (P.text (P.table j.put)) (M.history j.machine)) };
}

impl<M: Machine, D: Disk + Drop, P: Put<M::Call> + Drop> Journaled<M, D, P> {
    /// A machine that took no call yet, whose calls go into the journal, after the texts that it holds. It takes no
    /// memory.
    pub fn new(machine: M, journal: Journal<D>, put: P) -> Journaled<M, D, P>
        requires new { M.history machine ≡ [] }
        requires works { journal.failed ≡ false }
        ensures machine { result.machine ≡ machine }
        ensures journal { result.journal ≡ journal }
        ensures put { result.put ≡ put }
        ensures stored { result.stored ≡ 0 }
        ensures made { result.made ≡ journal.disk }
    {
        let made = Snapshot::of(&journal);
        Journaled {
            machine,
            journal,
            put,
            stored: 0,
            made,
        }
    }

    /// How many calls are acknowledged. They are the first ones. It takes no memory.
    pub fn stored(&self) -> u64
        ensures stored { result ≡ self.now.stored }
        // What is kept of the texts of the calls that it took.
        ensures kept { IsKept (D.seen self.now.made) (D.seen self.now.journal.disk)
            (D.faults self.now.made) (D.faults self.now.journal.disk) self.now.journal.failed self.now.stored
            (texts_by (P.text (P.table self.now.put)) (M.history self.now.machine)) }
    {
        self.stored
    }

    /// Gives back the machine and the disk. It takes no memory.
    pub fn end(self) -> (M, D)
        ensures machine { result.0 ≡ self.machine }
        ensures disk { result.1 ≡ self.journal.disk }
    {
        let Journaled {
            machine,
            journal,
            put: _,
            stored: _,
            made: _,
        } = self;
        (machine, journal.end())
    }
}

// Puts a text into the journal unless this has failed, and says whether it is stored.
fn store<D: Disk>(journal: &mut Journal<D>, frame: &List<u8>) -> bool
    requires frame { (text : Text) × IsFrame text frame.now.items }
    ensures kept { (made : D) (stored : ℕ) (texts : Texts) (text : Text) → IsFrame text frame.now.items
        → IsKept (D.seen made) (D.seen journal.old.disk) (D.faults made) (D.faults journal.old.disk)
        journal.old.failed stored texts
        → IsKept (D.seen made) (D.seen journal.new.disk) (D.faults made) (D.faults journal.new.disk)
        journal.new.failed (if result then stored + 1 else stored) (texts ++ text ∷ []) }
    ensures time { GoesOn (D.seen journal.old.disk) (D.seen journal.new.disk) }
    ensures gate { (if result then journal.old.gate + 1 else journal.old.gate) ≤ journal.new.gate }
    ensures within { journal.old.gate < longest_file }
{
    if journal.failed() {
        return false;
    }
    match journal.append(frame) {
        Ok(()) => true,
        Err(_) => false,
    }
}

// The count, or one more.
fn counted(count: u64, more: bool) -> u64
    requires { count < longest_file }
    ensures { result ≡ (if more then count + 1 else count) }
{
    if more { count + 1 } else { count }
}

impl<M: Machine, D: Disk + Drop, P: Put<M::Call> + Drop> Machine for Journaled<M, D, P> {
    type Call = M::Call;

    type Reply = M::Reply;

    type Kept = M::Kept;

    type Frame = JournaledFrame<M::Frame, P::Table, D>;

    ghost history = { λ j. M.history j.machine };

    ghost frame = { λ j. record { inner = M.frame j.machine; table = P.table j.put; made = j.made } };

    ghost takes = { λ frame call. M.takes frame.inner call × IsStorable P.has_text P.text frame.table call };

    ghost answers = { λ frame before clerk call reply. M.answers frame.inner before clerk call reply };

    ghost owes = { λ frame before clerk call kept. M.owes frame.inner before clerk call kept };

    fn turn<R: Threads + Sync>(
        &mut self,
        rt: &R,
        alloc: Global,
        clerk: u32,
        call: &Arc<M::Call>,
    ) -> Result<M::Kept, Memory> {
        let text = self.put.put(alloc, clerk, &**call)?;
        let record = frame(alloc, text.as_slice())?;
        let kept = self.machine.turn(rt, alloc, clerk, call)?;
        let is_stored = store(&mut self.journal, &record);
        self.stored = counted(self.stored, is_stored);
        Ok(kept)
    }

    fn place(kept: &M::Kept) -> u64 {
        M::place(kept)
    }

    fn finish<R: Threads + Sync>(rt: &R, alloc: Global, kept: M::Kept) -> Result<M::Reply, Memory> {
        M::finish(rt, alloc, kept)
    }
}
