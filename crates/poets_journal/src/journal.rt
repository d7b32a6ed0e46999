//! A journal: texts that are put on a disk one after the other.
ghost use Rattle.std.specs.Prelude.{◌≡◌, ◌≤◌, ◌<◌, ◌+◌, false, true, ◌++◌, [], ◌∷◌, length, option_map, OnOk, OnErr};
ghost use Rattle.poets_io.specs.Causes.{HasCause};
ghost use Rattle.poets_disk.specs.Disks.{During, GoesOn, longest_file, over};
ghost use Rattle.poets_journal.specs.Texts.{HoldsTexts, IsFrame, Text, Texts};
ghost use Rattle.poets_journal.specs.Journals.{AllHold, HoldsOrMore, with_record};
ghost use Rattle.poets_journal.specs.code.Gates.{IsReady, IsStaged};

use poets_disk::Disk;
use poets_io::Failed;
use poets_value::List;
use std::marker::Model;

/// A journal on a disk. After its records comes a gate, a byte that is not 1. A text is written after the gate and
/// synced, and counts once the gate is 1.
#[derive(Drop)]
pub struct Journal<D: Disk> {
    disk: D,
    gate: u64,
    failed: bool,
}

impl<D: Disk> Model for Journal<D> {
    ghost use Rattle.std.specs.Prelude.{◌≡◌, ◌<◌, false};
    ghost use Rattle.poets_disk.specs.Disks.{longest_file};
    ghost use Rattle.poets_journal.specs.JournalValue.{JournalOf, journal_code};
    ghost use Rattle.poets_journal.specs.code.Gates.{IsReady};

    ghost Value = { JournalOf D };

    ghost coded = { journal_code D.code };

    ghost view = { λ j. record { disk = j.disk; gate = j.gate; failed = j.failed } };

    ghost invariant = { λ j. (j.gate < longest_file) × (j.failed ≡ false → IsReady (D.seen j.disk) j.gate) };
}

impl<D: Disk> Journal<D> {
    /// Whether an `append` failed. The journal then takes no more texts, and has to be started again.
    pub fn failed(&self) -> bool
        ensures failed { result ≡ self.now.failed }
        ensures within { self.now.gate < longest_file }
    {
        self.failed
    }

    /// Adds a text to those that the journal holds. After a fault the journal has failed for good; whether it then
    /// holds the text is known once it is started again. It takes no memory.
    pub fn append(&mut self, frame: &List<u8>) -> Result<(), Failed>
        requires frame { (text : Text) × IsFrame text frame.now.items }
        requires works { self.old.failed ≡ false }
        ensures time { GoesOn (D.seen self.old.disk) (D.seen self.new.disk) }
        // An image of any moment of the call holds the texts from before it, with the new one or without.
        ensures during { (texts : Texts) (text : Text)
            → AllHold (D.seen self.old.disk) texts → IsFrame text frame.now.items
            → During (D.seen self.old.disk) (D.seen self.new.disk) (HoldsOrMore texts text) }
        // After `Ok` each image holds the new one too.
        ensures ok { OnOk result ((texts : Texts) (text : Text)
            → AllHold (D.seen self.old.disk) texts → IsFrame text frame.now.items
            → AllHold (D.seen self.new.disk) (texts ++ text ∷ [])) }
        ensures file { OnOk result ((D.seen self.new.disk).bytes
            ≡ option_map (with_record self.old.gate frame.now.items) (D.seen self.old.disk).bytes) }
        ensures works { OnOk result (self.new.failed ≡ false) }
        ensures gate { OnOk result (self.new.gate ≡ self.old.gate + length frame.now.items) }
        ensures same { OnErr result (self.new.gate ≡ self.old.gate) }
        ensures failed { OnErr result (self.new.failed ≡ true) }
        ensures cause { HasCause (D.faults self.old.disk) (D.faults self.new.disk) result }
    {
        let frame = frame.as_slice();
        if put(&mut self.disk, self.gate, frame).is_err() {
            self.failed = true;
            return Err(Failed);
        }
        self.gate += frame.len() as u64;
        Ok(())
    }

    // A journal on a disk whose gate is at that place.
    pub(crate) fn opened(disk: D, gate: u64) -> Journal<D>
        requires { IsReady (D.seen disk) gate }
        ensures disk { result.disk ≡ disk }
        ensures gate { result.gate ≡ gate }
        ensures works { result.failed ≡ false }
    {
        Journal {
            disk,
            gate,
            failed: false,
        }
    }

    /// Gives back the disk. It takes no memory.
    pub fn end(self) -> D
        ensures { result ≡ self.disk }
    {
        self.disk
    }
}

// Puts a record behind the gate at that place, and then opens the gate.
fn put<D: Disk>(disk: &mut D, at: u64, frame: &[u8]) -> Result<(), Failed>
    requires frame { (text : Text) × IsFrame text frame.now }
    requires ready { IsReady (D.seen disk.old) at }
    ensures time { GoesOn (D.seen disk.old) (D.seen disk.new) }
    ensures during { (texts : Texts) (text : Text) → AllHold (D.seen disk.old) texts → IsFrame text frame.now
        → During (D.seen disk.old) (D.seen disk.new) (HoldsOrMore texts text) }
    ensures ok { OnOk result ((texts : Texts) (text : Text) → AllHold (D.seen disk.old) texts → IsFrame text frame.now
        → AllHold (D.seen disk.new) (texts ++ text ∷ [])) }
    ensures file { OnOk result ((D.seen disk.new).bytes
        ≡ option_map (with_record at frame.now) (D.seen disk.old).bytes) }
    ensures ready { OnOk result (IsReady (D.seen disk.new) (at + length frame.now)) }
    ensures cause { HasCause (D.faults disk.old) (D.faults disk.new) result }
{
    stage(disk, at, frame)?;
    open_gate(disk, at)?;
    Ok(())
}

// Puts a record behind the gate at that place.
fn stage<D: Disk>(disk: &mut D, at: u64, frame: &[u8]) -> Result<(), Failed>
    requires ready { IsReady (D.seen disk.old) at }
    ensures time { GoesOn (D.seen disk.old) (D.seen disk.new) }
    ensures during { (texts : Texts) → AllHold (D.seen disk.old) texts
        → During (D.seen disk.old) (D.seen disk.new) (λ image. HoldsTexts image texts) }
    ensures staged { OnOk result ((text : Text) → IsFrame text frame.now → IsStaged (D.seen disk.new) at text) }
    ensures file { OnOk result ((D.seen disk.new).bytes
        ≡ option_map (over (at + 1) frame.now) (D.seen disk.old).bytes) }
    ensures fits { OnOk result (at + 1 + length frame.now ≤ longest_file) }
    ensures cause { HasCause (D.faults disk.old) (D.faults disk.new) result }
{
    disk.write(at + 1, frame)?;
    disk.sync()?;
    Ok(())
}

// Opens the gate at that place.
fn open_gate<D: Disk>(disk: &mut D, at: u64) -> Result<(), Failed>
    requires staged { (text : Text) × IsStaged (D.seen disk.old) at text }
    ensures time { GoesOn (D.seen disk.old) (D.seen disk.new) }
    ensures during { (texts : Texts) (text : Text)
        → AllHold (D.seen disk.old) texts → IsStaged (D.seen disk.old) at text
        → During (D.seen disk.old) (D.seen disk.new) (HoldsOrMore texts text) }
    ensures ok { OnOk result ((texts : Texts) (text : Text)
        → AllHold (D.seen disk.old) texts → IsStaged (D.seen disk.old) at text
        → AllHold (D.seen disk.new) (texts ++ text ∷ [])) }
    ensures file { OnOk result ((D.seen disk.new).bytes ≡ option_map (over at (1 ∷ [])) (D.seen disk.old).bytes) }
    ensures ready { OnOk result ((text : Text)
        → IsStaged (D.seen disk.old) at text → at + 5 + length text < longest_file
        → IsReady (D.seen disk.new) (at + 5 + length text)) }
    ensures cause { HasCause (D.faults disk.old) (D.faults disk.new) result }
{
    disk.write(at, &[1])?;
    disk.sync()?;
    Ok(())
}
