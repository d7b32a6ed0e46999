//! A disk with one file.
ghost use Rattle.std.specs.Prelude.{◌≡◌, ◌≤◌, ◌+◌, ℕ, List, None, Some, IfOk, IfSome, OnOk, length, option_map};
ghost use Rattle.std.specs.Io.{ReadsAtMost};
ghost use Rattle.poets_io.specs.Causes.{HasCause};
ghost use Rattle.poets_disk.specs.Disks.{Seen, MayLeave, Since, Rests, Writes, IsSure, Gives, over, longest_file};

use poets_io::Failed;

/// A disk with one file, with a clock and a count of faults that never fall.
///
/// Until the next successful sync, a crash may leave any bytes in the ranges that were written since the last one.
pub trait Disk {
    /// The bytes that a read gives, if the disk tells them, and what a crash may leave.
    ghost seen: { Self → Seen };

    /// How many faults there were.
    ghost faults: { Self → ℕ };

    /// How long the file is.
    fn length(&mut self) -> Result<u64, Failed>
        ensures length { IfOk result (λ n. IfSome (seen self.old).bytes (λ file. n ≡ length file)) }
        ensures bound { IfOk result (λ n. n ≤ longest_file) }
        ensures rests { Rests (seen self.old) (seen self.new) }
        ensures cause { HasCause (faults self.old) (faults self.new) result };

    /// Reads some of the bytes from a place on into the start of `buf`, and returns how many.
    fn read(&mut self, at: u64, buf: &mut [u8]) -> Result<usize, Failed>
        ensures bound { ReadsAtMost result buf.new }
        ensures bytes { IfOk result (λ n. IfSome (seen self.old).bytes (Gives at n buf.new)) }
        ensures rests { Rests (seen self.old) (seen self.new) }
        ensures cause { HasCause (faults self.old) (faults self.new) result };

    /// Writes the piece over what is there from a place on, and past the end.
    fn write(&mut self, at: u64, piece: &[u8]) -> Result<(), Failed>
        requires { IfSome (seen self.old).bytes (λ file. at ≤ length file) }
        ensures written { OnOk result ((seen self.new).bytes ≡ option_map (over at piece.now) (seen self.old).bytes) }
        ensures fits { OnOk result (at + length piece.now ≤ longest_file) }
        ensures writes { Writes at piece.now (seen self.old) (seen self.new) }
        ensures cause { HasCause (faults self.old) (faults self.new) result };

    /// After a sync that succeeded a crash leaves what a read gives.
    fn sync(&mut self) -> Result<(), Failed>
        ensures sure { OnOk result (IsSure (seen self.new)) }
        ensures rests { Rests (seen self.old) (seen self.new) }
        ensures cause { HasCause (faults self.old) (faults self.new) result };

    /// What a read gives is one of the images.
    ghost reads_image: { (disk : Self) (file : List ℕ) → (seen disk).bytes ≡ Some file → MayLeave (seen disk) file };

    /// A disk that does not tell its bytes tells no image.
    ghost silent: { (disk : Self) (start : ℕ) (image : List ℕ) → (seen disk).bytes ≡ None
        → ¬ (Since (seen disk) start image) };
}
