//! Bytes that come in, and bytes that go out.
ghost use Rattle.std.specs.Prelude.{◌<◌, ℕ, List, Option, IfOk, length};
ghost use Rattle.std.specs.Io.{ReadsAtMost, WritesAtMost};
ghost use Rattle.std.specs.Io.KnownBytes.{ReadConsumes, WriteAppends};
ghost use Rattle.poets_io.specs.Causes.{HasCause};

use crate::Failed;

/// Bytes that come in, with a count of faults that never falls.
pub trait Source {
    /// The bytes that are left; `None` where the source does not tell them.
    ghost left: { Self → Option (List ℕ) };

    /// How many faults there were.
    ghost faults: { Self → ℕ };

    /// Reads some of the next bytes into the start of `buf`, and returns how many. If the buffer is not empty, 0 means
    /// the end of input.
    fn read(&mut self, buf: &mut [u8]) -> Result<usize, Failed>
        ensures bound { ReadsAtMost result buf.new }
        // `Ok(n)` took the next n bytes, 0 of them into some room only at the end; `Err` took none.
        ensures bytes { ReadConsumes (left self.old) (left self.new) result buf.new }
        ensures cause { HasCause (faults self.old) (faults self.new) result };
}

/// Bytes that go out, with a count of faults that never falls.
pub trait Sink {
    /// The bytes that it holds; `None` where the sink does not tell them.
    ghost held: { Self → Option (List ℕ) };

    /// How many faults there were.
    ghost faults: { Self → ℕ };

    /// Takes some bytes from the start of `piece`, and returns how many. A sink is never given an empty piece, since
    /// some writers take one for the end of what is written.
    fn write(&mut self, piece: &[u8]) -> Result<usize, Failed>
        requires { 0 < length piece.now }
        ensures bound { WritesAtMost result piece.now }
        ensures some { IfOk result (λ n. 0 < n) }
        // `Ok(n)` appended the first n bytes, and `Err` none.
        ensures bytes { WriteAppends (held self.old) (held self.new) result piece.now }
        ensures cause { HasCause (faults self.old) (faults self.new) result };
}
