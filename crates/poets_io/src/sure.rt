//! A source and a sink that never fail.
ghost use Rattle.std.specs.Prelude.{◌≡◌, Some, ◌+◌, ◌-◌, ◌^◌, ◌<◌, ◌≤◌, ◌++◌, length, take, drop, min, IfOk, None};
ghost use Rattle.std.specs.Io.{ReadsAtMost, WritesAtMost};
ghost use Rattle.std.specs.Io.KnownBytes.{ReadConsumes, WriteAppends};
ghost use Rattle.poets_io.specs.Causes.{HasCause};

use crate::bytes::Bytes;
use crate::{Failed, Sink, Source};
use poets_value::List;
use std::alloc::Global;
use std::marker::Model;

/// A source that gives its bytes, as many as fit, and never fails.
#[derive(Drop)]
pub struct SureSource {
    left: Bytes,
}

impl Model for SureSource {
    ghost use Rattle.std.specs.Prelude.{ℕ, List};

    ghost Value = { List ℕ };

    ghost view = { λ s. s.left };
}

impl SureSource {
    /// Gives these bytes. It takes no memory.
    pub fn new(_alloc: Global, bytes: List<u8>) -> SureSource
        ensures { result ≡ bytes.items }
    {
        SureSource {
            left: Bytes::new(bytes),
        }
    }
}

impl Source for SureSource {
    ghost left = { λ s. Some s };

    ghost faults = { λ _. 0 };

    fn read(&mut self, buf: &mut [u8]) -> Result<usize, Failed>
        ensures bound { ReadsAtMost result buf.new }
        ensures bytes { ReadConsumes (Some self.old) (Some self.new) result buf.new }
        ensures cause { HasCause 0 0 result }
        ensures count { result ≡ Ok (min (length buf.old) (length self.old)) }
        ensures given { IfOk result (λ n. buf.new ≡ take n self.old ++ drop n buf.old) }
    {
        Ok(self.left.give(buf, buf.len()))
    }
}

/// A sink that takes all, keeps the length alone, and never fails.
#[derive(Drop)]
pub struct SureSink {
    taken: u64,
}

impl Model for SureSink {
    ghost use Rattle.std.specs.Prelude.{ℕ};

    ghost Value = { ℕ };

    ghost view = { λ s. s.taken };
}

impl SureSink {
    /// A sink that took nothing yet.
    pub fn new() -> SureSink
        ensures { result ≡ 0 }
    {
        SureSink { taken: 0 }
    }

    /// How many bytes it took, or the greatest `u64` where they were more.
    pub fn taken(&self) -> u64
        ensures { result ≡ self.now }
    {
        self.taken
    }
}

impl Sink for SureSink {
    ghost held = { λ _. None };

    ghost faults = { λ _. 0 };

    fn write(&mut self, piece: &[u8]) -> Result<usize, Failed>
        requires { 0 < length piece.now }
        ensures bound { WritesAtMost result piece.now }
        ensures some { IfOk result (λ n. 0 < n) }
        ensures cause { HasCause 0 0 result }
        ensures whole { result ≡ Ok (length piece.now) }
        ensures taken { self.new ≡ min (self.old + length piece.now) (2 ^ 64 - 1) }
    {
        self.taken = self.taken.saturating_add(piece.len() as u64);
        Ok(piece.len())
    }
}
