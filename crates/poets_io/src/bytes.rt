//! Bytes in memory that are given out from the front.
ghost use Rattle.std.specs.Prelude.{◌≡◌, ◌≤◌, ◌++◌, length, take, drop, min};

use poets_value::List;
use std::marker::Model;

/// The bytes from a place on.
#[derive(Drop)]
pub(crate) struct Bytes {
    all: List<u8>,
    given: usize,
}

impl Model for Bytes {
    ghost use Rattle.std.specs.Prelude.{◌≤◌, ℕ, List, drop, length};

    ghost Value = { List ℕ };

    ghost view = { λ b. drop b.given b.all.items };

    ghost invariant = { λ b. b.given ≤ length b.all.items };
}

impl Bytes {
    /// All the bytes.
    pub(crate) fn new(all: List<u8>) -> Bytes
        ensures { result ≡ all.items }
    {
        Bytes { all, given: 0 }
    }

    /// Gives the next bytes into the front of `buf`: as many as there are, as fit and as `most` says.
    pub(crate) fn give(&mut self, buf: &mut [u8], most: usize) -> usize
        ensures count { result ≡ min most (min (length buf.old) (length self.old)) }
        ensures rest { self.new ≡ drop result self.old }
        ensures given { buf.new ≡ take result self.old ++ drop result buf.old }
    {
        let left = &self.all.as_slice()[self.given..];
        let count = most.min(buf.len().min(left.len()));
        buf[..count].copy_from_slice(&left[..count]);
        self.given += count;
        count
    }
}
