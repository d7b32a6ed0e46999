//! A machine that adds, for tests of the turnstile, the clerks and the journal.
ghost use Rattle.std.specs.Prelude.{◌≡◌, ℕ, ◌+◌, ◌%◌, ◌^◌, ◌≤◌, List, [], length, map};
ghost use Rattle.std.specs.Arc.{arc_value};
ghost use Rattle.poets_test_adder.specs.Adding.{IsSum, adder_calls, total};

use poets_machine::Machine;
use poets_value::{List, Memory};
use std::alloc::Global;
use std::sync::Arc;
use std::thread::Threads;

/// Takes amounts that are not greater than `most`, and replies to each with the sum so far, modulo 2 to the 64th.
#[derive(Drop)]
pub struct Adder {
    most: u64,
    sum: u64,
    entries: List<(u32, Arc<u64>)>,
    ghost summed: { sum ≡ total (adder_calls entries.items) % 2 ^ 64 },
}

/// What a turn of an adder keeps: how many amounts came before, and the sum.
#[derive(Drop)]
pub struct Sum {
    place: u64,
    sum: u64,
}

impl Adder {
    /// An adder that took no amount yet.
    pub fn new(alloc: Global, most: u64) -> Adder
        ensures most { ⟦<Adder as Machine>⟧.frame result ≡ most }
        ensures history { ⟦<Adder as Machine>⟧.history result ≡ [] }
    {
        Adder {
            most,
            sum: 0,
            entries: List::new(alloc),
        }
    }

    /// The sum of all amounts.
    pub fn sum(&self) -> u64
        ensures { result ≡ total (⟦<Adder as Machine>⟧.history self.now) % 2 ^ 64 }
    {
        self.sum
    }

    /// The amounts in the order in which they were taken, each with its clerk's number.
    pub fn entries(&self) -> &[(u32, Arc<u64>)]
        ensures { adder_calls result.now ≡ ⟦<Adder as Machine>⟧.history self.now }
    {
        self.entries.as_slice()
    }
}

impl Machine for Adder {
    type Call = u64;

    type Reply = u64;

    type Kept = Sum;

    type Frame = u64;

    ghost history = { λ a. adder_calls a.entries.items };

    ghost frame = { λ a. a.most };

    ghost takes = { λ most amount. amount ≤ most };

    ghost answers = { λ most before clerk amount sum. IsSum before amount sum };

    ghost owes = { λ most before clerk amount kept. (kept.place ≡ length before) × IsSum before amount kept.sum };

    fn turn<R: Threads + Sync>(
        &mut self,
        rt: &R,
        alloc: Global,
        clerk: u32,
        call: &Arc<u64>,
    ) -> Result<Sum, Memory> {
        self.entries.reserve(1)?;
        let amount = Arc::try_clone(call)?;
        let place = self.entries.len() as u64;
        let sum = self.sum.wrapping_add(**call);
        let Ok(()) = self.entries.push((clerk, amount)) else {
            unreachable!();
        };
        self.sum = sum;
        Ok(Sum { place, sum })
    }

    fn place(kept: &Sum) -> u64 {
        kept.place
    }

    fn finish<R: Threads + Sync>(rt: &R, alloc: Global, kept: Sum) -> Result<u64, Memory> {
        Ok(kept.sum)
    }
}
