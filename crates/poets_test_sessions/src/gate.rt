//! A gate that holds calls back until others are answered, or until their turns are over.

use crate::program::list;
use poets_clerks::Gate;
use poets_value::{List, Memory, push};
use std::alloc::Global;
use std::sync::atomic::{AtomicBool, AtomicU64, Ordering};
use std::thread;

/// A clerk, and which of its calls. Both count from 1.
pub(crate) type ClerkCall = (u32, u64);

/// A call that is held, and the call that it waits for.
pub(crate) type Hold = (ClerkCall, ClerkCall);

// The most clerks of a session.
const CLERKS: u32 = 64;

// So often a held call yields, and then it goes on.
const PATIENCE: u32 = 1_000_000;

// How many calls of each clerk came to some stage.
#[derive(Drop)]
struct Counts {
    of_clerks: List<AtomicU64>,
}

impl Counts {
    fn new(alloc: Global) -> Result<Counts, Memory> {
        let mut of_clerks = List::new(alloc);
        for _ in 0..CLERKS {
            push(&mut of_clerks, AtomicU64::new(0))?;
        }
        Ok(Counts { of_clerks })
    }

    fn of(&self, clerk: u32) -> Option<&AtomicU64> {
        self.of_clerks.get(clerk.checked_sub(1)? as usize)
    }

    fn tell(&self, (clerk, call): ClerkCall) {
        if let Some(count) = self.of(clerk) {
            count.store(call, Ordering::SeqCst);
        }
    }

    // Waits for the call to come to the stage. Answers whether it came before patience ended.
    fn wait_for(&self, (clerk, call): ClerkCall) -> bool {
        if let Some(count) = self.of(clerk) {
            for _ in 0..PATIENCE {
                if count.load(Ordering::SeqCst) >= call {
                    return true;
                }
                thread::yield_now();
            }
        }
        false
    }
}

/// Holds some calls, each until another is answered, or until its turn is over.
#[derive(Drop)]
pub(crate) struct HoldingGate {
    held: List<Hold>,
    // Those that are held before their turns until the turn of another is over.
    held_behind: List<Hold>,
    // Those that are held between their turn and their reply.
    held_outside: List<Hold>,
    outside: Counts,
    answered: Counts,
    has_given_up: AtomicBool,
}

impl HoldingGate {
    pub(crate) fn new(
        alloc: Global,
        held: &[Hold],
        held_behind: &[Hold],
        held_outside: &[Hold],
    ) -> Result<HoldingGate, Memory> {
        Ok(HoldingGate {
            held: list(alloc, held)?,
            held_behind: list(alloc, held_behind)?,
            held_outside: list(alloc, held_outside)?,
            outside: Counts::new(alloc)?,
            answered: Counts::new(alloc)?,
            has_given_up: AtomicBool::new(false),
        })
    }

    /// Whether some held call went on without what it waited for.
    pub(crate) fn has_given_up(&self) -> bool {
        self.has_given_up.load(Ordering::SeqCst)
    }

    // Holds the call, where it is one of these, until the other has come to the stage that is counted.
    fn hold(&self, holds: &List<Hold>, call: ClerkCall, counts: &Counts) {
        for (held, other) in holds.as_slice() {
            if *held == call && !counts.wait_for(*other) {
                self.has_given_up.store(true, Ordering::SeqCst);
            }
        }
    }
}

impl Gate for HoldingGate {
    fn before(&self, clerk: u32, call: u64) {
        self.hold(&self.held, (clerk, call), &self.answered);
        self.hold(&self.held_behind, (clerk, call), &self.outside);
    }

    fn outside(&self, clerk: u32, call: u64) {
        self.outside.tell((clerk, call));
        self.hold(&self.held_outside, (clerk, call), &self.answered);
    }

    fn after(&self, clerk: u32, call: u64) {
        self.answered.tell((clerk, call));
    }
}
