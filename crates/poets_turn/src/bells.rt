//! Where clerks sleep until their tickets are served. Nothing that is proved rests on it: a clerk that wakes looks.
ghost use Rattle.std.specs.Prelude.{◌≡◌, ⊤};
ghost use Rattle.poets_value.specs.Limits.{most_clerks};

use atomic_table::{Play, Table, TableRule};
use poets_value::MOST_CLERKS;
use std::alloc::{AllocError, Global};
use std::sync::Wait;
use std::thread;

// As many as there may be clerks, so that no two tickets that wait share a bell.
const BELLS: u64 = MOST_CLERKS;
// How many of the next tickets are near.
const NEAR: u64 = 8;

// How often a clerk whose ticket is near looks before it sleeps.
const LOOKS: u8 = 100;

const SILENT: u64 = 0;

const ASLEEP: u64 = 1;

struct AnyWords;

impl TableRule<(), (), ()> for AnyWords {
    ghost holds = { λ _ _. ⊤ };

    ghost first = { λ _. tt };
}

// Nothing is known of a bell.
struct Ring;

impl Play<(), ()> for Ring {
    ghost then = { λ _ _ _ _. ⊤ };
}

/// A bell for each clerk. Its word is whether one sleeps there.
#[derive(Drop)]
pub(crate) struct Bells {
    table: Table<(), (), (), AnyWords, Global>,
    ghost sized: { table.shared.table_id.words ≡ most_clerks },
}

/// How a clerk waits.
#[derive(Drop)]
pub(crate) struct Patience {
    looks: u8,
    is_marked: bool,
}

impl Patience {
    pub(crate) fn new() -> Patience {
        Patience {
            looks: LOOKS,
            is_marked: false,
        }
    }
}

impl Bells {
    pub(crate) fn silent(alloc: Global) -> Result<Bells, AllocError> {
        let (table, _) = Table::<_, _, _, AnyWords, Global>::of_words(
            alloc,
            &[SILENT; MOST_CLERKS as usize],
            &(),
        )?;
        Ok(Bells { table })
    }

    /// Waits a while before the next look. A clerk whose ticket is near gives up its processor some times. Any other says
    /// that it sleeps, looks once more, and then sleeps.
    pub(crate) fn wait<R: Wait>(&self, rt: &R, ticket: u64, serving: u64, patience: &mut Patience) {
        let bell = (ticket % BELLS) as usize;
        if patience.looks > 0 && ticket.wrapping_sub(serving) <= NEAR {
            patience.looks -= 1;
            thread::yield_now();
        } else if patience.is_marked {
            self.table.shared.park(rt, bell, ASLEEP as u32);
            patience.is_marked = false;
        } else {
            self.table.shared.swap_new_seat::<Ring>(bell, ASLEEP);
            patience.is_marked = true;
        }
    }

    /// Wakes the clerk with the ticket, if it sleeps.
    pub(crate) fn ring(&self, ticket: u64) {
        let bell = (ticket % BELLS) as usize;
        let (found, _) = self.table.shared.swap_new_seat::<Ring>(bell, SILENT);
        if found == ASLEEP {
            self.table.shared.wake_one(bell);
        }
    }
}
