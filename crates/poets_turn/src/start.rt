//! A turnstile is made, with its clerks.
ghost use Rattle.std.specs.Prelude.{◌≡◌, ◌<◌, ◌≤◌, [], IfOk, IfErr};
ghost use Rattle.poets_value.specs.Limits.{most_clerks};
ghost use Rattle.poets_turn.specs.code.Seats.{HasRoomForClerks, IsFirstSeat, IsNextNumber, MadeNumbers};
ghost use Rattle.poets_turn.specs.Clerks.{AreFresh, AreNumbered, IsFresh, IsMadeFor};

use crate::bells::Bells;
use crate::rule::{ForClerk, Start, Turnstile};
use crate::types::{Clerk, ClerkOf, Place, Turn};
use atomic_table::{Refused, Table};
use poets_machine::Machine;
use poets_value::List;
use std::alloc::Global;
use std::snapshot::Snapshot;

impl<M: Machine> Turn<M> {
    /// A turnstile for a machine that took no call yet, with its clerks, numbered from 1. If memory runs out, the
    /// machine comes back.
    pub fn start(alloc: Global, machine: M, clerks: u32) -> Result<(Turn<M>, List<Clerk<M>>), M>
        requires clerks { (0 < clerks) × (clerks ≤ most_clerks) }
        requires new { M.history machine ≡ [] }
        ensures frame { IfOk result (λ r. IsMadeFor M.frame machine clerks r.0) }
        ensures clerks { IfOk result (λ r. AreFresh M.frame r.0 clerks r.1.items) }
        ensures numbers { IfOk result (λ r. AreNumbered r.1.items) }
        ensures err { IfErr result (λ m. m ≡ machine) }
    {
        let mut list = List::new(alloc);
        if list.reserve(clerks as usize).is_err() {
            return Err(machine);
        }
        let (turn, seat) = Turn::open(alloc, machine, clerks)?;
        let first = ClerkOf {
            seat,
            number: 1,
            front_length: 0,
        };
        turn.add_clerks(&mut list, first, clerks);
        Ok((turn, list))
    }

    // The turnstile with its first seat.
    fn open(alloc: Global, machine: M, clerks: u32) -> Result<(Turn<M>, Place<M>), M>
        requires clerks { 0 < clerks }
        requires new { M.history machine ≡ [] }
        ensures frame { IfOk result (λ r. IsMadeFor M.frame machine clerks r.0) }
        ensures seat { IfOk result (λ r. IsFirstSeat (M.frame machine) clerks r.0 r.1) }
        ensures err { IfErr result (λ m. m ≡ machine) }
    {
        let Ok(mut slots) = Vec::with_capacity(alloc, 1) else {
            return Err(machine);
        };
        let Ok(bells) = Bells::silent(alloc) else {
            return Err(machine);
        };
        let start = Start {
            machine: Snapshot::of(&machine),
            clerks,
        };
        slots.push_reserved(Some(machine));
        match Table::<_, _, _, Turnstile, Global>::new(alloc, &[0, 0], slots, &start) {
            Ok((table, seat)) => Ok((Turn { table, bells }, seat)),
            Err(Refused { mut slots }) => {
                let Some(Some(machine)) = slots.pop() else {
                    unreachable!()
                };
                Err(machine)
            }
        }
    }

    // The first clerk and the others, in a list with room.
    fn add_clerks(&self, list: &mut List<Clerk<M>>, first: Clerk<M>, clerks: u32)
        requires room { HasRoomForClerks self.now list.old clerks }
        requires first { MadeNumbers M.frame self.now 1 1 first }
        ensures clerks { AreFresh M.frame self.now clerks list.new.items }
        ensures numbers { AreNumbered list.new.items }
    {
        let mut first = first;
        for made in 1..clerks {
            let next = self.next_clerk(&mut first, made + 1);
            let Ok(()) = list.push(next) else {
                unreachable!()
            };
        }
        let Ok(()) = list.insert(0, first) else {
            unreachable!()
        };
    }

    // One more clerk. The first makes the numbers.
    fn next_clerk(&self, first: &mut Clerk<M>, number: u32) -> Clerk<M>
        requires of { IsFresh M.frame self.now first.old }
        requires count { IsNextNumber self.now first.old number }
        ensures first { MadeNumbers M.frame self.now first.old.number number first.new }
        ensures next { (result.number ≡ number) × IsFresh M.frame self.now result }
    {
        let seat = self.table.shared.split_seat::<ForClerk>(&mut first.seat);
        ClerkOf {
            seat,
            number,
            front_length: 0,
        }
    }
}
