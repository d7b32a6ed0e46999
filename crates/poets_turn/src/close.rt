//! The clerks go, and the machine comes back.
ghost use Rattle.std.specs.Prelude.{◌≡◌, ◌<◌, length, All};
ghost use Rattle.poets_turn.specs.Clerks.{AreAll, AreClerksIn, KnowsClerk, front, calls, number, clerk_count, turn_frame, IsClerkOf};
ghost use Rattle.poets_turn.specs.code.Seats.{KnowsAllOf, KnowsClerks, MayTakeIn};
ghost use Rattle.poets_turn.specs.Settings.{OnlyClerks};
ghost use Rattle.poets_turn.specs.declared.view.Stage.TheVariants.{Idle};

use crate::rule::{Settle, TakeClerk};
use crate::types::{Clerk, ClerkOf, Place, Turn};
use poets_machine::Machine;
use poets_value::List;

impl<M: Machine> Turn<M> {
    /// Ends the turnstile with all its clerks. The machine's history has the calls of each, in order, and no others.
    pub fn close(self, clerks: List<Clerk<M>>) -> M
        requires of { All (λ c. IsClerkOf M.frame self c) clerks.items }
        requires all { AreAll (clerk_count self) clerks.items }
        ensures frame { M.frame result ≡ turn_frame M.frame self }
        ensures clerks { AreClerksIn (M.history result) clerks.items }
        ensures numbers { OnlyClerks (clerk_count self) (M.history result) }
    {
        let seat = self.gather(clerks);
        let Turn { table, bells: _ } = self;
        let mut closed = table.close_with(seat);
        let Some(machine) = closed.take(0) else {
            unreachable!()
        };
        closed.free();
        machine
    }

    // One seat that took in all the clerks.
    fn gather(&self, mut clerks: List<Clerk<M>>) -> Place<M>
        requires of { All (λ c. IsClerkOf M.frame self.now c) clerks.items }
        requires some { 0 < length clerks.items }
        ensures table { result.table_id ≡ self.now.table.shared.table_id }
        ensures idle { (result.me.0.stage ≡ Idle) × (0 < result.me.0.number) }
        ensures knows { KnowsClerks result.me.0 clerks.items }
    {
        let Some(first) = clerks.pop() else {
            unreachable!()
        };
        let ClerkOf {
            mut seat,
            number: _,
            front_length: _,
        } = first;
        while let Some(clerk) = clerks.pop() {
            self.take_in(&mut seat, clerk);
        }
        seat
    }

    // Takes in a clerk.
    fn take_in(&self, seat: &mut Place<M>, clerk: Clerk<M>)
        requires table { seat.old.table_id ≡ self.now.table.shared.table_id }
        requires idle { MayTakeIn seat.old.me.0 }
        requires clerk { IsClerkOf M.frame self.now clerk }
        ensures table { seat.new.table_id ≡ seat.old.table_id }
        ensures idle { MayTakeIn seat.new.me.0 }
        ensures clerk { KnowsClerk seat.new.me.0 (number clerk) (front clerk) (calls clerk) }
        ensures others { KnowsAllOf seat.old.me.0 seat.new.me.0 }
    {
        let ClerkOf {
            seat: other,
            number: _,
            front_length: _,
        } = clerk;
        self.table.shared.join_seat::<TakeClerk>(seat, other);
        self.table.shared.load::<Settle>(seat, 1);
    }
}
