//! One call: a ticket is drawn and waited for, the machine takes the call, and the turn is handed on.
ghost use Rattle.std.specs.Prelude.{◌≡◌, ◌+◌, ◌^◌, ◌<◌, [], ◌∷◌, None};
ghost use Rattle.std.specs.Arc.{arc_value};
ghost use Rattle.poets_turn.specs.code.Seats.{HasOneCallMore, HoldsMachine, IsBack, IsWaiting, MayCall, MayDraw, MayPass, TurnEnded, with_call};
ghost use Rattle.poets_turn.specs.code.Steps.{Served, IsServing};
ghost use Rattle.poets_turn.specs.Clerks.{CallEnded, IsAt, number, turn_frame, IsClerkOf};
ghost use Rattle.poets_turn.specs.declared.view.Stage.TheVariants.{Idle, Waiting};

use crate::bells::Patience;
use crate::rule::{Draw, Enter, Look, Pass};
use crate::types::{Clerk, Place, Turn};
use poets_machine::Machine;
use poets_value::Memory;
use std::alloc::Global;
use std::sync::{Arc, Wait};
use std::thread;
use std::thread::Threads;

// How often a clerk looks whether the turnstile is free before it draws a ticket all the same.
const TRIES: u16 = 1_000;

impl<M: Machine> Turn<M> {
    /// Waits for the clerk's turn, and has the machine take the call. The call is then at the end of what the clerk
    /// saw. If memory ran out, no entry was made.
    pub fn call<R: Threads + Wait + Sync>(
        &self,
        rt: &R,
        alloc: Global,
        clerk: &mut Clerk<M>,
        call: &Arc<M::Call>,
    ) -> Result<M::Kept, Memory>
        requires of { IsClerkOf M.frame self.now clerk.old }
        requires takes { M.takes (turn_frame M.frame self.now) (arc_value call.now) }
        ensures of { IsClerkOf M.frame self.now clerk.new }
        ensures number { number clerk.new ≡ number clerk.old }
        ensures call { CallEnded M.owes M.frame self.now call.now result clerk.old clerk.new }
    {
        let number = clerk.number;
        let made = self.take_turn(rt, alloc, &mut clerk.seat, number, call);
        if let Ok(kept) = &made {
            clerk.front_length = M::place(kept) + 1;
        }
        made
    }

    // The turn of a seat, from its ticket to the next one's.
    fn take_turn<R: Threads + Wait + Sync>(
        &self,
        rt: &R,
        alloc: Global,
        seat: &mut Place<M>,
        number: u32,
        call: &Arc<M::Call>,
    ) -> Result<M::Kept, Memory>
        requires of { IsAt M.frame self.now seat.old }
        requires idle { MayCall number seat.old.me }
        requires takes { M.takes (turn_frame M.frame self.now) (arc_value call.now) }
        ensures of { IsAt M.frame self.now seat.new }
        ensures same { (seat.new.id ≡ seat.old.id) × IsBack number seat.new.me }
        ensures call { TurnEnded M.owes M.frame self.now number call.now result seat.old seat.new }
    {
        let (ticket, mut machine) = self.take_machine(rt, seat);
        let made = machine.turn(rt, alloc, number, call);
        if made.is_ok() {
            self.enter(seat, ticket, machine, call);
        } else {
            self.pass(seat, ticket, machine);
        }
        made
    }

    // Gives up the processor while a ticket is not yet served, up to some times. A clerk who draws while others wait has
    // to sleep and to be woken, which costs more than a call; one who finds the turnstile free goes through at once.
    fn stand_back(&self) {
        for _ in 0..TRIES {
            if self.table.shared.peek(0) == self.table.shared.peek(1) {
                return;
            }
            thread::yield_now();
        }
    }

    // Draws a ticket. Once all tickets are drawn it waits for ever.
    fn draw<R: Wait>(&self, rt: &R, seat: &mut Place<M>) -> u64
        requires table { seat.old.table_id ≡ self.now.table.shared.table_id }
        requires idle { MayDraw seat.old.me }
        ensures same { (seat.new.table_id ≡ seat.old.table_id) × (seat.new.id ≡ seat.old.id) }
        ensures drawn { (result + 1 < 2 ^ 64) × IsWaiting seat.old.me.0 result seat.new.me }
    {
        for _ in rt.forever() {
            let ticket = self.table.shared.peek(0);
            if ticket < u64::MAX {
                let next = ticket + 1;
                let found = self
                    .table
                    .shared
                    .compare_exchange::<Draw>(seat, 0, ticket, next);
                if found == ticket {
                    return ticket;
                }
            }
            thread::yield_now();
        }
        unreachable!()
    }

    // Waits until the ticket is served. The seat then holds the machine.
    fn wait_for<R: Wait>(&self, rt: &R, seat: &mut Place<M>, ticket: u64)
        requires table { seat.old.table_id ≡ self.now.table.shared.table_id }
        requires waiting { (seat.old.me.0.stage ≡ Waiting ticket) × (seat.old.me.1 ≡ []) }
        ensures same { (seat.new.table_id ≡ seat.old.table_id) × (seat.new.id ≡ seat.old.id) }
        ensures holds { HoldsMachine M.history M.frame seat.old.me.0 ticket seat.new.me }
    {
        let mut patience = Patience::new();
        for _ in rt.forever() {
            let serving = self.table.shared.load::<Look>(seat, 1);
            if serving == ticket {
                return;
            }
            self.bells.wait(rt, ticket, serving, &mut patience);
        }
        unreachable!()
    }

    // Waits for the seat's turn, and takes the machine.
    fn take_machine<R: Wait>(&self, rt: &R, seat: &mut Place<M>) -> (u64, M)
        requires table { seat.old.table_id ≡ self.now.table.shared.table_id }
        requires idle { MayDraw seat.old.me }
        ensures same { (seat.new.table_id ≡ seat.old.table_id) × (seat.new.id ≡ seat.old.id) }
        ensures holds { IsServing M.history M.frame seat.old.me.0 result.0 result.1 None seat.new.me }
        ensures served { Served M.history M.frame seat.old.me.0 result.0 result.1 }
        ensures fits { result.0 + 1 < 2 ^ 64 }
    {
        self.stand_back();
        let ticket = self.draw(rt, seat);
        self.wait_for(rt, seat, ticket);
        let Some(machine) = self.table.shared.exchange(seat, 0, None) else {
            unreachable!()
        };
        (ticket, machine)
    }

    // Puts the machine back with the seat's call as its last, and hands the turn on.
    fn enter(&self, seat: &mut Place<M>, ticket: u64, machine: M, call: &Arc<M::Call>)
        requires of { IsAt M.frame self.now seat.old }
        requires frame { M.frame machine ≡ turn_frame M.frame self.now }
        requires entry { HasOneCallMore M.history seat.old.me.0 ticket call.now machine }
        requires hand { (seat.old.me.1 ≡ (0, None) ∷ []) × (ticket + 1 < 2 ^ 64) }
        ensures same { (seat.new.table_id ≡ seat.old.table_id) × (seat.new.id ≡ seat.old.id) }
        ensures after { seat.new.me ≡ (with_call seat.old.me.0 (M.history machine) call.now, []) }
    {
        self.table.shared.exchange(seat, 0, Some(machine));
        self.table.shared.store::<Enter>(seat, 1, ticket + 1);
        self.bells.ring(ticket + 1);
    }

    // Puts the machine back as it was, and hands the turn on.
    fn pass(&self, seat: &mut Place<M>, ticket: u64, machine: M)
        requires of { IsAt M.frame self.now seat.old }
        requires frame { M.frame machine ≡ turn_frame M.frame self.now }
        requires hand { MayPass M.history seat.old.me ticket machine }
        ensures same { (seat.new.table_id ≡ seat.old.table_id) × (seat.new.id ≡ seat.old.id) }
        ensures after { seat.new.me ≡ (record seat.old.me.0 { stage = Idle }, []) }
    {
        self.table.shared.exchange(seat, 0, Some(machine));
        self.table.shared.store::<Pass>(seat, 1, ticket + 1);
        self.bells.ring(ticket + 1);
    }
}
