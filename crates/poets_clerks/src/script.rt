//! The script of one clerk.
ghost use Rattle.std.specs.Prelude.{◌≡◌, false, All};
ghost use mathlib.Core.List.{IsPrefix};
ghost use Rattle.std.specs.Arc.{arc_value};
ghost use Rattle.poets_turn.specs.Clerks.{front, number, turn_frame, IsClerkOf};
ghost use Rattle.poets_clerks.specs.code.Made.{Answered, MadeAll, MadeCall, MadePart};

use crate::answers::{Done, DoneOf};
use crate::gate::Gate;
use poets_machine::Machine;
use poets_turn::{Clerk, Turn};
use poets_value::{List, Memory};
use std::alloc::Global;
use std::sync::{Arc, Wait};
use std::thread::Threads;

// Makes one call, which is the nth of its clerk.
fn answer<M: Machine, G: Gate, R: Threads + Wait + Sync>(
    rt: &R,
    alloc: Global,
    turn: &Turn<M>,
    clerk: &mut Clerk<M>,
    call: &Arc<M::Call>,
    gate: &G,
    nth: u64,
) -> Result<Done<M>, Memory>
    requires of { IsClerkOf M.frame turn.now clerk.old }
    requires takes { M.takes (turn_frame M.frame turn.now) (arc_value call.now) }
    ensures of { IsClerkOf M.frame turn.now clerk.new }
    ensures number { number clerk.new ≡ number clerk.old }
    ensures made { MadeCall M.frame M.answers turn.now call.now result clerk.old clerk.new }
{
    let who = clerk.number();
    gate.before(who, nth);
    let kept = turn.call(rt, alloc, clerk, call)?;
    gate.outside(who, nth);
    let place = M::place(&kept);
    let reply = M::finish(rt, alloc, kept)?;
    gate.after(who, nth);
    Ok(DoneOf { place, reply })
}

// Makes the calls of a script in order, until memory runs out, as the second part of the result then says.
pub(crate) fn make_script<M: Machine, G: Gate, R: Threads + Wait + Sync>(
    rt: &R,
    alloc: Global,
    turn: &Turn<M>,
    clerk: &mut Clerk<M>,
    script: &[Arc<M::Call>],
    gate: &G,
) -> (List<Done<M>>, bool)
    requires of { IsClerkOf M.frame turn.now clerk.old }
    requires takes { All (λ c. M.takes (turn_frame M.frame turn.now) (arc_value c)) script.now }
    ensures of { IsClerkOf M.frame turn.now clerk.new }
    ensures number { number clerk.new ≡ number clerk.old }
    ensures longer { IsPrefix (front clerk.old) (front clerk.new) }
    ensures answered { Answered M.frame M.answers turn.now script.now result.0 clerk.old clerk.new }
    ensures whole { result.1 ≡ false → MadeAll script.now result.0 clerk.old clerk.new }
    ensures part { MadePart script.now result.0 clerk.old clerk.new }
{
    let mut done = List::new(alloc);
    if done.reserve(script.len()).is_err() {
        return (done, true);
    }
    for i in 0..script.len() {
        match answer(rt, alloc, turn, clerk, &script[i], gate, i as u64 + 1) {
            Ok(d) => {
                let Ok(()) = done.push(d) else { unreachable!() };
            }
            Err(_) => return (done, true),
        }
    }
    (done, false)
}
