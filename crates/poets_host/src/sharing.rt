//! Two clerks share an engine.
ghost use Rattle.std.specs.Prelude.{◌≡◌, ◌+◌, ◌≤◌, ◌⊎◌, [], IfOk, OnErr};
ghost use Rattle.std.specs.Arc.{arc_value};
ghost use mathlib.Core.List.{IsPrefix};
ghost use Rattle.poets_command.specs.Calls.{command_of};
ghost use Rattle.poets_engine.specs.Takes.{IsTakenBy};
ghost use Rattle.poets_turn.specs.Clerks.{IsClerkOf, SawNoMore, clerk_count, number, turn_frame};
ghost use Rattle.poets_host.specs.Pairs.{AreRightReplies, pair_of};
ghost use Rattle.poets_host.specs.code.Sharing.{Asked, Called, Closes, IsPair, MadeBoth, MadePart, rules_of};

use poets_command::{Command, Reply};
use poets_engine::Engine;
use poets_machine::Machine;
use poets_turn::{Clerk, Turn};
use poets_value::{List, Memory};
use std::alloc::Global;
use std::sync::{Arc, Wait};
use std::thread::Threads;

/// Two clerks call a new engine at a turnstile. The first makes its call, and tells the second of it by a note; then
/// the second makes its own. At the end both leave, and the engine comes back, even if memory ran out.
pub fn share<R: Threads + Wait + Sync>(
    rt: &R,
    alloc: Global,
    engine: Engine,
    first: &Arc<Command>,
    second: &Arc<Command>,
) -> (Engine, Result<(Reply, Reply), Memory>)
    requires new { engine.calls ≡ [] }
    requires first { IsTakenBy engine.rules (command_of (arc_value first.now)) }
    requires second { IsTakenBy engine.rules (command_of (arc_value second.now)) }
    ensures calls { IfOk result.1 (λ _. result.0.calls ≡ pair_of first.now second.now) }
    ensures part { IsPrefix result.0.calls (pair_of first.now second.now) }
    ensures right { IfOk result.1 (AreRightReplies engine.rules first.now second.now) }
    ensures rules { result.0.rules ≡ engine.rules }
{
    let (turn, mut clerks) = match Turn::start(alloc, engine, 2) {
        Ok(started) => started,
        Err(engine) => return (engine, Err(Memory)),
    };
    let Some(mut two) = clerks.pop() else {
        unreachable!()
    };
    let Some(mut one) = clerks.pop() else {
        unreachable!()
    };
    let replies = in_turn(rt, alloc, &turn, &mut one, &mut two, first, second);
    (closed(turn, clerks, one, two), replies)
}

// The calls of two clerks that made none yet, one after the other.
fn in_turn<R: Threads + Wait + Sync>(
    rt: &R,
    alloc: Global,
    turn: &Turn<Engine>,
    one: &mut Clerk<Engine>,
    two: &mut Clerk<Engine>,
    first: &Arc<Command>,
    second: &Arc<Command>,
) -> Result<(Reply, Reply), Memory>
    requires new { IsPair turn.now one.old two.old }
    requires first { IsTakenBy (turn_frame rules_of turn.now) (command_of (arc_value first.now)) }
    requires second { IsTakenBy (turn_frame rules_of turn.now) (command_of (arc_value second.now)) }
    ensures one { IsClerkOf rules_of turn.now one.new × (number one.new ≡ 1) }
    ensures two { IsClerkOf rules_of turn.now two.new × (number two.new ≡ 2) }
    ensures both { IfOk result (MadeBoth (turn_frame rules_of turn.now) first.now second.now one.new two.new) }
    ensures part { MadePart first.now second.now one.new two.new }
{
    let reply = ask(rt, alloc, turn, one, first)?;
    let note = turn.note(one);
    turn.hear(two, note);
    let next = ask(rt, alloc, turn, two, second)?;
    Ok((reply, next))
}

// One call of a clerk, and its reply.
fn ask<R: Threads + Wait + Sync>(
    rt: &R,
    alloc: Global,
    turn: &Turn<Engine>,
    clerk: &mut Clerk<Engine>,
    command: &Arc<Command>,
) -> Result<Reply, Memory>
    requires of { IsClerkOf rules_of turn.now clerk.old }
    requires taken { IsTakenBy (turn_frame rules_of turn.now) (command_of (arc_value command.now)) }
    ensures of { IsClerkOf rules_of turn.now clerk.new }
    ensures number { number clerk.new ≡ number clerk.old }
    ensures made { IfOk result (Asked (turn_frame rules_of turn.now) command.now clerk.old clerk.new) }
    ensures memory { OnErr result (SawNoMore clerk.old clerk.new ⊎ Called command.now clerk.old clerk.new) }
{
    let kept = turn.call(rt, alloc, clerk, command)?;
    Engine::finish(rt, alloc, kept)
}

// Ends the turnstile with its clerks. The list has room for them.
fn closed(
    turn: Turn<Engine>,
    mut clerks: List<Clerk<Engine>>,
    one: Clerk<Engine>,
    two: Clerk<Engine>,
) -> Engine
    requires room { (clerks.items ≡ []) × (2 ≤ clerks.room) }
    requires count { clerk_count turn ≡ 2 }
    requires one { IsClerkOf rules_of turn one × (number one ≡ 1) }
    requires two { IsClerkOf rules_of turn two × (number two ≡ 2) }
    ensures clerks { Closes one two result }
    ensures rules { result.rules ≡ turn_frame rules_of turn }
{
    let Ok(()) = clerks.push(one) else {
        unreachable!()
    };
    let Ok(()) = clerks.push(two) else {
        unreachable!()
    };
    turn.close(clerks)
}
