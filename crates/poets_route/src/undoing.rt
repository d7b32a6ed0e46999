//! From ways of a normal form to ways of the contract.
ghost use Rattle.std.specs.Prelude.{◌≡◌, ◌≢◌, ◌<◌, length};
ghost use Rattle.poets_syntax.specs.Contract.{contract_of, Par, Plus, Seq, Success};
ghost use Rattle.poets_calculus.specs.InStudied.{normal_in};
ghost use Rattle.poets_norm.specs.code.Grouping.{beside_parts};
ghost use Rattle.poets_way.specs.Trails.{way_at};
ghost use Rattle.poets_way.specs.Way.{Nothing};
ghost use Rattle.poets_route.specs.code.Making.{Gives, GivesTwo};
ghost use Rattle.poets_route.specs.Explained.{FormedIn};
ghost use Rattle.poets_route.specs.code.Undone.{UndoesIn, UndoesWholeIn};

use crate::chosen::{chosen, front, is_done, start};
use crate::grouping::beside;
use crate::normalizing::{is_of_normal, normal_of};
use crate::reading::{both_of, take_of, then_of};
use crate::sides::{all_of, shares};
use poets_meaning::Studied;
use poets_syntax::Term;
use poets_value::Memory;
use poets_way::Trails;
use std::alloc::Global;

/// A way of a contract, from a way of its normal form by so many events. What is no such way stays as it is, here and
/// below.
#[cycle(undone)]
pub(crate) fn undone(
    alloc: Global,
    studied: &Studied,
    term: &Term,
    whole: &Term,
    trails: &mut Trails,
    way: usize,
    events: u64,
) -> Result<usize, Memory>
    requires formed { FormedIn studied.now (contract_of term.now) }
    requires way { way < length trails.old.ways }
    ensures { let old = trails.old in Gives old trails.new result
        (UndoesWholeIn studied.now events (contract_of term.now) (contract_of whole.now) (way_at old way)) }
{
    let (goal, part) = chosen(whole, trails, way);
    undone_one(alloc, studied, term, goal, trails, part, events)
}

/// A way of a contract, from a way of an alternative of its normal form by so many events.
#[cycle(undone)]
pub(crate) fn undone_one(
    alloc: Global,
    studied: &Studied,
    term: &Term,
    goal: &Term,
    trails: &mut Trails,
    way: usize,
    events: u64,
) -> Result<usize, Memory>
    requires formed { FormedIn studied.now (contract_of term.now) }
    requires way { way < length trails.old.ways }
    ensures { let old = trails.old in Gives old trails.new result
        (UndoesIn studied.now events (contract_of term.now) (contract_of goal.now) (way_at old way)) }
{
    match term {
        Term::Success | Term::Failure | Term::App { .. } => Ok(way),
        Term::Transmit { then, .. } => {
            let Term::Transmit { then: whole, .. } = goal else {
                return Ok(way);
            };
            let Some(part) = take_of(trails, way) else {
                return Ok(way);
            };
            let rest = events.saturating_sub(1);
            let part = undone(alloc, studied, then, whole, trails, part, rest)?;
            trails.take(part)
        }
        Term::Plus(a, b) => undone_plus(alloc, studied, a, b, goal, trails, way, events),
        Term::Par(a, b) => undone_par(alloc, studied, a, b, goal, trails, way, events),
        Term::Seq(a, b) => undone_seq(alloc, studied, a, b, goal, trails, way, events),
    }
}

// The same of a choice.
#[cycle(undone)]
fn undone_plus(
    alloc: Global,
    studied: &Studied,
    a: &Term,
    b: &Term,
    goal: &Term,
    trails: &mut Trails,
    way: usize,
    events: u64,
) -> Result<usize, Memory>
    requires formed { FormedIn studied.now (Plus (contract_of a.now) (contract_of b.now)) }
    requires way { way < length trails.old.ways }
    ensures { let old = trails.old in Gives old trails.new result
        (UndoesIn studied.now events (Plus (contract_of a.now) (contract_of b.now)) (contract_of goal.now)
        (way_at old way)) }
{
    if is_of_normal(alloc, studied, b, goal)? {
        let part = undone_one(alloc, studied, b, goal, trails, way, events)?;
        return trails.right(part);
    }
    let part = undone_one(alloc, studied, a, goal, trails, way, events)?;
    trails.left(part)
}

// A way of a contract, as above, and one of the empty trace of another, whose normal form is `Success`.
#[cycle(undone)]
fn undone_over(
    alloc: Global,
    studied: &Studied,
    term: &Term,
    over: &Term,
    goal: &Term,
    trails: &mut Trails,
    way: usize,
    events: u64,
) -> Result<(usize, usize), Memory>
    requires formed { FormedIn studied.now (contract_of term.now) }
    requires over { FormedIn studied.now (contract_of over.now) }
    requires way { way < length trails.old.ways }
    ensures { let old = trails.old in GivesTwo old trails.new result
        (UndoesIn studied.now events (contract_of term.now) (contract_of goal.now) (way_at old way))
        (UndoesIn studied.now 0 (contract_of over.now) Success Nothing) }
{
    let first = undone_one(alloc, studied, term, goal, trails, way, events)?;
    let nothing = trails.nothing()?;
    let second = undone_one(alloc, studied, over, &Term::Success, trails, nothing, 0)?;
    Ok((first, second))
}

// The same of two contracts side by side.
#[cycle(undone)]
fn undone_par(
    alloc: Global,
    studied: &Studied,
    a: &Term,
    b: &Term,
    goal: &Term,
    trails: &mut Trails,
    way: usize,
    events: u64,
) -> Result<usize, Memory>
    requires formed { FormedIn studied.now (Par (contract_of a.now) (contract_of b.now)) }
    requires way { way < length trails.old.ways }
    ensures { let old = trails.old in Gives old trails.new result
        (UndoesIn studied.now events (Par (contract_of a.now) (contract_of b.now)) (contract_of goal.now)
        (way_at old way)) }
{
    let whole = normal_of(alloc, studied, b)?;
    if is_done(&whole) {
        let (first, second) = undone_over(alloc, studied, a, b, goal, trails, way, events)?;
        let sides = all_of(trails, events, false)?;
        return trails.both(sides, first, second);
    }
    if let Some(rest) = front(goal, &whole) {
        return undone_both(alloc, studied, a, b, rest, &whole, trails, way, events);
    }
    let (second, first) = undone_over(alloc, studied, b, a, goal, trails, way, events)?;
    let sides = all_of(trails, events, true)?;
    trails.both(sides, first, second)
}

// The same of two contracts side by side that both go on. Their normal forms are at hand.
#[cycle(undone)]
fn undone_both(
    alloc: Global,
    studied: &Studied,
    a: &Term,
    b: &Term,
    whole_a: &Term,
    whole_b: &Term,
    trails: &mut Trails,
    way: usize,
    events: u64,
) -> Result<usize, Memory>
    requires formed { FormedIn studied.now (Par (contract_of a.now) (contract_of b.now)) }
    requires way { way < length trails.old.ways }
    requires whole { contract_of whole_b.now ≡ normal_in studied.now (contract_of b.now) }
    requires unfinished { contract_of whole_b.now ≢ Success }
    ensures { let old = trails.old in Gives old trails.new result
        (UndoesIn studied.now events (Par (contract_of a.now) (contract_of b.now))
        (beside_parts (contract_of whole_a.now) (contract_of whole_b.now)) (way_at old way)) }
{
    let parted = beside(alloc, whole_b, trails, way)?;
    let Some((sides, first, second)) = both_of(trails, parted) else {
        return Ok(parted);
    };
    let (firsts, seconds) = shares(trails, sides, events);
    let first = undone(alloc, studied, a, whole_a, trails, first, firsts)?;
    let second = undone(alloc, studied, b, whole_b, trails, second, seconds)?;
    trails.both(sides, first, second)
}

// The same of a sequence.
#[cycle(undone)]
fn undone_seq(
    alloc: Global,
    studied: &Studied,
    a: &Term,
    b: &Term,
    goal: &Term,
    trails: &mut Trails,
    way: usize,
    events: u64,
) -> Result<usize, Memory>
    requires formed { FormedIn studied.now (Seq (contract_of a.now) (contract_of b.now)) }
    requires way { way < length trails.old.ways }
    ensures { let old = trails.old in Gives old trails.new result
        (UndoesIn studied.now events (Seq (contract_of a.now) (contract_of b.now)) (contract_of goal.now)
        (way_at old way)) }
{
    let whole = normal_of(alloc, studied, b)?;
    if is_done(&whole) {
        let (first, second) = undone_over(alloc, studied, a, b, goal, trails, way, events)?;
        return trails.then(events, first, second);
    }
    if let Some(rest) = start(goal, &whole) {
        return undone_then(alloc, studied, a, b, rest, &whole, trails, way, events);
    }
    let (second, first) = undone_over(alloc, studied, b, a, goal, trails, way, events)?;
    trails.then(0, first, second)
}

// The same of a sequence whose parts both go on. Their normal forms are at hand.
#[cycle(undone)]
fn undone_then(
    alloc: Global,
    studied: &Studied,
    a: &Term,
    b: &Term,
    whole_a: &Term,
    whole_b: &Term,
    trails: &mut Trails,
    way: usize,
    events: u64,
) -> Result<usize, Memory>
    requires formed { FormedIn studied.now (Seq (contract_of a.now) (contract_of b.now)) }
    requires way { way < length trails.old.ways }
    requires whole { contract_of whole_b.now ≡ normal_in studied.now (contract_of b.now) }
    requires unfinished { contract_of whole_b.now ≢ Success }
    ensures { let old = trails.old in Gives old trails.new result
        (UndoesIn studied.now events (Seq (contract_of a.now) (contract_of b.now))
        (Seq (contract_of whole_a.now) (contract_of whole_b.now)) (way_at old way)) }
{
    let Some((count, first, second)) = then_of(trails, way, events) else {
        return Ok(way);
    };
    let first = undone(alloc, studied, a, whole_a, trails, first, count)?;
    let second = undone(alloc, studied, b, whole_b, trails, second, events - count)?;
    trails.then(count, first, second)
}
