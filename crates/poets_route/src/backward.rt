//! From ways of a residual to ways of the contract.
ghost use Rattle.std.specs.Prelude.{◌≡◌, ◌<◌, length, map};
ghost use Rattle.poets_expr.specs.Expression.{expression_of};
ghost use Rattle.poets_syntax.specs.Contract.{contract_of, App, Par, Plus, Seq, Success};
ghost use Rattle.poets_syntax.specs.Replace.{replace};
ghost use Rattle.poets_syntax.specs.Givens.{event_givens};
ghost use Rattle.poets_calculus.specs.InStudied.{after_in};
ghost use Rattle.poets_way.specs.Trails.{way_at};
ghost use Rattle.poets_way.specs.Way.{Nothing};
ghost use Rattle.poets_route.specs.Explained.{DeclaredIn, FormedIn};
ghost use Rattle.poets_route.specs.code.Back.{BacksBodyIn, BacksIn, BacksWholeIn, BeginsIn, ByFirstIn, BySecondIn};
ghost use Rattle.poets_route.specs.code.Back.{IsReadyIn};
ghost use Rattle.poets_route.specs.code.Choices.{Embeds};
ghost use Rattle.poets_route.specs.code.Making.{Gives, GivesTwo};
ghost use Rattle.poets_route.specs.code.Undone.{IsFormedIn, UndoesIn};

use crate::bodies::{continued, unfolded};
use crate::chosen::{chosen, embedded, front, is_beside, is_done, start};
use crate::endings::ended;
use crate::grouping::beside;
use crate::normalizing::{after, is_left, normal_of};
use crate::reading::{both_of, then_of};
use crate::sides::{all_of, shares};
use crate::undoing::{undone, undone_one};
use poets_expr::Expr;
use poets_meaning::Studied;
use poets_residue::may_end;
use poets_syntax::{Binders, Term};
use poets_value::{Event, Memory, Name};
use poets_way::Trails;
use std::alloc::Global;

/// A way of a contract by an event and then so many events, from a way of its residual by these. What is no such way
/// stays as it is, here and below.
#[cycle(back)]
pub(crate) fn back(
    alloc: Global,
    studied: &Studied,
    event: &Event,
    term: &Term,
    whole: &Term,
    trails: &mut Trails,
    way: usize,
    events: u64,
) -> Result<usize, Memory>
    requires event { DeclaredIn studied.now event.now }
    requires ready { IsReadyIn studied.now (contract_of term.now) }
    requires way { way < length trails.old.ways }
    requires room { events < u64.MAX }
    ensures { let old = trails.old in Gives old trails.new result
        (BacksWholeIn studied.now event.now events (contract_of term.now) (contract_of whole.now)
        (way_at old way)) }
{
    let (goal, part) = chosen(whole, trails, way);
    back_one(alloc, studied, event, term, goal, trails, part, events)
}

// A way of a contract, from a way of an alternative of its residual.
#[cycle(back)]
fn back_one(
    alloc: Global,
    studied: &Studied,
    event: &Event,
    term: &Term,
    goal: &Term,
    trails: &mut Trails,
    way: usize,
    events: u64,
) -> Result<usize, Memory>
    requires event { DeclaredIn studied.now event.now }
    requires ready { IsReadyIn studied.now (contract_of term.now) }
    requires way { way < length trails.old.ways }
    requires room { events < u64.MAX }
    ensures { let old = trails.old in Gives old trails.new result
        (BacksIn studied.now event.now events (contract_of term.now) (contract_of goal.now) (way_at old way)) }
{
    match term {
        Term::Success | Term::Failure => Ok(way),
        Term::Transmit { binders, then, .. } => {
            let part = from_continuation(
                alloc, studied, event, binders, then, goal, trails, way, events,
            )?;
            trails.take(part)
        }
        Term::Plus(a, b) => back_plus(alloc, studied, event, a, b, goal, trails, way, events),
        Term::Par(a, b) => back_par(alloc, studied, event, a, b, goal, trails, way, events),
        Term::Seq(a, b) => back_seq(alloc, studied, event, a, b, goal, trails, way, events),
        Term::App { name, args } => {
            let args = args.as_slice();
            back_app(
                alloc, studied, event, *name, args, goal, trails, way, events,
            )
        }
    }
}

// A way of the continuation of a transmission that took the event, from a way of an alternative of its normal form.
fn from_continuation(
    alloc: Global,
    studied: &Studied,
    event: &Event,
    binders: &Binders,
    then: &Term,
    goal: &Term,
    trails: &mut Trails,
    way: usize,
    events: u64,
) -> Result<usize, Memory>
    requires event { DeclaredIn studied.now event.now }
    requires formed { FormedIn studied.now (contract_of then.now) }
    requires way { way < length trails.old.ways }
    ensures { let old = trails.old in Gives old trails.new result
        (UndoesIn studied.now events (replace (event_givens binders.now event.now) (contract_of then.now))
        (contract_of goal.now) (way_at old way)) }
{
    let then = continued(alloc, binders, event, then)?;
    undone_one(alloc, studied, &then, goal, trails, way, events)
}

// Of a choice.
#[cycle(back)]
fn back_plus(
    alloc: Global,
    studied: &Studied,
    event: &Event,
    a: &Term,
    b: &Term,
    goal: &Term,
    trails: &mut Trails,
    way: usize,
    events: u64,
) -> Result<usize, Memory>
    requires event { DeclaredIn studied.now event.now }
    requires ready { IsReadyIn studied.now (Plus (contract_of a.now) (contract_of b.now)) }
    requires way { way < length trails.old.ways }
    requires room { events < u64.MAX }
    ensures { let old = trails.old in Gives old trails.new result
        (BacksIn studied.now event.now events (Plus (contract_of a.now) (contract_of b.now))
        (contract_of goal.now) (way_at old way)) }
{
    if is_left(alloc, studied, event, b, goal)? {
        let part = back_one(alloc, studied, event, b, goal, trails, way, events)?;
        return trails.right(part);
    }
    let part = back_one(alloc, studied, event, a, goal, trails, way, events)?;
    trails.left(part)
}

// Of two contracts side by side.
#[cycle(back)]
fn back_par(
    alloc: Global,
    studied: &Studied,
    event: &Event,
    a: &Term,
    b: &Term,
    goal: &Term,
    trails: &mut Trails,
    way: usize,
    events: u64,
) -> Result<usize, Memory>
    requires event { DeclaredIn studied.now event.now }
    requires ready { IsReadyIn studied.now (Par (contract_of a.now) (contract_of b.now)) }
    requires way { way < length trails.old.ways }
    requires room { events < u64.MAX }
    ensures { let old = trails.old in Gives old trails.new result
        (BacksIn studied.now event.now events (Par (contract_of a.now) (contract_of b.now))
        (contract_of goal.now) (way_at old way)) }
{
    let after_b = after(alloc, studied, event, b)?;
    if is_beside(a, &after_b, goal) {
        return by_second(
            alloc, studied, event, a, b, &after_b, goal, trails, way, events,
        );
    }
    by_first(alloc, studied, event, a, b, goal, trails, way, events)
}

// A way of a contract by the event alone, which leaves `Success`, and a way of another, from one of its alternative.
#[cycle(back)]
fn back_over(
    alloc: Global,
    studied: &Studied,
    event: &Event,
    over: &Term,
    other: &Term,
    goal: &Term,
    trails: &mut Trails,
    way: usize,
) -> Result<(usize, usize), Memory>
    requires event { DeclaredIn studied.now event.now }
    requires ready { IsReadyIn studied.now (contract_of over.now) }
    requires way { way < length trails.old.ways }
    ensures { let old = trails.old in GivesTwo old trails.new result
        (BacksIn studied.now event.now 0 (contract_of over.now) Success Nothing)
        (Embeds (contract_of other.now) (contract_of goal.now) (way_at old way)) }
{
    let second = embedded(other, goal, trails, way)?;
    let nothing = trails.nothing()?;
    let done = Term::Success;
    let first = back_one(alloc, studied, event, over, &done, trails, nothing, 0)?;
    Ok((first, second))
}

// Of two contracts side by side, the second one took the event. Its residual is at hand.
#[cycle(back)]
fn by_second(
    alloc: Global,
    studied: &Studied,
    event: &Event,
    a: &Term,
    b: &Term,
    after_b: &Term,
    goal: &Term,
    trails: &mut Trails,
    way: usize,
    events: u64,
) -> Result<usize, Memory>
    requires event { DeclaredIn studied.now event.now }
    requires ready { IsReadyIn studied.now (Par (contract_of a.now) (contract_of b.now)) }
    requires after { contract_of after_b.now ≡ after_in studied.now event.now (contract_of b.now) }
    requires way { way < length trails.old.ways }
    requires room { events < u64.MAX }
    ensures { let old = trails.old in Gives old trails.new result
        (BySecondIn studied.now event.now events (contract_of a.now) (contract_of b.now)
        (contract_of goal.now) (way_at old way)) }
{
    if is_done(after_b) {
        let (second, first) = back_over(alloc, studied, event, b, a, goal, trails, way)?;
        let rest = all_of(trails, events, false)?;
        let sides = trails.side(true, rest)?;
        return trails.both(sides, first, second);
    }
    let parted = beside(alloc, after_b, trails, way)?;
    let Some((rest, first, second)) = both_of(trails, parted) else {
        return Ok(parted);
    };
    let (_, seconds) = shares(trails, rest, events);
    let second = back(alloc, studied, event, b, after_b, trails, second, seconds)?;
    let whose = trails.side(true, rest)?;
    trails.both(whose, first, second)
}

// Of two contracts side by side, the first one took the event.
#[cycle(back)]
fn by_first(
    alloc: Global,
    studied: &Studied,
    event: &Event,
    a: &Term,
    b: &Term,
    goal: &Term,
    trails: &mut Trails,
    way: usize,
    events: u64,
) -> Result<usize, Memory>
    requires event { DeclaredIn studied.now event.now }
    requires ready { IsReadyIn studied.now (Par (contract_of a.now) (contract_of b.now)) }
    requires way { way < length trails.old.ways }
    requires room { events < u64.MAX }
    ensures { let old = trails.old in Gives old trails.new result
        (ByFirstIn studied.now event.now events (contract_of a.now) (contract_of b.now)
        (contract_of goal.now) (way_at old way)) }
{
    let Some(after_a) = front(goal, b) else {
        let (first, second) = back_over(alloc, studied, event, a, b, goal, trails, way)?;
        let rest = all_of(trails, events, true)?;
        let sides = trails.side(false, rest)?;
        return trails.both(sides, first, second);
    };
    let parted = beside(alloc, b, trails, way)?;
    let Some((rest, first, second)) = both_of(trails, parted) else {
        return Ok(parted);
    };
    let (firsts, _) = shares(trails, rest, events);
    let first = back(alloc, studied, event, a, after_a, trails, first, firsts)?;
    let sides = trails.side(false, rest)?;
    trails.both(sides, first, second)
}

// Of a sequence.
#[cycle(back)]
fn back_seq(
    alloc: Global,
    studied: &Studied,
    event: &Event,
    a: &Term,
    b: &Term,
    goal: &Term,
    trails: &mut Trails,
    way: usize,
    events: u64,
) -> Result<usize, Memory>
    requires event { DeclaredIn studied.now event.now }
    requires ready { IsReadyIn studied.now (Seq (contract_of a.now) (contract_of b.now)) }
    requires way { way < length trails.old.ways }
    requires room { events < u64.MAX }
    ensures { let old = trails.old in Gives old trails.new result
        (BacksIn studied.now event.now events (Seq (contract_of a.now) (contract_of b.now))
        (contract_of goal.now) (way_at old way)) }
{
    if !may_end(studied, a) {
        return begun(alloc, studied, event, a, b, goal, trails, way, events);
    }
    if !is_left(alloc, studied, event, b, goal)? {
        return begun(alloc, studied, event, a, b, goal, trails, way, events);
    }
    let first = ended(studied, a, trails)?;
    let second = back_one(alloc, studied, event, b, goal, trails, way, events)?;
    trails.then(0, first, second)
}

// Of a sequence, the first part took the event.
#[cycle(back)]
fn begun(
    alloc: Global,
    studied: &Studied,
    event: &Event,
    a: &Term,
    b: &Term,
    goal: &Term,
    trails: &mut Trails,
    way: usize,
    events: u64,
) -> Result<usize, Memory>
    requires event { DeclaredIn studied.now event.now }
    requires ready { IsReadyIn studied.now (Seq (contract_of a.now) (contract_of b.now)) }
    requires way { way < length trails.old.ways }
    requires room { events < u64.MAX }
    ensures { let old = trails.old in Gives old trails.new result
        (BeginsIn studied.now event.now events (contract_of a.now) (contract_of b.now) (contract_of goal.now)
        (way_at old way)) }
{
    let Some(after_a) = start(goal, b) else {
        let (first, second) = back_over(alloc, studied, event, a, b, goal, trails, way)?;
        return trails.then(1, first, second);
    };
    let Some((count, first, second)) = then_of(trails, way, events) else {
        return Ok(way);
    };
    let first = back(alloc, studied, event, a, after_a, trails, first, count)?;
    trails.then(count + 1, first, second)
}

// Of an application.
#[cycle(back)]
fn back_app(
    alloc: Global,
    studied: &Studied,
    event: &Event,
    name: Name,
    args: &[Expr],
    goal: &Term,
    trails: &mut Trails,
    way: usize,
    events: u64,
) -> Result<usize, Memory>
    requires event { DeclaredIn studied.now event.now }
    requires ready { IsReadyIn studied.now (App name (map expression_of args.now)) }
    requires way { way < length trails.old.ways }
    requires room { events < u64.MAX }
    ensures { let old = trails.old in Gives old trails.new result
        (BacksIn studied.now event.now events (App name (map expression_of args.now)) (contract_of goal.now)
        (way_at old way)) }
{
    let Some((template, _)) = studied.template(name) else {
        return Ok(way);
    };
    let body = unfolded(alloc, studied, template, args)?;
    let part = back_body(alloc, studied, event, &body, goal, trails, way, events)?;
    trails.enter(part)
}

// Of a body, from a way of an alternative of the residual of its normal form.
#[cycle(back)]
fn back_body(
    alloc: Global,
    studied: &Studied,
    event: &Event,
    body: &Term,
    goal: &Term,
    trails: &mut Trails,
    way: usize,
    events: u64,
) -> Result<usize, Memory>
    requires event { DeclaredIn studied.now event.now }
    requires formed { IsFormedIn studied.now (contract_of body.now) }
    requires way { way < length trails.old.ways }
    requires room { events < u64.MAX }
    ensures { let old = trails.old in Gives old trails.new result
        (BacksBodyIn studied.now event.now events (contract_of body.now) (contract_of goal.now)
        (way_at old way)) }
{
    let start = normal_of(alloc, studied, body)?;
    let part = back_one(alloc, studied, event, &start, goal, trails, way, events)?;
    undone(alloc, studied, body, &start, trails, part, events + 1)
}
