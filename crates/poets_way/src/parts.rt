//! What parts of contracts have: the values of their names, and their events.
ghost use Rattle.std.specs.Prelude.{◌≡◌, ◌≤◌, ◌+◌, ◌++◌, IfOk, OnOk, length, reverse};
ghost use Rattle.poets_syntax.specs.Book.{taken};
ghost use Rattle.poets_way.specs.Ways.{first_of};
ghost use Rattle.poets_way.specs.code.Goals.{AreParameters, ArePartedBy, holds_under};

use poets_expr::{Asks, Env, Expr, eval};
use poets_syntax::{Binders, Param};
use poets_value::{Event, List, Memory, Name, Value, push};
use std::alloc::Global;

/// The pairs of the parameters alone: each has the value of its argument.
pub(crate) fn parameters(
    alloc: Global,
    env: &Env,
    params: &[Param],
    args: &[Expr],
) -> Result<List<(Name, Option<Value>)>, Memory>
    ensures { IfOk result (λ r. AreParameters env.now params.now args.now r.items) }
{
    let mut asks = Asks::new(());
    let mut pairs = List::new(alloc);
    for (param, arg) in params.iter().zip(args) {
        let value = eval(env, arg, &mut asks);
        push(&mut pairs, (param.name, value))?;
    }
    Ok(pairs)
}

/// Adds the pairs of a transmit that takes the event.
pub(crate) fn bind(
    pairs: &mut List<(Name, Option<Value>)>,
    binders: &Binders,
    event: &Event,
) -> Result<(), Memory>
    ensures { OnOk result (reverse pairs.new.items ≡ taken binders.now event.now (reverse pairs.old.items)) }
{
    push(pairs, (binders.sender, Some(Value::Agent(event.sender))))?;
    push(
        pairs,
        (binders.receiver, Some(Value::Agent(event.receiver))),
    )?;
    push(pairs, (binders.what, Some(Value::Resource(event.what))))?;
    push(pairs, (binders.day, Some(Value::Day(event.day))))
}

/// Whether the predicate is true.
pub(crate) fn holds(env: &Env, when: &Expr) -> bool
    ensures { result ≡ holds_under env.now when.now }
{
    let mut asks = Asks::new(());
    match eval(env, when, &mut asks) {
        Some(Value::Bool(answer)) => answer,
        _ => false,
    }
}

/// The same pairs in another list.
pub(crate) fn copied(
    alloc: Global,
    pairs: &[(Name, Option<Value>)],
) -> Result<List<(Name, Option<Value>)>, Memory>
    ensures { IfOk result (λ r. r.items ≡ pairs.now) }
{
    let mut copy = List::new(alloc);
    for pair in pairs {
        push(&mut copy, *pair)?;
    }
    Ok(copy)
}

// Adds the events in front of the others, of which the next one is the last.
fn give_back(left: &mut List<Event>, events: List<Event>) -> Result<(), Memory>
    ensures events { OnOk result (reverse left.new.items ≡ events.items ++ reverse left.old.items) }
    ensures count { OnOk result (length left.new.items ≡ length events.items + length left.old.items) }
{
    let mut events = events;
    while let Some(event) = events.pop() {
        push(left, event)?;
    }
    Ok(())
}

/// The events with the next one last.
pub(crate) fn turned(alloc: Global, events: &[Event]) -> Result<List<Event>, Memory>
    ensures { IfOk result (λ r. reverse r.items ≡ events.now) }
{
    let mut copy = List::new(alloc);
    for event in events {
        push(&mut copy, *event)?;
    }
    let mut left = List::new(alloc);
    give_back(&mut left, copy)?;
    Ok(left)
}

/// Puts those of the next events that are the first one's in front of those that are the second one's, where as many as
/// there are sides count. Gives the number of the first one's.
pub(crate) fn part(alloc: Global, left: &mut List<Event>, sides: &[bool]) -> Result<usize, Memory>
    requires { length sides.now ≤ length left.old.items }
    ensures events { OnOk result (ArePartedBy sides.now (reverse left.old.items) (reverse left.new.items)) }
    ensures count { IfOk result (λ n. n ≡ length (first_of sides.now (reverse left.old.items))) }
    ensures all { OnOk result (length left.new.items ≡ length left.old.items) }
{
    let mut first = List::new(alloc);
    let mut second = List::new(alloc);
    for side in sides {
        let Some(event) = left.pop() else {
            unreachable!();
        };
        if *side {
            push(&mut second, event)?;
        } else {
            push(&mut first, event)?;
        }
    }
    let count = first.len();
    give_back(left, second)?;
    give_back(left, first)?;
    Ok(count)
}
