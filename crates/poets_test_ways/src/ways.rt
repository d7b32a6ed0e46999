//! In which ways events perform contracts, worked out by hand.

use crate::contracts::{delivered, studied};
use crate::made::{long_way, way};
use crate::sentences::contract;
use poets_meaning::Studied;
use poets_value::{Event, List, Memory, push};
use poets_way::verify;
use std::alloc::Global;

const BOOK: [&str; 6] = [
    "agents ann, bob",
    "kinds Oil, USD",
    "template pay(n: Int) = transmit(a, b, r, t | amount(r) = n). Success",
    "template any() = Success + transmit(a, b, r, t | true). any()",
    // The second transmit hides the parameter.
    "template kept(r: Int) = transmit(a, b, x, t | amount(x) = r). transmit(a, b, r, t | amount(r) = 2). Success",
    "template owed() = transmit(a, b, r, t | b = bob). Success",
];

// A contract, the amounts of its events, a digit each, and a way without its brackets. In it `paid` stands for
// `enter take done`.
type Row<'a> = (&'a str, &'a str, &'a str);

const WAYS: [Row; 26] = [
    ("Success", "", "done"),
    (
        "transmit(a, b, r, t | amount(r) = 1). Success",
        "1",
        "take done",
    ),
    ("pay(1)", "1", "paid"),
    ("pay(1) + pay(2)", "1", "left paid"),
    ("pay(1) + pay(2)", "2", "right paid"),
    ("Success + pay(1)", "", "left done"),
    // A side for each event, in the order of the events.
    ("pay(1) || pay(2)", "12", "both LR paid paid"),
    ("pay(1) || pay(2)", "21", "both RL paid paid"),
    ("pay(1) || Success", "1", "both L paid done"),
    ("Success || Success", "", "both - done done"),
    // Of two alike parts either may take the first event.
    ("pay(1) || pay(1)", "11", "both LR paid paid"),
    ("pay(1) || pay(1)", "11", "both RL paid paid"),
    ("pay(1) ; pay(2)", "12", "then 1 paid paid"),
    ("Success ; pay(1)", "1", "then 0 done paid"),
    ("pay(1) ; Success", "1", "then 1 paid done"),
    // The events of a part keep their order.
    (
        "(pay(1) ; pay(2)) || pay(3)",
        "132",
        "both LRL then 1 paid paid paid",
    ),
    (
        "(pay(1) || pay(2)) ; pay(3)",
        "213",
        "then 2 both RL paid paid paid",
    ),
    ("any()", "", "enter left done"),
    ("any()", "5", "enter right take enter left done"),
    // An argument has its value where the application stands.
    (
        "transmit(a, b, r, t | true). pay(amount(r) + 1)",
        "12",
        "take paid",
    ),
    // Both parts know the event that was taken.
    (
        "transmit(a, b, r, t | true). (pay(amount(r)) || pay(amount(r) + 1))",
        "121",
        "take both RL paid paid",
    ),
    ("kept(5)", "52", "enter take take done"),
    // Of two transmits with one name the inner one counts.
    (
        "transmit(a, b, r, t | true). transmit(a, b, r, t | amount(r) = 2). Success",
        "12",
        "take take done",
    ),
    // An agent stands for himself, unless a transmit hides him.
    (
        "transmit(a, b, r, t | a = ann and b = bob). Success",
        "1",
        "take done",
    ),
    (
        "transmit(bob, b, r, t | bob = ann). Success",
        "1",
        "take done",
    ),
    // What is hidden where a template is applied is not hidden in its body.
    ("transmit(bob, b, r, t | true). owed()", "11", "take paid"),
];

const NO_WAYS: [Row; 34] = [
    // No event may be left over, and none may be wanting.
    ("Success", "1", "done"),
    ("pay(1)", "11", "paid"),
    ("pay(1)", "", "paid"),
    // The way is that of the contract.
    ("Failure", "", "done"),
    ("pay(1)", "1", "take done"),
    ("pay(1)", "1", "enter done"),
    ("pay(1)", "11", "enter take take done"),
    ("pay(1) || pay(2)", "12", "then 1 paid paid"),
    ("pay(1) ; pay(2)", "12", "both LR paid paid"),
    // A predicate does not hold.
    ("pay(1)", "2", "paid"),
    ("pay(1) + pay(2)", "1", "right paid"),
    ("Success + pay(1)", "1", "left done"),
    ("pay(1) || pay(2)", "12", "both RL paid paid"),
    // A side is missing, and no part would mind.
    ("pay(1) || pay(2)", "122", "both LR paid paid"),
    ("Success || Success", "1", "both - done done"),
    // A side is too many, and no part would mind.
    ("pay(1) || Success", "1", "both LL paid done"),
    ("pay(1) || Success", "1", "both LR paid done"),
    ("pay(1) ; pay(2)", "21", "then 1 paid paid"),
    ("pay(1) ; pay(2)", "122", "then 1 paid paid"),
    ("pay(1) ; pay(2)", "12", "then 0 paid paid"),
    ("pay(1) ; pay(2)", "12", "then 2 paid paid"),
    // A count past the end, and neither part would mind.
    ("pay(1) ; Success", "1", "then 2 paid done"),
    ("any()", "55", "enter right take enter left done"),
    (
        "transmit(a, b, r, t | true). pay(amount(r) + 1)",
        "11",
        "take paid",
    ),
    ("kept(5)", "55", "enter take take done"),
    ("kept(5)", "22", "enter take take done"),
    (
        "transmit(a, b, r, t | true). transmit(a, b, r, t | amount(r) = 2). Success",
        "21",
        "take take done",
    ),
    // What the first part took is not known to the second.
    (
        "transmit(a, b, x, t | true). Success ; transmit(a, b, r, t | amount(x) = 1). Success",
        "11",
        "then 1 take done take done",
    ),
    // A predicate that has no value does not hold, nor does its denial, nor one that is no truth value.
    ("transmit(a, b, r, t | x = 1). Success", "1", "take done"),
    (
        "transmit(a, b, r, t | not (x = 1)). Success",
        "1",
        "take done",
    ),
    (
        "transmit(a, b, r, t | amount(r)). Success",
        "1",
        "take done",
    ),
    // No template has the name, or it has another number of parameters.
    ("h(1)", "1", "paid"),
    ("pay()", "1", "paid"),
    ("pay(1, 1)", "1", "paid"),
];

// The events of these amounts.
fn events_of(alloc: Global, amounts: &str) -> Result<List<Event>, Memory> {
    let mut events = List::new(alloc);
    for digit in amounts.as_bytes() {
        let amount = digit.saturating_sub(b'0') as u64;
        push(&mut events, delivered(alloc, amount)?)?;
    }
    Ok(events)
}

// Whether events of these amounts perform the contract in this way.
fn is_way(alloc: Global, studied: &Studied, row: &Row) -> Result<bool, Memory> {
    let (text, amounts, moves) = *row;
    let term = contract(alloc, text)?;
    let events = events_of(alloc, amounts)?;
    verify(alloc, studied, &term, &events, &way(alloc, moves)?)
}

#[test]
fn events_perform_contracts_in_these_ways(rt: HostRuntime) -> Result<(), Memory> {
    let Ok(studied) = studied(rt.alloc(), &BOOK) else {
        return Err(Memory);
    };
    for row in &WAYS {
        assert!(rt;
            is_way(rt.alloc(), &studied, row)?,
            "{} by {}",
            row.0,
            row.2
        );
    }
    for row in &NO_WAYS {
        assert!(rt;
            !is_way(rt.alloc(), &studied, row)?,
            "{} not by {}",
            row.0,
            row.2
        );
    }
    Ok(())
}

// Whether so many events perform `any()`.
fn is_long_way(alloc: Global, studied: &Studied, count: u64) -> Result<bool, Memory> {
    let event = delivered(alloc, 1)?;
    let mut events = List::new(alloc);
    for _ in 0..count {
        push(&mut events, event)?;
    }
    let term = contract(alloc, "any()")?;
    verify(alloc, studied, &term, &events, &long_way(alloc, count)?)
}

#[test]
fn no_way_is_too_deep_to_be_verified(rt: HostRuntime) -> Result<(), Memory> {
    let Ok(studied) = studied(rt.alloc(), &BOOK) else {
        return Err(Memory);
    };
    assert!(rt; is_long_way(rt.alloc(), &studied, 70_000)?, "70,000 events");
    Ok(())
}
