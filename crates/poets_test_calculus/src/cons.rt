//! Rows of contracts worked out by hand.

use crate::contracts::{Made, is_made};
use crate::sentences::contract;
use poets_cons::{Arena, enter, of_term, to_term};
use poets_syntax::Term;
use poets_value::Memory;
use std::alloc::Global;

// O. U. Success + O. Success || U. Success
const TWO_WAYS: &str =
    "transmit(a, b, r, t | kind(r) = Oil). transmit(a, b, r, t | kind(r) = USD). Success
+ transmit(a, b, r, t | kind(r) = Oil). Success || transmit(a, b, r, t | kind(r) = USD). Success";

// A contract, and the number of its rows.
const ROWS: [(&str, u64); 2] = [(TWO_WAYS, 6), ("f(1) ; (f(1) + f(1))", 3)];

// The contract that its rows give back.
fn by_rows(alloc: Global, text: &str) -> Result<Made, Memory> {
    let term = contract(alloc, text)?;
    let rows = of_term(alloc, &term)?;
    Ok((to_term(alloc, &rows)?, rows.count(), 0))
}

#[test]
fn equal_parts_are_one_row(rt: HostRuntime) -> Result<(), Memory> {
    for (text, count) in ROWS {
        let made = by_rows(rt.alloc(), text)?;
        assert!(rt; is_made(rt.alloc(), made, (text, count, 0))?, "{text}");
    }
    Ok(())
}

// A choice of two contracts that are the same but for the order of parallel parts, or are not.
const ALIKE: [(&str, bool); 10] = [
    ("f(1) || f(2) + f(2) || f(1)", true),
    ("f(1) || (f(2) || f(3)) + f(3) || f(1) || f(2)", true),
    // Each part is wanted as often as it stands there.
    ("f(1) || f(1) || f(2) + f(1) || f(2) || f(2)", false),
    ("f(1) || f(1) + f(1) || f(1) || f(1)", false),
    // Parts that are alike and not equal.
    (
        "transmit(a, b, r, t | true). (f(1) || f(2)) || transmit(a, b, r, t | true). (f(2) || f(1))
+ transmit(a, b, r, t | true). (f(2) || f(1)) || transmit(a, b, r, t | true). (f(2) || f(1))",
        true,
    ),
    // Other binders, and another predicate.
    (
        "transmit(a, b, r, t | true). (f(1) || f(2)) + transmit(a, b, r, n | true). (f(2) || f(1))",
        false,
    ),
    (
        "transmit(a, b, r, t | true). (f(1) || f(2)) + transmit(a, b, r, t | not true). (f(2) || f(1))",
        false,
    ),
    ("(f(1) || f(2)) ; f(3) + (f(2) || f(1)) ; f(3)", true),
    // A sequence and a choice have an order.
    ("f(1) || f(2) ; f(3) + f(3) ; f(2) || f(1)", false),
    ("f(1) || (f(2) + f(3)) + (f(3) + f(2)) || f(1)", false),
];

// Whether the rows of both sides of the choice are alike.
fn have_like_sides(alloc: Global, arena: &mut Arena, choice: &Term) -> Result<bool, Memory> {
    let Term::Plus(first, second) = choice else {
        return Err(Memory);
    };
    let first = enter(alloc, arena, first)?;
    let second = enter(alloc, arena, second)?;
    arena.alike(first, second)
}

// Whether the choice is of two contracts that are alike.
fn are_alike(alloc: Global, text: &str) -> Result<bool, Memory> {
    let term = contract(alloc, text)?;
    have_like_sides(alloc, &mut Arena::new(alloc), &term)
}

#[test]
fn rows_are_alike_but_for_the_order_of_parallel_parts(rt: HostRuntime) -> Result<(), Memory> {
    for (text, wanted) in &ALIKE {
        assert_eq!(rt; are_alike(rt.alloc(), text)?, *wanted, "{text}");
    }
    Ok(())
}
