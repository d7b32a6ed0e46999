//! Residuals in a book of templates, worked out by hand, and each call once with memory.

use crate::contracts::{Made, book, delivered, fits, is_made};
use crate::sentences::contract;
use poets_cons::{of_term, to_term};
use poets_expr::Asks;
use poets_meaning::Studied;
use poets_residue::{may_end, may_end_rows, residual, residual_rows};
use poets_syntax::Term;
use poets_value::{Event, List, Memory};
use std::alloc::Global;

// The residual by the event, over trees.
fn after(alloc: Global, studied: &Studied, term: &Term, event: &Event) -> Result<Made, Memory> {
    if !fits(studied, term) {
        return Err(Memory);
    }
    let mut asks = Asks::new(());
    let left = residual(alloc, studied, term, event, &mut asks)?;
    let rows = of_term(alloc, &left)?;
    Ok((left, rows.count(), asks.count()))
}

// The residual by the event, from rows to rows.
fn rows_after(
    alloc: Global,
    studied: &Studied,
    term: &Term,
    event: &Event,
) -> Result<Made, Memory> {
    if !fits(studied, term) {
        return Err(Memory);
    }
    let rows = of_term(alloc, term)?;
    let mut asks = Asks::new(());
    let left = residual_rows(alloc, studied, &rows, event, &mut asks)?;
    Ok((to_term(alloc, &left)?, left.count(), asks.count()))
}

const FIVE: &str = "transmit(a, b, r, t | amount(r) = 5). Success";

const FIVE_TWICE: &str =
    "transmit(a, b, r, t | amount(r) = 5). Success ; transmit(a, b, r, t | amount(r) = 5). Success";

const FIRST_BEFORE_FIVE: &str = "count(1) ; transmit(a, b, r, t | amount(r) = 5). Success";

const SECOND_BEFORE_FIVE: &str = "count(2) ; transmit(a, b, r, t | amount(r) = 5). Success";

const EITHER_COUNTED: &str = "count(2) || count(1) + count(1) || count(2)";

// O. Success || O. U. Success
const BOTH_WANT_OIL: &str = "transmit(a, b, r, t | kind(r) = Oil). Success
|| transmit(a, b, r, t | kind(r) = Oil). transmit(a, b, r, t | kind(r) = USD). Success";

// O. U. Success + O. Success || U. Success
const TWO_WAYS: &str =
    "transmit(a, b, r, t | kind(r) = Oil). transmit(a, b, r, t | kind(r) = USD). Success
+ transmit(a, b, r, t | kind(r) = Oil). Success || transmit(a, b, r, t | kind(r) = USD). Success";

// O. Success so many times side by side
const TEN_SIDES: &str = "transmit(a, b, r, t | kind(r) = Oil). Success
|| transmit(a, b, r, t | kind(r) = Oil). Success
|| transmit(a, b, r, t | kind(r) = Oil). Success
|| transmit(a, b, r, t | kind(r) = Oil). Success
|| transmit(a, b, r, t | kind(r) = Oil). Success
|| transmit(a, b, r, t | kind(r) = Oil). Success
|| transmit(a, b, r, t | kind(r) = Oil). Success
|| transmit(a, b, r, t | kind(r) = Oil). Success
|| transmit(a, b, r, t | kind(r) = Oil). Success
|| transmit(a, b, r, t | kind(r) = Oil). Success";

const NINE_SIDES: &str = "transmit(a, b, r, t | kind(r) = Oil). Success
|| transmit(a, b, r, t | kind(r) = Oil). Success
|| transmit(a, b, r, t | kind(r) = Oil). Success
|| transmit(a, b, r, t | kind(r) = Oil). Success
|| transmit(a, b, r, t | kind(r) = Oil). Success
|| transmit(a, b, r, t | kind(r) = Oil). Success
|| transmit(a, b, r, t | kind(r) = Oil). Success
|| transmit(a, b, r, t | kind(r) = Oil). Success
|| transmit(a, b, r, t | kind(r) = Oil). Success";

// What an event leaves: the contract, how many rows it has, and how much was asked.
type Left<'a> = (&'a str, u64, u64);

// A contract, the amount of an event, and what it leaves.
type Step<'a> = (&'a str, u64, Left<'a>);

const STEPS: [Step; 9] = [
    // A recursive template counts on: the argument 1 + 1 in the body is asked, and the predicate.
    ("count(1)", 1, ("count(2)", 1, 2)),
    // An argument is asked once: the argument 1 + 1, the argument 2 + 1 in the body, and the predicate.
    ("count(1 + 1)", 2, ("count(3)", 1, 3)),
    // A refused event leaves failure: of each side the argument in the body is asked, and the predicate.
    ("count(1) || count(2)", 3, ("Failure", 1, 4)),
    // Either side may take the event, which leaves alike ways, of which the first is kept. The sides are equal, and asked
    // once.
    ("count(1) || count(1)", 1, ("count(2) || count(1)", 3, 2)),
    // An event passes a first part that may end: the argument in the body is asked, and both predicates.
    (FIRST_BEFORE_FIVE, 5, ("Success", 1, 3)),
    // The first part may go on, and as much is asked.
    (FIRST_BEFORE_FIVE, 1, (SECOND_BEFORE_FIVE, 4, 3)),
    // A second part that is not next is not asked.
    (FIVE_TWICE, 5, (FIVE, 2, 1)),
    // An event that both sides take leaves two ways: the predicate of each side is asked.
    (BOTH_WANT_OIL, 1, (TWO_WAYS, 6, 2)),
    // Equal parts are asked once. The rows are those of Success, of O. Success, and of eight pairs of sides.
    (TEN_SIDES, 1, (NINE_SIDES, 10, 1)),
];

// Whether the event leaves this of the contract, over trees and over rows.
fn leaves(
    alloc: Global,
    studied: &Studied,
    term: &Term,
    event: &Event,
    left: Left,
) -> Result<bool, Memory> {
    let tree = is_made(alloc, after(alloc, studied, term, event)?, left)?;
    let rows = is_made(alloc, rows_after(alloc, studied, term, event)?, left)?;
    Ok(tree && rows)
}

// Whether the step is taken so.
fn is_taken(alloc: Global, studied: &Studied, step: &Step) -> Result<bool, Memory> {
    let event = delivered(alloc, step.1)?;
    leaves(alloc, studied, &contract(alloc, step.0)?, &event, step.2)
}

#[test]
fn an_event_leaves_the_residual(rt: HostRuntime) -> Result<(), Memory> {
    let studied = book(rt.alloc())?;
    for step in &STEPS {
        assert!(rt;
            is_taken(rt.alloc(), &studied, step)?,
            "{} after {}",
            step.0,
            step.1
        );
    }
    Ok(())
}

// Whether a contract may end, by its tree, which is the plain program, and by its rows.
fn may_end_by_both(alloc: Global, studied: &Studied, term: &Term) -> Result<(bool, bool), Memory> {
    if !fits(studied, term) {
        return Err(Memory);
    }
    let rows = of_term(alloc, term)?;
    Ok((may_end(studied, term), may_end_rows(studied, &rows)))
}

// A contract, and whether it may end.
const ENDS: [(&str, bool); 6] = [
    ("Success", true),
    ("Failure", false),
    ("count(1)", true),
    (EITHER_COUNTED, true),
    (FIRST_BEFORE_FIVE, false),
    (BOTH_WANT_OIL, false),
];

// Whether the contract of the text ends so by its tree and by its rows.
fn ends_so(alloc: Global, studied: &Studied, text: &str, ends: bool) -> Result<bool, Memory> {
    let found = may_end_by_both(alloc, studied, &contract(alloc, text)?)?;
    Ok(found == (ends, ends))
}

#[test]
fn trees_and_rows_may_end_alike(rt: HostRuntime) -> Result<(), Memory> {
    let studied = book(rt.alloc())?;
    for (text, ends) in ENDS {
        assert!(rt; ends_so(rt.alloc(), &studied, text, ends)?, "{text}");
    }
    Ok(())
}

// Whether an application of a template that is not in the book may not end, and leaves failure by the event.
fn takes_nothing(alloc: Global, studied: &Studied) -> Result<bool, Memory> {
    let event = delivered(alloc, 1)?;
    let term = Term::App {
        name: event.sender,
        args: List::new(alloc),
    };
    if studied.template(event.sender).is_some() {
        return Ok(false);
    }
    let may_end = may_end_by_both(alloc, studied, &term)?;
    let left = after(alloc, studied, &term, &event)?;
    Ok(is_made(alloc, left, ("Failure", 1, 0))? && may_end == (false, false))
}

#[test]
fn without_a_template_an_application_takes_nothing(rt: HostRuntime) -> Result<(), Memory> {
    assert!(rt; takes_nothing(rt.alloc(), &book(rt.alloc())?)?);
    Ok(())
}
