//! What contracts are open for in a book of templates, worked out by hand.

use crate::contracts::{book, fits};
use crate::sentences::contract;
use poets_expr::same;
use poets_meaning::Studied;
use poets_open::{Step, next};
use poets_syntax::Term;
use poets_value::Memory;
use std::alloc::Global;

const OIL: &str = "transmit(a, b, r, t | kind(r) = Oil). Success";

const USD: &str = "transmit(a, b, r, t | kind(r) = USD). Success";

const ONE: &str = "transmit(a, b, r, t | amount(r) = 1). Success";

const TWO: &str = "transmit(a, b, r, t | amount(r) = 2). Success";

const OIL_OR_USD: &str =
    "transmit(a, b, r, t | kind(r) = Oil). Success + transmit(a, b, r, t | kind(r) = USD). Success";

const USD_BESIDE_OIL: &str =
    "transmit(a, b, r, t | kind(r) = USD). Success || transmit(a, b, r, t | kind(r) = Oil). Success";

const OIL_BEFORE_USD: &str =
    "transmit(a, b, r, t | kind(r) = Oil). Success ; transmit(a, b, r, t | kind(r) = USD). Success";

const COUNTED_BEFORE_USD: &str = "count(1) ; transmit(a, b, r, t | kind(r) = USD). Success";

// O. Success + U. Success + O. U. Success
const OIL_TWICE: &str =
    "transmit(a, b, r, t | kind(r) = Oil). Success + transmit(a, b, r, t | kind(r) = USD). Success
+ transmit(a, b, r, t | kind(r) = Oil). transmit(a, b, r, t | kind(r) = USD). Success";

// The names of the parts differ.
const UNDER_TWO_NAMES: &str =
    "transmit(a, b, r, t | true). Success + transmit(x, b, r, t | true). Success";

const UNDER_ONE: &str = "transmit(a, b, r, t | true). Success";

const UNDER_THE_OTHER: &str = "transmit(x, b, r, t | true). Success";

// A contract, and the transmissions that it is open for, each before `Success`.
const OPEN: [(&str, &[&str]); 12] = [
    ("Success", &[]),
    ("Failure", &[]),
    (OIL, &[OIL]),
    (OIL_OR_USD, &[OIL, USD]),
    (USD_BESIDE_OIL, &[USD, OIL]),
    // The second part waits for the first.
    (OIL_BEFORE_USD, &[OIL]),
    // The first part may end.
    (COUNTED_BEFORE_USD, &[ONE, USD]),
    // An application is open for what its body is open for.
    ("count(1 + 1)", &[TWO]),
    ("count(1) || count(2) || count(1)", &[ONE, TWO]),
    // Of equal transmissions the first is kept.
    (OIL_TWICE, &[OIL, USD]),
    (UNDER_TWO_NAMES, &[UNDER_ONE, UNDER_THE_OTHER]),
    ("f(1)", &[UNDER_ONE]),
];

// Whether the step is that of the transmission.
fn is_step(step: &Step, wanted: &Term) -> bool {
    match wanted {
        Term::Transmit { binders, when, .. } => {
            step.binders == *binders && same(&step.when, when)
        }
        _ => false,
    }
}

// Whether the steps are those of the transmissions of the texts.
fn are_steps(alloc: Global, steps: &[Step], wanted: &[&str]) -> Result<bool, Memory> {
    if steps.len() != wanted.len() {
        return Ok(false);
    }
    for (step, text) in steps.iter().zip(wanted) {
        if !is_step(step, &contract(alloc, text)?) {
            return Ok(false);
        }
    }
    Ok(true)
}

// Whether the contract of the text is open for the transmissions of the texts.
fn is_open_for(
    alloc: Global,
    studied: &Studied,
    text: &str,
    wanted: &[&str],
) -> Result<bool, Memory> {
    let term = contract(alloc, text)?;
    if !fits(studied, &term) {
        return Err(Memory);
    }
    let steps = next(alloc, studied, &term)?;
    are_steps(alloc, steps.as_slice(), wanted)
}

#[test]
fn contracts_are_open_for_these_transmissions(rt: HostRuntime) -> Result<(), Memory> {
    let studied = book(rt.alloc())?;
    for (text, wanted) in OPEN {
        assert!(rt; is_open_for(rt.alloc(), &studied, text, wanted)?, "{text}");
    }
    Ok(())
}
