//! Builders of normal forms worked out by hand, and each called once with memory.

use crate::sentences::contract;
use poets_norm::{par, plus, send, seq};
use poets_syntax::{Term, same};
use poets_value::Memory;
use std::alloc::Global;

// What is built of two contracts. `Send` has the binders and the predicate of the first.
#[derive(Clone, Copy)]
enum Builder {
    Plus,
    Par,
    Seq,
    Send,
}

fn built(alloc: Global, builder: Builder, left: Term, right: Term) -> Result<Term, Memory> {
    match (builder, left) {
        (Builder::Plus, left) => plus(alloc, left, right),
        (Builder::Par, left) => par(alloc, left, right),
        (Builder::Seq, left) => seq(alloc, left, right),
        (Builder::Send, Term::Transmit { binders, when, .. }) => send(alloc, binders, when, right),
        (Builder::Send, left) => Ok(left),
    }
}

const OIL: &str = "transmit(a, b, r, t | kind(r) = Oil). Success";

// O + U
const OIL_OR_USD: &str =
    "transmit(a, b, r, t | kind(r) = Oil). Success + transmit(a, b, r, t | kind(r) = USD). Success";

// U + O. U
const USD_OR_BOTH: &str = "transmit(a, b, r, t | kind(r) = USD). Success
+ transmit(a, b, r, t | kind(r) = Oil). transmit(a, b, r, t | kind(r) = USD). Success";

// (O + U) + O. U
const EACH_ONCE: &str = "transmit(a, b, r, t | kind(r) = Oil). Success
+ transmit(a, b, r, t | kind(r) = USD). Success
+ transmit(a, b, r, t | kind(r) = Oil). transmit(a, b, r, t | kind(r) = USD). Success";

const SUCCESS_OR_OIL: &str = "Success + transmit(a, b, r, t | kind(r) = Oil). Success";

const USD: &str = "transmit(a, b, r, t | kind(r) = USD). Success";

// O || U
const OIL_BESIDE_USD: &str =
    "transmit(a, b, r, t | kind(r) = Oil). Success || transmit(a, b, r, t | kind(r) = USD). Success";

// U || O
const USD_BESIDE_OIL: &str =
    "transmit(a, b, r, t | kind(r) = USD). Success || transmit(a, b, r, t | kind(r) = Oil). Success";

// (O || U) || O
const OIL_ON_BOTH_SIDES: &str = "transmit(a, b, r, t | kind(r) = Oil). Success
|| transmit(a, b, r, t | kind(r) = USD). Success || transmit(a, b, r, t | kind(r) = Oil). Success";

// What the row shows, the builder, two contracts, and what is built of them.
type Row<'a> = (&'a str, Builder, &'a str, &'a str, &'a str);

const BUILT: [Row; 12] = [
    (
        "of equal alternatives the first is kept",
        Builder::Plus,
        OIL_OR_USD,
        USD_OR_BOTH,
        EACH_ONCE,
    ),
    ("a choice drops failure", Builder::Plus, "Failure", OIL, OIL),
    (
        "of alike alternatives the first is kept",
        Builder::Plus,
        OIL_BESIDE_USD,
        USD_BESIDE_OIL,
        OIL_BESIDE_USD,
    ),
    (
        "alternatives of one size are kept",
        Builder::Plus,
        OIL,
        USD,
        OIL_OR_USD,
    ),
    (
        "a choice in a choice is none of its own",
        Builder::Plus,
        "Success + Success",
        OIL,
        SUCCESS_OR_OIL,
    ),
    (
        "parallel parts group to the left",
        Builder::Par,
        OIL,
        USD_BESIDE_OIL,
        OIL_ON_BOTH_SIDES,
    ),
    (
        "a side that is over is left out",
        Builder::Par,
        "Success",
        OIL,
        OIL,
    ),
    (
        "a second part that is over is left out",
        Builder::Seq,
        OIL,
        "Success",
        OIL,
    ),
    (
        "a side that fails fails the whole",
        Builder::Par,
        OIL,
        "Failure",
        "Failure",
    ),
    (
        "a first part that fails fails the whole",
        Builder::Seq,
        "Failure",
        OIL,
        "Failure",
    ),
    (
        "a dead continuation fails",
        Builder::Send,
        OIL,
        "Failure",
        "Failure",
    ),
    (
        "another continuation is sent before",
        Builder::Send,
        OIL,
        "Success",
        OIL,
    ),
];

// Whether the row holds.
fn is_built(alloc: Global, row: &Row) -> Result<bool, Memory> {
    let left = contract(alloc, row.2)?;
    let right = contract(alloc, row.3)?;
    let made = built(alloc, row.1, left, right)?;
    Ok(same(&made, &contract(alloc, row.4)?))
}

#[test]
fn what_is_built_is_normal(rt: HostRuntime) -> Result<(), Memory> {
    for row in &BUILT {
        assert!(rt; is_built(rt.alloc(), row)?, "{}", row.0);
    }
    Ok(())
}
