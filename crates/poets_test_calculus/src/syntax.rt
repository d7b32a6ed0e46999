//! Contracts counted, compared and replaced by hand.

use crate::expr::given;
use crate::sentences::{A, BOB, N, contract, repeated};
use poets_expr::Given;
use poets_meaning::size;
use poets_syntax::{Term, same, subst};
use poets_value::{Memory, Name, Ty, Value};
use std::alloc::Global;

// Whether the choice is of a contract and of another, which it is with the names replaced.
fn has_replaced(alloc: Global, choice: &Term, pairs: &[(Name, Given)]) -> Result<bool, Memory> {
    let Term::Plus(term, wanted) = choice else {
        return Ok(false);
    };
    let found = subst(alloc, term, pairs)?;
    Ok(same(&found, wanted) && !same(&found, term))
}

fn is_replaced(alloc: Global, text: &str, pairs: &[(Name, Given)]) -> Result<bool, Memory> {
    has_replaced(alloc, &contract(alloc, text)?, pairs)
}

// The name n is replaced below both transmits, and a, which they bind, below none.
const BOUND: &str =
    "transmit(a, b, r, t | amount(r) = n). transmit(a, c, q, w | a = bob and amount(q) = n). Success
    + transmit(a, b, r, t | amount(r) = 5). transmit(a, c, q, w | a = bob and amount(q) = 5). Success";

// Arguments are replaced by the later pair.
const APPLIED: &str = "f(a, n) + f(undefined Agent, 2)";

#[test]
fn names_are_replaced_up_to_their_binders(rt: HostRuntime) -> Result<(), Memory> {
    let bob = given(Some(Value::Agent(BOB)), Ty::Agent);
    let five = given(Some(Value::Int(5)), Ty::Int);
    assert!(rt; is_replaced(rt.alloc(), BOUND, &[(A, bob), (N, five)])?);
    let one = given(Some(Value::Int(1)), Ty::Int);
    let undefined = given(None, Ty::Agent);
    let two = given(Some(Value::Int(2)), Ty::Int);
    assert!(rt; is_replaced(rt.alloc(), APPLIED, &[(N, one), (A, undefined), (N, two)])?);
    Ok(())
}

// Whether the body is the choice of two contracts that are the same.
fn are_same(alloc: Global, text: &str) -> Result<bool, Memory> {
    match contract(alloc, text)? {
        Term::Plus(term, other) => Ok(same(&term, &other)),
        _ => Err(Memory),
    }
}

// Contracts of the same binders, of other binders, of another day, and of other forms.
const TWO_CONTRACTS: [(&str, bool); 4] = [
    (
        "transmit(a, b, r, t | true). Success + transmit(a, b, r, t | true). Success",
        true,
    ),
    (
        "transmit(a, b, r, t | true). Success + transmit(a, c, q, w | true). Success",
        false,
    ),
    (
        "transmit(a, b, r, t | true). Success + transmit(a, b, r, n | true). Success",
        false,
    ),
    ("Success ; Failure + (Success || Failure)", false),
];

#[test]
fn other_binders_and_forms_make_another_contract(rt: HostRuntime) -> Result<(), Memory> {
    for (text, wanted) in &TWO_CONTRACTS {
        assert_eq!(rt; are_same(rt.alloc(), text)?, *wanted, "{text}");
    }
    Ok(())
}

const COMPOSED: &str =
    "(transmit(a, c, q, w | a = bob and amount(q) = n). Success || f(1, n)) ; Failure + f(n, 1)";

fn size_of(alloc: Global, text: &str) -> Result<u64, Memory> {
    Ok(size(&contract(alloc, text)?))
}

const SIZES: [(&str, u64); 5] = [
    ("Success", 1),
    ("Failure", 1),
    ("f([5 Oil], undefined Int)", 3),
    // two transmits, =, amount, r and 1, then and, =, a, bob, =, amount, q and 1, and Success
    (
        "transmit(a, b, r, t | amount(r) = 1).
            transmit(a, c, q, w | a = bob and amount(q) = 1). Success",
        15,
    ),
    // +, ;, ||, 10 of the second transmit and Success, 3 of f(1, n), Failure, and 3 of f(n, 1)
    (COMPOSED, 20),
];

#[test]
fn sizes_are_those_counted_by_hand(rt: HostRuntime) -> Result<(), Memory> {
    for (text, wanted) in &SIZES {
        assert_eq!(rt; size_of(rt.alloc(), text)?, *wanted, "{text}");
    }
    // 143 contracts of 6 nodes each, and 142 nodes between them
    let head = "transmit(a, b, r, t | amount(r) = 1). Success";
    let piece = " + transmit(a, b, r, t | amount(r) = 2). Success";
    let choice = repeated(rt.alloc(), head, piece, 142, "")?;
    assert_eq!(rt; size_of(rt.alloc(), &choice)?, 1000);
    Ok(())
}
