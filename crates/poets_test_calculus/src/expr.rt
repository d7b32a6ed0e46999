//! Values worked out by hand.

use crate::sentences::{ANN, BOB, OIL, R, USD, X, Y, expressions, repeated};
use poets_expr::{
    Asks, Decls, Env, Expr, Given, eval, fold_closed, free_names, literal, same, size, subst,
};
use poets_value::Value::{Agent, Int};
use poets_value::{Memory, Name, Ty, Value};
use std::alloc::Global;
use std::collections::BTreeMap;

// The agents ann and bob, and the kinds Oil and USD.
fn declared(alloc: Global) -> Result<Decls, Memory> {
    let names = BTreeMap::from_array(
        alloc,
        [
            (ANN, Ty::Agent),
            (BOB, Ty::Agent),
            (OIL, Ty::Kind),
            (USD, Ty::Kind),
        ],
    )?;
    Ok(Decls { names })
}

// Each expression stands before the literal of its value, or before `undefined` and a type where it has none.
const VALUES: &str = "watch values(
    2 + 3, 5,
    9223372036854775807 + 1, undefined Int,
    -9223372036854775807 + -1, undefined Int,
    2 - 3, -1,
    0 - 9223372036854775807, -9223372036854775807,
    9223372036854775807 - -1, undefined Int,
    7 * -6, -42,
    9223372036854775807 * -1, -9223372036854775807,
    3037000499 * 3037000499, 9223372030926249001,
    3037000500 * 3037000500, undefined Int,
    7 / 2, 3,
    -7 / 2, -3,
    7 / -2, -3,
    -7 / -2, 3,
    1 / 0, undefined Int,
    7 % 2, 1,
    -7 % 2, -1,
    7 % -2, 1,
    -7 % -2, -1,
    5 % 0, undefined Int,

    @2006-05-03 + 30, @2006-06-02,
    @2004-03-01 + -1, @2004-02-29,
    @0001-01-01 + 3652058, @9999-12-31,
    @9999-12-31 + 1, undefined Day,
    @0001-01-01 + -1, undefined Day,
    @9999-12-31 + -9223372036854775807, undefined Day,
    @2006-06-02 - @2006-05-03, 30,
    @0001-01-01 - @9999-12-31, -3652058,

    1 = 1, true,
    1 = 2, false,
    1 <> 2, true,
    ann = bob, false,
    Oil <> USD, true,
    ann = Oil, undefined Bool,
    1 <> true, undefined Bool,
    1 = undefined Int, undefined Bool,
    1 < 2, true,
    1 < 1, false,
    1 <= 1, true,
    2 <= 1, false,
    2 > 1, true,
    1 > 1, false,
    1 >= 1, true,
    1 >= 2, false,
    false < true, undefined Bool,
    undefined Int > 1, undefined Bool,

    true and true, true,
    true and false, false,
    true and undefined Int, undefined Bool,
    true and 1, undefined Bool,
    false and undefined Int, false,
    false and 1, false,
    undefined Int and false, undefined Bool,
    false or false, false,
    false or true, true,
    false or 1, undefined Bool,
    true or undefined Int, true,
    true or 1, true,
    undefined Int or true, undefined Bool,

    if true then 1 else 2 end, 1,
    if false then 1 else 2 end, 2,
    if true then 1 else undefined Int end, 1,
    if false then undefined Int else 2 end, 2,
    if undefined Int then 1 else 1 end, undefined Int,
    if 1 then 1 else 1 end, undefined Int,

    -(1), -1,
    -true, undefined Int,
    not true, false,
    not 1, undefined Bool,

    res(5, USD), [5 USD],
    res(USD, 5), undefined Resource,
    amount([5 USD]), 5,
    amount(1), undefined Int,
    kind([5 USD]), USD,
    kind([5 USD]) = USD, true
)";

// Whether the first of two expressions has the value of the second, which is a literal.
fn is_worked(env: &Env, row: &[Expr]) -> bool {
    let [e, wanted] = row else {
        return false;
    };
    let value = eval(env, e, &mut Asks::new(()));
    match wanted {
        Expr::Undefined(_) => value.is_none(),
        _ => same(&literal(&given(value, Ty::Int)), wanted),
    }
}

// The first row of two expressions, counted from 0, in which the first has another value under the pairs.
fn first_other(
    alloc: Global,
    pairs: &[(Name, Option<Value>)],
    text: &str,
) -> Result<Option<usize>, Memory> {
    let decls = declared(alloc)?;
    let env = Env {
        decls: &decls,
        pairs,
    };
    let expressions = expressions(alloc, text)?;
    for (place, row) in expressions.as_slice().chunks(2).enumerate() {
        if !is_worked(&env, row) {
            return Ok(Some(place));
        }
    }
    Ok(None)
}

#[test]
fn values_are_exact_or_undefined(rt: HostRuntime) -> Result<(), Memory> {
    assert_eq!(rt; first_other(rt.alloc(), &[], VALUES)?, None);
    Ok(())
}

// Pairs, of which the newest of a name counts.
const PAIRS: [(Name, Option<Value>); 5] = [
    (X, Some(Int(1))),
    (X, Some(Int(2))),
    (BOB, Some(Int(1))),
    (R, Some(Int(1))),
    (R, None),
];

// A name without a pair is undefined, or the agent or kind as which it is declared.
const MEANINGS: &str = "watch meanings(
    x, 2,
    y, undefined Int,
    bob, 1,
    r, undefined Int,
    ann, ann,
    res(5, ann), undefined Resource,
    USD, USD,
    res(5, USD), [5 USD]
)";

#[test]
fn the_newest_pair_of_a_name_counts(rt: HostRuntime) -> Result<(), Memory> {
    assert_eq!(rt; first_other(rt.alloc(), &PAIRS, MEANINGS)?, None);
    Ok(())
}

#[test]
fn long_expressions_have_values(rt: HostRuntime) -> Result<(), Memory> {
    // as many operators as a sentence may have, each of them adding 2
    let text = repeated(rt.alloc(), "watch sum(0", " + x", 1000, ", 2000)")?;
    assert_eq!(rt; first_other(rt.alloc(), &PAIRS, &text)?, None);
    let expressions = expressions(rt.alloc(), &text)?;
    let [sum, ..] = expressions.as_slice() else {
        return Err(Memory);
    };
    assert_eq!(rt; size(sum), 2001);
    Ok(())
}

/// What a name is replaced by.
pub(crate) fn given(value: Option<Value>, ty: Ty) -> Given {
    Given { value, ty }
}

// Whether the first of two expressions is the second one with the names replaced.
fn is_replaced(alloc: Global, row: &[Expr]) -> Result<bool, Memory> {
    let [e, wanted] = row else {
        return Ok(false);
    };
    let pairs = [
        (X, given(Some(Int(1)), Ty::Int)),
        (X, given(Some(Int(2)), Ty::Int)),
        (R, given(Some(Agent(BOB)), Ty::Agent)),
        (OIL, given(None, Ty::Day)),
    ];
    let found = subst(alloc, e, &pairs)?;
    Ok(same(&found, wanted))
}

// Each expression stands before the one with its names replaced.
const REPLACED: &str = "watch replaced(
    if y then x else r end, if y then 2 else bob end,
    Oil, undefined Day
)";

#[test]
fn names_are_replaced_by_literals(rt: HostRuntime) -> Result<(), Memory> {
    let expressions = expressions(rt.alloc(), REPLACED)?;
    for row in expressions.as_slice().chunks(2) {
        assert!(rt; is_replaced(rt.alloc(), row)?);
    }
    Ok(())
}

// Whether the first of two expressions is folded to the second by so many evaluations.
fn is_folded(alloc: Global, decls: &Decls, row: &[Expr], count: u64) -> Result<bool, Memory> {
    let [e, wanted] = row else {
        return Ok(false);
    };
    let mut asks = Asks::new(());
    let found = fold_closed(alloc, decls, e, Ty::Int, &mut asks)?;
    Ok(same(&found, wanted) && asks.count() == count)
}

// Closed expressions are folded.
const FOLDED: &str = "watch folded(7 / 2, 3, 7 / 0, undefined Int)";

// Literals and open expressions stay.
const STAYING: &str = "watch staying(5, 5, ann, ann, 5 + x, 5 + x)";

#[test]
fn closed_expressions_are_folded_by_one_evaluation(rt: HostRuntime) -> Result<(), Memory> {
    let decls = declared(rt.alloc())?;
    for (text, count) in [(FOLDED, 1), (STAYING, 0)] {
        let expressions = expressions(rt.alloc(), text)?;
        for row in expressions.as_slice().chunks(2) {
            assert!(rt; is_folded(rt.alloc(), &decls, row, count)?, "{text}");
        }
    }
    Ok(())
}

// An open expression and one whose kind, within a literal, is no free name.
const NAMED: &str = "watch names(if kind(r) = Oil then x else res(x, y) end, [5 USD])";

#[test]
fn each_free_name_stands_once(rt: HostRuntime) -> Result<(), Memory> {
    let expressions = expressions(rt.alloc(), NAMED)?;
    let [open, closed] = expressions.as_slice() else {
        return Err(Memory);
    };
    let names = free_names(rt.alloc(), open)?;
    assert!(rt; names.as_slice() == [R, OIL, X, Y].as_slice());
    assert!(rt; free_names(rt.alloc(), closed)?.is_empty());
    assert_eq!(rt; size(open), 9);
    assert_eq!(rt; size(closed), 1);
    Ok(())
}
