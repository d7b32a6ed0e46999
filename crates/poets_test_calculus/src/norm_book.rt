//! Normal forms and widths in a book of templates, worked out by hand, and each call once with memory.

use crate::contracts::{Made, book, fits, is_made};
use crate::sentences::{contract, repeated};
use poets_cons::{of_term, to_term};
use poets_expr::Asks;
use poets_meaning::{Mark, Studied};
use poets_norm::{app, normal, normal_rows, wide};
use poets_residue::wide_rows;
use poets_syntax::{Term, same};
use poets_value::Memory;
use std::alloc::Global;

// The normal form of a tree, as a tree.
fn by_tree(alloc: Global, studied: &Studied, term: &Term) -> Result<Made, Memory> {
    let mut asks = Asks::new(());
    let made = normal(alloc, studied, term, &mut asks)?;
    let rows = of_term(alloc, &made)?;
    Ok((made, rows.count(), asks.count()))
}

// The normal form of a tree, as rows.
fn by_rows(alloc: Global, studied: &Studied, term: &Term) -> Result<Made, Memory> {
    let mut asks = Asks::new(());
    let rows = normal_rows(alloc, studied, term, &mut asks)?;
    Ok((to_term(alloc, &rows)?, rows.count(), asks.count()))
}

const DEAD_OR_TWO: &str = "transmit(a, b, r, t | true). g() + f(1 + 1)";

const ANYTHING: &str = "transmit(a, b, r, t | true). Success";

const ANYTHING_THRICE: &str = "transmit(a, b, r, t | true). Success
+ transmit(a, b, r, t | true). Success + transmit(a, b, r, t | true). Success";

// A normal form, how many rows it has, and how much is asked for it.
type Wanted<'a> = (&'a str, u64, u64);

// A contract, and its normal form.
type Row<'a> = (&'a str, Wanted<'a>);

const NORMAL: [Row; 2] = [
    // Closed arguments are folded, and hopeless templates fail. The argument 1 + 1 is asked.
    (DEAD_OR_TWO, ("f(2)", 1, 1)),
    // Equal alternatives are one row, and Success is another.
    (ANYTHING_THRICE, (ANYTHING, 2, 0)),
];

// Whether this is the normal form of the contract, as a tree and as rows.
fn has_form(alloc: Global, studied: &Studied, term: &Term, wanted: Wanted) -> Result<bool, Memory> {
    let tree = is_made(alloc, by_tree(alloc, studied, term)?, wanted)?;
    let rows = is_made(alloc, by_rows(alloc, studied, term)?, wanted)?;
    Ok(tree && rows)
}

// Whether the row holds of trees and of rows.
fn is_normal(alloc: Global, studied: &Studied, row: &Row) -> Result<bool, Memory> {
    has_form(alloc, studied, &contract(alloc, row.0)?, row.1)
}

#[test]
fn trees_and_rows_have_the_normal_form(rt: HostRuntime) -> Result<(), Memory> {
    let studied = book(rt.alloc())?;
    for row in &NORMAL {
        assert!(rt; is_normal(rt.alloc(), &studied, row)?, "{}", row.0);
    }
    Ok(())
}

// Of the application under a transmit the mark of its template, whether it stays as it is, and how much is asked for it.
fn opened(
    alloc: Global,
    studied: &Studied,
    term: &Term,
) -> Result<Option<(Mark, bool, u64)>, Memory> {
    let Term::Transmit { then, .. } = term else {
        return Ok(None);
    };
    let Term::App { name, args } = &**then else {
        return Ok(None);
    };
    let Some((_, mark)) = studied.template(*name) else {
        return Ok(None);
    };
    let mut asks = Asks::new(());
    let made = app(alloc, studied, *name, args.as_slice(), &mut asks)?;
    Ok(Some((*mark, same(&made, then), asks.count())))
}

const OPEN: &str = "transmit(a, b, r, t | true). f(amount(r) + 1)";

// Whether the template is found with its mark, and its argument stays as it is.
fn stays_open(alloc: Global) -> Result<bool, Memory> {
    let studied = book(alloc)?;
    let found = opened(alloc, &studied, &contract(alloc, OPEN)?)?;
    Ok(matches!(found, Some((mark, true, 0)) if mark.hopeful && !mark.nullable))
}

#[test]
fn open_arguments_stay(rt: HostRuntime) -> Result<(), Memory> {
    assert!(rt; stays_open(rt.alloc())?);
    Ok(())
}

const BOTH_WANT_OIL: &str = "transmit(a, b, r, t | kind(r) = kind([1 Oil])). Success
|| transmit(a, b, r, t | kind(r) = kind([1 Oil])). transmit(a, b, r, t | kind(r) = kind([1 USD])). Success";

const OIL: &str = "transmit(a, b, r, t | kind(r) = kind([1 Oil])). Success";

const AND_OIL: &str = " || transmit(a, b, r, t | kind(r) = kind([1 Oil])). Success";

const ONE: &str = "transmit(a, b, r, t | 1";

const IS_ONE: &str = " = 1). Success";

// What a contract begins with, what follows so many times, what ends it, and its width.
type Width<'a> = (&'a str, &'a str, u32, &'a str, u64);

const WIDTHS: [Width; 8] = [
    // One node, the argument, and the three nodes of the body, as its mark says.
    ("f(2)", "", 0, "", 5),
    // One node, the argument, and the eleven nodes of the body, as its mark says.
    ("count(1)", "", 0, "", 13),
    // Seven nodes of O. Success, thirteen of O. U. Success, and their node.
    (BOTH_WANT_OIL, "", 0, "", 21),
    // Five nodes, and two of each sum.
    (ONE, " + 1", 497, IS_ONE, 999),
    (ONE, " + 1", 500, IS_ONE, 1005),
    // Seven nodes of each, and one less of those between them.
    (OIL, AND_OIL, 124, "", 999),
    // Thirteen of each, and one less of those between them. The width is cut at 4097.
    ("count(1)", " || count(1)", 291, "", 4087),
    ("count(1)", " || count(1)", 292, "", 4097),
];

// Whether the width is that of the row, by trees and by rows.
fn is_wide(alloc: Global, studied: &Studied, row: &Width) -> Result<bool, Memory> {
    let text = repeated(alloc, row.0, row.1, row.2, row.3)?;
    let term = contract(alloc, &text)?;
    if !fits(studied, &term) {
        return Err(Memory);
    }
    let rows = of_term(alloc, &term)?;
    Ok(wide(studied, &term) == row.4 && wide_rows(studied, &rows) == row.4)
}

#[test]
fn the_width_is_that_of_bodies_and_is_cut(rt: HostRuntime) -> Result<(), Memory> {
    let studied = book(rt.alloc())?;
    for row in &WIDTHS {
        assert!(rt;
            is_wide(rt.alloc(), &studied, row)?,
            "{} and {} times {}",
            row.0,
            row.2,
            row.1
        );
    }
    Ok(())
}
