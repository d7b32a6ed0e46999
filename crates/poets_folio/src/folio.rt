//! Portfolios.
ghost use Rattle.std.specs.Prelude.{◌≡◌, length, IfOk};
ghost use Rattle.std.specs.List.{AllZip};
ghost use Rattle.poets_report.specs.UnderNames.{GoesOnUnder};
ghost use Rattle.poets_table.specs.Pieces.{joined};
ghost use Rattle.poets_folio.specs.Rows.{HasRowsOf, HasTotalOf};
ghost use Rattle.poets_folio.specs.code.Parts.{IsRowUnder};

use crate::total::total;
use poets_command::Folio;
use poets_expr::{Asks, Decls};
use poets_report::{Answer, Fold, Report};
use poets_table::Events;
use poets_value::{List, Memory, Name, Value, push};
use rayon::prelude::*;
use std::alloc::Global;
use std::thread::Threads;

/// A contract's name and its recorded events.
#[derive(Drop)]
pub struct Part {
    pub name: Name,
    pub events: Events,
}

/// The report over the events of each part, in the order of the parts, and the total, which is
/// there exactly for a report of whole numbers without a key. The rows are made in parallel.
pub fn portfolio<R: Threads + Sync>(
    rt: &R,
    alloc: Global,
    decls: &Decls,
    report: &Report,
    args: &List<Option<Value>>,
    parts: &List<Part>,
) -> Result<Folio, Memory>
    requires { length args.now.items ≡ length report.now.params.items }
    ensures rows { IfOk result (HasRowsOf decls.now report.now args.now parts.now) }
    ensures total { IfOk result (HasTotalOf report.now) }
{
    let rows = listed(
        alloc,
        rows(rt, alloc, decls, report, args, parts.as_slice())?,
    )?;
    let total = total(report, rows.as_slice());
    Ok(Folio { rows, total })
}

// The rows of the parts in order, from as many threads as there are processors.
fn rows<R: Threads + Sync>(
    rt: &R,
    alloc: Global,
    decls: &Decls,
    report: &Report,
    args: &List<Option<Value>>,
    parts: &[Part],
) -> Result<Vec<(Name, Answer)>, Memory>
    requires { length args.now.items ≡ length report.now.params.items }
    ensures { IfOk result (λ v. AllZip (IsRowUnder decls.now report.now args.now) parts.now v.items) }
{
    let made: Result<Result<Vec<(Name, Answer)>, Memory>, _> = parts
        .par_iter()
        .map(
            |part: &Part| -> Result<(Name, Answer), Memory>
                requires { length args.now.items ≡ length report.now.params.items }
                ensures { IfOk result (IsRowUnder decls.entry.now report.entry.now args.entry.now part.now) }
            { row(alloc, decls, report, args, part) },
        )
        .collect(rt, alloc);
    match made {
        Ok(rows) => rows,
        Err(_) => Err(Memory),
    }
}

// The row of a part.
fn row(
    alloc: Global,
    decls: &Decls,
    report: &Report,
    args: &List<Option<Value>>,
    part: &Part,
) -> Result<(Name, Answer), Memory>
    requires { length args.now.items ≡ length report.now.params.items }
    ensures { IfOk result (IsRowUnder decls.now report.now args.now part.now) }
{
    let mut asks = Asks::new(());
    let start = Fold::start(alloc, decls, report, args, &mut asks)?;
    let fold = folded(start, decls, report, &part.events, &mut asks)?;
    Ok((part.name, fold.answer()?))
}

// The fold over more events, piece by piece.
fn folded<L>(
    mut fold: Fold,
    decls: &Decls,
    report: &Report,
    events: &Events,
    asks: &mut Asks<L>,
) -> Result<Fold, Memory>
    ensures { IfOk result (GoesOnUnder decls.now report.now (joined events.now.pieces) fold) }
{
    for place in 0..events.piece_count() {
        let Some(piece) = events.piece(place) else {
            unreachable!();
        };
        fold = fold.more(decls, report, piece, asks)?;
    }
    Ok(fold)
}

// The same rows as a list.
fn listed(alloc: Global, rows: Vec<(Name, Answer)>) -> Result<List<(Name, Answer)>, Memory>
    ensures { IfOk result (λ l. l.items ≡ rows.items) }
{
    let mut list = List::new(alloc);
    list.reserve(rows.len())?;
    for row in rows {
        push(&mut list, row)?;
    }
    Ok(list)
}
