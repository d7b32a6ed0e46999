//! In which way a trace performs a contract.
ghost use Rattle.std.specs.Prelude.{◌≡◌, ◌+◌, ◌<◌, length, All, IfOk, []};
ghost use Rattle.poets_syntax.specs.Book.{book_of};
ghost use Rattle.poets_syntax.specs.Contract.{contract_of};
ghost use Rattle.poets_meaning.specs.InStudied.{CountsFitIn};
ghost use Rattle.poets_meaning.specs.Perf.{Perf};
ghost use Rattle.poets_meaning.specs.Studied.{marks_of};
ghost use Rattle.poets_norm.specs.Rows.{GivesRows};
ghost use Rattle.poets_cons.specs.Table.{contract_of_rows};
ghost use Rattle.poets_residue.specs.Unfolding.{IsStudied};
ghost use Rattle.poets_way.specs.Trails.{way_at};
ghost use Rattle.poets_way.specs.Ways.{Ways};
ghost use Rattle.poets_route.specs.Explained.{IsExplained, DeclaredIn, AreDeclaredIn, FormedIn};
ghost use Rattle.poets_route.specs.code.Back.{BacksWholeIn, IsReadyIn};
ghost use Rattle.poets_route.specs.code.Making.{Gives};
ghost use Rattle.poets_route.specs.code.Through.{through_in, ArePieces, AreResiduals, BacksAllIn, BacksOverIn, IsFound};
ghost use Rattle.poets_route.specs.code.Through.{Passes};
ghost use Rattle.poets_route.specs.code.Undone.{EndsIn};

use crate::backward::back;
use crate::endings::ended;
use crate::normalizing::{normal_of, normal_rows_of, rows_after};
use crate::undoing::undone;
use poets_cons::{Rows, to_term};
use poets_meaning::Studied;
use poets_residue::may_end_rows;
use poets_syntax::Term;
use poets_value::{Event, List, Memory, push};
use poets_way::{Trails, Way};
use std::alloc::Global;

// How many events are worked through at once: their residuals are held together.
const PIECE: usize = 256;

// The contract taken through the events.
fn through(alloc: Global, studied: &Studied, rows: &Rows, events: &[Event]) -> Result<Rows, Memory>
    requires studied { IsStudied (book_of studied.now.book) (marks_of studied.now) }
    requires fits { CountsFitIn studied.now (contract_of_rows rows.now) }
    requires some { 0 < length events.now }
    ensures { GivesRows result (through_in studied.now (contract_of_rows rows.now) events.now) }
{
    let mut last = rows_after(alloc, studied, rows, &events[0])?;
    for event in &events[1..] {
        last = rows_after(alloc, studied, &last, event)?;
    }
    Ok(last)
}

// The residuals ahead of the events, one by one, and that after all.
fn residuals(
    alloc: Global,
    studied: &Studied,
    start: Rows,
    events: &[Event],
) -> Result<List<Rows>, Memory>
    requires { IsReadyIn studied.now (contract_of_rows start) }
    ensures { IfOk result (λ r. AreResiduals studied.now (contract_of_rows start) events.now r.items) }
{
    let mut rows = List::new(alloc);
    let mut last = start;
    for event in events {
        let next = rows_after(alloc, studied, &last, event)?;
        push(&mut rows, last)?;
        last = next;
    }
    push(&mut rows, last)?;
    Ok(rows)
}

// The residuals ahead of the pieces of the events, and that after all.
fn stations(
    alloc: Global,
    studied: &Studied,
    start: Rows,
    events: &[Event],
) -> Result<(List<Rows>, Rows), Memory>
    requires { IsReadyIn studied.now (contract_of_rows start) }
    ensures { IfOk result (λ r. Passes studied.now (contract_of_rows start) events.now PIECE r.0.items r.1) }
{
    let mut stations = List::new(alloc);
    let mut last = start;
    let mut at = 0;
    while at < events.len() {
        let end = at + PIECE.min(events.len() - at);
        let next = through(alloc, studied, &last, &events[at..end])?;
        push(&mut stations, last)?;
        last = next;
        at = end;
    }
    Ok((stations, last))
}

// A way of the contract of rows by an event and then so many, from a way of its residual by these.
fn back_over(
    alloc: Global,
    studied: &Studied,
    event: &Event,
    rows: &Rows,
    after: &Rows,
    trails: &mut Trails,
    way: usize,
    events: u64,
) -> Result<usize, Memory>
    requires event { DeclaredIn studied.now event.now }
    requires ready { IsReadyIn studied.now (contract_of_rows rows.now) }
    requires way { way < length trails.old.ways }
    requires room { events < u64.MAX }
    ensures { let old = trails.old in Gives old trails.new result
        (BacksWholeIn studied.now event.now events (contract_of_rows rows.now) (contract_of_rows after.now)
        (way_at old way)) }
{
    let term = to_term(alloc, rows)?;
    let whole = to_term(alloc, after)?;
    back(alloc, studied, event, &term, &whole, trails, way, events)
}

// A way by a piece and then so many events, from a way of what the piece leaves by these.
fn over_piece(
    alloc: Global,
    studied: &Studied,
    start: Rows,
    piece: &[Event],
    trails: &mut Trails,
    way: usize,
    events: usize,
) -> Result<usize, Memory>
    requires ready { IsReadyIn studied.now (contract_of_rows start) }
    requires events { AreDeclaredIn studied.now piece.now }
    requires way { way < length trails.old.ways }
    requires room { events + length piece.now < u64.MAX }
    ensures { let old = trails.old in Gives old trails.new result
        (BacksOverIn studied.now events (contract_of_rows start) piece.now (way_at old way)) }
{
    let rows = residuals(alloc, studied, start, piece)?;
    let rows = rows.as_slice();
    let mut way = way;
    for k in (0..piece.len()).rev() {
        let later = (events + (piece.len() - 1 - k)) as u64;
        way = back_over(
            alloc,
            studied,
            &piece[k],
            &rows[k],
            &rows[k + 1],
            trails,
            way,
            later,
        )?;
    }
    Ok(way)
}

// A way by the events, from one of the empty trace by what they leave. The pieces are gone over from the last one on.
fn over_pieces(
    alloc: Global,
    studied: &Studied,
    stations: List<Rows>,
    events: &[Event],
    trails: &mut Trails,
    way: usize,
) -> Result<usize, Memory>
    requires ready { All (λ r. IsReadyIn studied.now (contract_of_rows r)) stations.items }
    requires events { AreDeclaredIn studied.now events.now }
    requires pieces { ArePieces PIECE (length stations.items) (length events.now) }
    requires way { way < length trails.old.ways }
    ensures { let old = trails.old in Gives old trails.new result
        (BacksAllIn studied.now PIECE stations.items events.now (way_at old way)) }
{
    let mut stations = stations;
    let mut way = way;
    let mut end = events.len();
    while let Some(start) = stations.pop() {
        let at = PIECE * stations.len();
        let piece = &events[at..end];
        let later = events.len() - end;
        way = over_piece(alloc, studied, start, piece, trails, way, later)?;
        end = at;
    }
    Ok(way)
}

// A way of the empty trace by the contract of rows that may end.
fn over_none(
    alloc: Global,
    studied: &Studied,
    rows: &Rows,
    trails: &mut Trails,
) -> Result<usize, Memory>
    requires ready { IsReadyIn studied.now (contract_of_rows rows.now) }
    requires ends { Perf (book_of studied.now.book) [] (contract_of_rows rows.now) [] }
    ensures { Gives trails.old trails.new result (EndsIn studied.now (contract_of_rows rows.now)) }
{
    let term = to_term(alloc, rows)?;
    ended(studied, &term, trails)
}

// A way of the contract of rows by the events, if they perform it.
fn over(
    alloc: Global,
    studied: &Studied,
    start: Rows,
    events: &[Event],
    trails: &mut Trails,
) -> Result<Option<usize>, Memory>
    requires ready { IsReadyIn studied.now (contract_of_rows start) }
    requires events { AreDeclaredIn studied.now events.now }
    ensures { IfOk result (IsFound studied.now (contract_of_rows start) events.now trails.old trails.new) }
{
    let (stations, last) = stations(alloc, studied, start, events)?;
    if !may_end_rows(studied, &last) {
        return Ok(None);
    }
    let way = over_none(alloc, studied, &last, trails)?;
    let way = over_pieces(alloc, studied, stations, events, trails, way)?;
    Ok(Some(way))
}

/// A way in which the events perform the contract, and none exactly where they do not.
///
/// It goes forward by residuals, and then back through them, from a way of the last one to a way of the first. On the
/// way forward it keeps one residual for each 256 events; on the way back it makes those of one such piece again, so
/// each event is taken twice.
pub fn explain(
    alloc: Global,
    studied: &Studied,
    term: &Term,
    events: &List<Event>,
) -> Result<Option<Way>, Memory>
    requires fits { CountsFitIn studied.now (contract_of term.now) }
    requires formed { FormedIn studied.now (contract_of term.now) }
    requires events { AreDeclaredIn studied.now events.now.items }
    ensures { IfOk result (IsExplained studied.now (contract_of term.now) events.now.items) }
{
    studied.recall();
    let mut trails = Trails::new(alloc);
    let start = normal_rows_of(alloc, studied, term)?;
    let found = over(alloc, studied, start, events.as_slice(), &mut trails)?;
    let Some(way) = found else {
        return Ok(None);
    };
    let whole = normal_of(alloc, studied, term)?;
    let count = events.len() as u64;
    let way = undone(alloc, studied, term, &whole, &mut trails, way, count)?;
    Ok(Some(trails.way(alloc, way)?))
}
