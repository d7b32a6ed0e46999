//! Withdrawals.
ghost use Rattle.std.specs.Prelude.{◌≡◌, ◌+◌, ◌<◌, ◌≤◌, ◌++◌, ◌∷◌, [], IfOk, OnErr, OnOk, drop, length, map};
ghost use Rattle.std.specs.Arc.{arc_value};
ghost use Rattle.poets_syntax.specs.Applied.{CountsFit};
ghost use Rattle.poets_syntax.specs.Book.{book_of};
ghost use Rattle.poets_cons.specs.Table.{contract_of_rows};
ghost use Rattle.poets_table.specs.Pieces.{joined};
ghost use Rattle.poets_table.specs.TableView.{values_of};
ghost use Rattle.poets_command.specs.Plain.{Command};
ghost use Rattle.poets_engine.specs.Evaluations.{asked_to_void};
ghost use Rattle.poets_engine.specs.code.Judgements.{KeptFits, judgement_of};
ghost use Rattle.poets_engine.specs.code.Makes.{MakesReply};
ghost use Rattle.poets_engine.specs.code.Renewals.{FitsAt, IsRenewed, asked_along, by_events, owed_at};
ghost use Rattle.poets_engine.specs.code.Withdrawals.{IsKeptStore, place_from_nought};

use crate::judging::{Decision, take_event};
use crate::store::Store;
use poets_command::Reply;
use poets_cons::Rows;
use poets_expr::Asks;
use poets_meaning::Studied;
use poets_residue::may_end_rows;
use poets_rules::Rules;
use poets_table::Events;
use poets_value::{Event, List, Memory, Name, push};
use std::alloc::Global;
use std::sync::Arc;

/// A refusal, or what is owed once an event is out.
#[derive(Drop)]
pub(crate) enum Renewal {
    Refused(Reply),
    Owed {
        /// What is owed from then on.
        current: Arc<Rows>,
        /// What is owed ahead of each piece of the events that remain.
        points: List<Arc<Rows>>,
    },
}

// What becomes of a contract by events, one after the other.
fn go_on<T>(
    alloc: Global,
    studied: &Studied,
    owed: Arc<Rows>,
    events: &[Event],
    asks: &mut Asks<T>,
) -> Result<Decision, Memory>
    requires { CountsFit (book_of studied.now.book) (contract_of_rows (arc_value owed)) }
    ensures choice { IfOk result (λ d.
        judgement_of d ≡ by_events studied.now (contract_of_rows (arc_value owed)) events.now) }
    ensures fits { IfOk result (λ d. KeptFits (book_of studied.now.book) (judgement_of d)) }
    ensures asks { asks.new ≤ asks.old + asked_along studied.now (contract_of_rows (arc_value owed)) events.now }
    ensures rises { asks.old ≤ asks.new }
{
    let mut owed = owed;
    for event in events {
        match take_event(alloc, studied, &*owed, event, asks)? {
            Decision::Refused(reply) => return Ok(Decision::Refused(reply)),
            Decision::Owed(next) => owed = next,
        }
    }
    Ok(Decision::Owed(owed))
}

// Adds a point, which is shared.
fn push_point(points: &mut List<Arc<Rows>>, point: &Arc<Rows>) -> Result<(), Memory>
    ensures { OnOk result (values_of points.new ≡ values_of points.old ++ arc_value point.now ∷ []) }
{
    push(points, Arc::try_clone(point)?)
}

// A list that shares the points.
fn shared(alloc: Global, points: &[Arc<Rows>]) -> Result<List<Arc<Rows>>, Memory>
    ensures { IfOk result (λ l. values_of l ≡ map arc_value points.now) }
{
    let mut shared = List::new(alloc);
    for point in points {
        push_point(&mut shared, point)?;
    }
    Ok(shared)
}

// What is owed by these events, of which one was taken out of the piece with the number: from that piece on it is made
// anew, and ahead of it it stands.
fn renew<T>(
    alloc: Global,
    studied: &Studied,
    points: &List<Arc<Rows>>,
    events: &Events,
    number: usize,
    asks: &mut Asks<T>,
) -> Result<Renewal, Memory>
    requires number { number < length points.now.items }
    requires fits { FitsAt studied.now points.now number }
    ensures owed { IfOk result (IsRenewed studied.now points.now events.now.pieces number) }
    ensures asks { asks.new ≤ asks.old
        + asked_along studied.now (owed_at points.now number) (joined (drop number events.now.pieces)) }
    ensures rises { asks.old ≤ asks.new }
{
    let was = points.as_slice();
    let mut made = shared(alloc, &was[..number])?;
    let mut owed = Arc::try_clone(&was[number])?;
    for place in number..events.piece_count() {
        let Some(piece) = events.piece(place) else {
            unreachable!()
        };
        push_point(&mut made, &owed)?;
        match go_on(alloc, studied, owed, piece, asks)? {
            Decision::Refused(reply) => return Ok(Renewal::Refused(reply)),
            Decision::Owed(next) => owed = next,
        }
    }
    Ok(Renewal::Owed {
        current: owed,
        points: made,
    })
}

// The place, counted from 0, of the event at a place that counts from 1.
fn place_in(events: &Events, place: u64) -> Option<u64>
    ensures { result ≡ place_from_nought (joined events.now.pieces) place }
{
    let place = place.checked_sub(1)?;
    if place < events.len() as u64 {
        Some(place)
    } else {
        None
    }
}

/// Withdraws the event at a place, which counts from 1, of the contract with a name.
#[tactic(auto, using(crate::proofs::Withdrawing::void_absent))]
pub(crate) fn void<T>(
    alloc: Global,
    rules: &Rules,
    store: &mut Store,
    name: Name,
    place: u64,
    asks: &mut Asks<T>,
) -> Result<Reply, Memory>
    requires kept { IsKeptStore rules.now store.old }
    ensures ok { IfOk result (MakesReply rules.now (Command.Void name place) store.old store.new) }
    ensures err { OnErr result (store.new ≡ store.old) }
    ensures asks { asks.new ≤ asks.old + asked_to_void rules.now store.old name place }
    ensures rises { asks.old ≤ asks.new }
{
    let Some(number) = store.find(name) else {
        return Ok(Reply::NoContract(name));
    };
    let row = store.row(number);
    if row.ended {
        return Ok(Reply::Ended);
    }
    let Some(from_nought) = place_in(&row.events, place) else {
        return Ok(Reply::NoEvent(place));
    };
    let cut = store.cut(number, from_nought)?;
    let left = cut.events();
    let count = left.len() as u64;
    let piece = row.events.piece_of(from_nought as usize);
    match renew(alloc, &rules.studied, &row.points, left, piece, asks)? {
        Renewal::Refused(reply) => Ok(reply),
        Renewal::Owed { current, points } => {
            let may_end = may_end_rows(&rules.studied, &*current);
            store.withdraw(&rules.studied.book().decls, cut, current, points, asks)?;
            Ok(Reply::Voided { count, may_end })
        }
    }
}
