//! Transmissions.
ghost use Rattle.std.specs.Prelude.{◌≡◌, ◌+◌, ◌≤◌, IfOk, OnErr};
ghost use Rattle.std.specs.Arc.{arc_value};
ghost use Rattle.poets_table.specs.Pieces.{joined};
ghost use Rattle.poets_cons.specs.Table.{contract_of_rows};
ghost use Rattle.poets_syntax.specs.Applied.{CountsFit};
ghost use Rattle.poets_syntax.specs.Book.{book_of};
ghost use Rattle.poets_command.specs.Plain.{Command};
ghost use Rattle.poets_history.specs.Ledger.{last_day, late_day};
ghost use Rattle.poets_engine.specs.code.Judgements.{AreKept, IsJudgementBy, KeptFits, judgement_of};
ghost use Rattle.poets_engine.specs.Evaluations.{asked_in};
ghost use Rattle.poets_engine.specs.Takes.{IsTakenBy};
ghost use Rattle.poets_engine.specs.code.Asking.{asked_to_transmit};
ghost use Rattle.poets_engine.specs.code.Makes.{MakesReply};

use crate::judging::{Decision, take_event};
use crate::store::Store;
use poets_command::Reply;
use poets_cons::Rows;
use poets_expr::Asks;
use poets_meaning::Studied;
use poets_residue::may_end_rows;
use poets_rules::Rules;
use poets_syntax::Term;
use poets_table::{Events, Row};
use poets_value::{Day, Event, Memory, Name};
use std::alloc::Global;

// The day of the last event.
fn last_day_of(events: &Events) -> Option<Day>
    ensures { result ≡ last_day (joined events.now.pieces) }
{
    match events.last() {
        Some(last) => Some(last.day),
        None => None,
    }
}

// The last day recorded, where the given day is before it.
fn late(events: &Events, day: &Day) -> Option<Day>
    ensures { result ≡ late_day (joined events.now.pieces) day.now }
{
    let last = last_day_of(events)?;
    if day.number() < last.number() {
        Some(last)
    } else {
        None
    }
}

// What becomes of a contract's row by an event.
fn decide<T>(
    alloc: Global,
    studied: &Studied,
    row: &Row<Term, Rows>,
    event: &Event,
    asks: &mut Asks<T>,
) -> Result<Decision, Memory>
    requires { CountsFit (book_of studied.now.book) (contract_of_rows (arc_value row.now.current)) }
    ensures choice { IfOk result (IsJudgementBy studied.now row.now event.now) }
    ensures fits { IfOk result (λ d. KeptFits (book_of studied.now.book) (judgement_of d)) }
    ensures asks { asks.new ≤ asks.old + asked_in studied.now (contract_of_rows (arc_value row.now.current)) }
    ensures rises { asks.old ≤ asks.new }
{
    if row.ended {
        return Ok(Decision::Refused(Reply::Ended));
    }
    if let Some(last) = late(&row.events, &event.day) {
        return Ok(Decision::Refused(Reply::Late(last)));
    }
    take_event(alloc, studied, &*row.current, event, asks)
}

/// Transmits an event on the contract with a name.
#[tactic(auto, using(crate::proofs::Transmitting::transmit_absent))]
pub(crate) fn transmit<T>(
    alloc: Global,
    rules: &Rules,
    store: &mut Store,
    name: Name,
    event: &Event,
    asks: &mut Asks<T>,
) -> Result<Reply, Memory>
    requires taken { IsTakenBy rules.now (Command.Transmit name event.now) }
    requires rows { AreKept rules.now.studied store.old.rows }
    ensures ok { IfOk result (MakesReply rules.now (Command.Transmit name event.now) store.old store.new) }
    ensures err { OnErr result (store.new ≡ store.old) }
    ensures asks { asks.new ≤ asks.old + asked_to_transmit rules.now store.old name }
    ensures rises { asks.old ≤ asks.new }
{
    let Some(number) = store.find(name) else {
        return Ok(Reply::NoContract(name));
    };
    let row = store.row(number);
    let count = row.events.len() as u64 + 1;
    match decide(alloc, &rules.studied, row, event, asks)? {
        Decision::Refused(reply) => Ok(reply),
        Decision::Owed(next) => {
            let may_end = may_end_rows(&rules.studied, &*next);
            store.record(&rules.studied.book().decls, number, event, next, asks)?;
            Ok(Reply::Recorded { count, may_end })
        }
    }
}
