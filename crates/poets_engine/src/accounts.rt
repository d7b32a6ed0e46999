//! What is kept of one contract, handed out.
ghost use Rattle.std.specs.Prelude.{◌≡◌, ◌++◌, IfOk, OnOk};
ghost use Rattle.poets_table.specs.Pieces.{joined};
ghost use Rattle.poets_table.specs.TableView.{row_view};
ghost use Rattle.poets_engine.specs.code.Accounted.{AccountsInStore, IsAccountOfRow};
ghost use Rattle.poets_engine.specs.code.Withdrawals.{IsKeptStore};

use crate::store::Store;
use poets_cons::{Rows, to_term};
use poets_rules::Rules;
use poets_syntax::{Term, copy};
use poets_table::{Events, Row};
use poets_value::{Event, List, Memory, Name, push};
use std::alloc::Global;

/// A contract: as it was registered, what is still owed, its recorded events, and whether it was ended.
#[derive(Debug, PartialEq, Eq, Drop)]
pub struct Account {
    pub original: Term,
    pub residual: Term,
    pub events: List<Event>,
    pub ended: bool,
}

// Adds the events of a piece at the end.
fn add_piece(list: &mut List<Event>, piece: &[Event]) -> Result<(), Memory>
    ensures { OnOk result (list.new.items ≡ list.old.items ++ piece.now) }
{
    for event in piece {
        push(list, *event)?;
    }
    Ok(())
}

// The events in one list.
fn listed(alloc: Global, events: &Events) -> Result<List<Event>, Memory>
    ensures { IfOk result (λ r. r.items ≡ joined events.now.pieces) }
{
    let mut list = List::new(alloc);
    for place in 0..events.piece_count() {
        let Some(piece) = events.piece(place) else {
            unreachable!()
        };
        add_piece(&mut list, piece)?;
    }
    Ok(list)
}

// The account of the contract of a row.
fn account_of(alloc: Global, row: &Row<Term, Rows>) -> Result<Account, Memory>
    ensures { IfOk result (IsAccountOfRow (row_view row.now)) }
{
    let events = listed(alloc, &row.events)?;
    let residual = to_term(alloc, &*row.current)?;
    let original = copy(alloc, &*row.original)?;
    Ok(Account {
        original,
        residual,
        events,
        ended: row.ended,
    })
}

/// The account of the contract with a name, if there is one.
pub(crate) fn account_named(
    alloc: Global,
    rules: &Rules,
    store: &Store,
    name: Name,
) -> Result<Option<Account>, Memory>
    requires { IsKeptStore rules.now store.now }
    ensures { IfOk result (AccountsInStore rules.now store.now name) }
{
    let Some(number) = store.find(name) else {
        return Ok(None);
    };
    let account = account_of(alloc, store.row(number))?;
    Ok(Some(account))
}
