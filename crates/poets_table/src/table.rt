//! Rows by name, and a log.
ghost use Rattle.std.specs.Prelude.{◌≡◌, ◌+◌, ◌-◌, ◌≤◌, ◌<◌, ◌++◌, ◌∷◌, [], length, remove, IfOk, OnOk, IsOk, OnErr, Some, None, slice_get};
ghost use Rattle.poets_table.specs.Pieces.{joined};
ghost use Rattle.poets_table.specs.TableView.{AreEventsOf, Cuts, IsCutOf, IsLive, IsPlaceOf, IsSameButRoom, changed_at, events_with, finished, number_named, place_in_log, recorded, row_view, taken_out, with_room, with_row};
ghost use Rattle.poets_table.specs.code.Rows as spec;

use crate::cut::Cut;
use crate::events::Events;
use crate::rows::{append_at, end_at, new_row, replace_at, room_at};
use indexmap::IndexSet;
use poets_value::{Event, List, Memory, Name};
use std::alloc::Global;
use std::marker::Model;
use std::sync::Arc;

/// A contract's row.
#[derive(Drop)]
pub struct Row<O, T> {
    pub name: Name,
    /// The contract as it was registered, shared with who registered it.
    pub original: Arc<O>,
    /// What is still owed.
    pub current: Arc<T>,
    pub events: Events,
    /// For each piece of the events, what was owed before it.
    pub points: List<Arc<T>>,
    pub ended: bool,
}

/// Rows by name, in order, and the log of all events.
#[derive(Drop)]
pub struct Table<O, T> {
    names: IndexSet<Name>,
    rows: Vec<Row<O, T>>,
    log: List<(u64, Event)>,
    ready: u64,
}

impl<O, T> Model for Table<O, T> {
    ghost use Rattle.poets_table.specs.TableView.{TableView};

    ghost Value = { TableView O T };

    ghost use Rattle.std.specs.Prelude.{map};
    ghost use Rattle.poets_table.specs.TableView.{row_view};
    ghost use Rattle.poets_table.specs.Kept.{AreNames, AreOfLog, IsReady};

    ghost view = { λ t. record {
      rows = map row_view t.rows.items;
      log = t.log.items;
      ready = t.ready;
    } };

    ghost invariant = { λ t.
        AreNames t.names.keys t.rows.items × IsReady t.ready t.rows.items t.log
        × AreOfLog (map row_view t.rows.items) t.log.items };
}

impl<O, T> Table<O, T> {
    /// The empty table.
    pub fn new(alloc: Global) -> Table<O, T>
        ensures { (result.rows ≡ []) × (result.log ≡ []) × (result.ready ≡ 0) }
    {
        Table {
            names: IndexSet::new(alloc),
            rows: Vec::new(alloc),
            log: List::new(alloc),
            ready: 0,
        }
    }

    /// The log of all events.
    pub fn log(&self) -> &List<(u64, Event)>
        ensures { result.now.items ≡ self.now.log }
    {
        &self.log
    }

    /// The row with a number, which counts from 1.
    pub fn row(&self, number: u64) -> &Row<O, T>
        requires { IsLive number self.now.rows }
        ensures { slice_get self.now.rows (number - 1) ≡ Some (row_view result.now) }
    {
        &self.rows[(number - 1) as usize]
    }

    /// The events of the row with a number, as they are now. The sealed pieces are shared with the row.
    pub fn events(&self, number: u64) -> Result<Events, Memory>
        requires { IsLive number self.now.rows }
        ensures { IfOk result (λ e. AreEventsOf number self.now.rows (joined e.pieces)) }
    {
        self.row(number).events.share()
    }

    /// The number of the row with a name, if there is one.
    pub fn find(&self, name: Name) -> Option<u64>
        ensures { result ≡ number_named name self.now.rows }
    {
        let _count = self.names.len();
        let Some(place) = self.names.get_index_of(&name) else {
            return None;
        };
        Some(place as u64 + 1)
    }

    /// The place in the log of the event at a place, from 0, of the row with the number.
    pub fn log_place(&self, number: u64, place: u64) -> u64
        requires live { IsLive number self.now.rows }
        requires place { IsPlaceOf number place self.now.rows }
        ensures { result ≡ place_in_log number place self.now.log }
    {
        let count = self.row(number).events.len() as u64;
        pair_place(self.log.as_slice(), number, count - 1 - place) as u64
    }

    /// Prepares to take the event at a place, from 0, out of the row with the number. Nothing is changed.
    pub fn cut(&self, number: u64, place: u64) -> Result<Cut, Memory>
        requires live { IsLive number self.now.rows }
        requires place { IsPlaceOf number place self.now.rows }
        ensures { IfOk result (Cuts number place self.now) }
    {
        let log_place = self.log_place(number, place);
        let rest = self.row(number).events.without(place as usize)?;
        Ok(Cut {
            number,
            place,
            log_place,
            rest,
        })
    }

    /// Ends the row with the number.
    pub fn finish(&mut self, number: u64)
        requires { IsLive number self.old.rows }
        ensures rows { self.new.rows ≡ changed_at finished (number - 1) self.old.rows }
        ensures log { self.new.log ≡ self.old.log }
        ensures ready { self.new.ready ≡ self.old.ready }
    {
        end_at(&mut self.rows, (number - 1) as usize);
    }
}

/// Notes an event that there is room for.
fn note(log: &mut List<(u64, Event)>, number: u64, event: &Event)
    requires { 0 < log.old.room }
    ensures { log.new.items ≡ log.old.items ++ (number, event.now) ∷ [] }
{
    match log.push((number, *event)) {
        Ok(()) => {}
        Err(_) => unreachable!(),
    }
}

impl<O: Drop, T: Drop> Table<O, T> {
    /// Adds a row at the end, and returns its number. The room that was made is given up.
    pub fn add(&mut self, name: Name, original: Arc<O>, current: Arc<T>) -> Result<u64, Memory>
        requires { number_named name self.old.rows ≡ None }
        ensures ok { IfOk result (λ n. n ≡ length self.old.rows + 1) }
        ensures rows { OnOk result (self.new.rows ≡ with_row name original current self.old.rows) }
        ensures log { OnOk result (self.new.log ≡ self.old.log) }
        ensures err { OnErr result (IsSameButRoom self.old self.new) }
        ensures ready { self.new.ready ≡ 0 }
    {
        self.ready = 0;
        let alloc = *self.names.allocator();
        let Ok(()) = self.names.reserve(1) else {
            return Err(Memory);
        };
        let Ok(()) = self.rows.reserve(1) else {
            return Err(Memory);
        };
        let number = self.names.len() as u64 + 1;
        let row = new_row(alloc, name, original, current)?;
        let Ok(()) = self.rows.push(row) else {
            unreachable!();
        };
        let Ok(_) = self.names.insert(name) else {
            unreachable!();
        };
        Ok(number)
    }

    /// Makes room for one event of the row with the number and of the log. Where the last piece of the row is full, a
    /// new one begins.
    pub fn room(&mut self, number: u64) -> Result<(), Memory>
        requires { IsLive number self.old.rows }
        ensures ok { OnOk result (self.new.rows ≡ changed_at with_room (number - 1) self.old.rows) }
        ensures log { self.new.log ≡ self.old.log }
        ensures ready { OnOk result (self.new.ready ≡ number) }
        ensures err { OnErr result (IsSameButRoom self.old self.new) }
        ensures unready { OnErr result (self.new.ready ≡ 0) }
    {
        self.ready = 0;
        self.log.reserve(1)?;
        room_at(&mut self.rows, (number - 1) as usize)?;
        self.ready = number;
        Ok(())
    }

    /// Adds an event to the row with the number, whose `current` this replaces, and to the log.
    /// `room` has to have been called for this row, with no `add`, `enter`, `take_out` or failed `room` since.
    pub fn enter(&mut self, number: u64, event: Event, current: Arc<T>)
        requires live { IsLive number self.old.rows }
        requires ready { self.old.ready ≡ number }
        ensures rows { self.new.rows ≡ recorded number event current self.old.rows }
        ensures log { self.new.log ≡ self.old.log ++ (number, event) ∷ [] }
        ensures ready { self.new.ready ≡ 0 }
    {
        self.ready = 0;
        note(&mut self.log, number, &event);
        append_at(&mut self.rows, (number - 1) as usize, event, current);
    }

    /// Takes the event of a cut out of its row, and its pair out of the log. The row's `current` and `points` are then
    /// these, a point for each piece of the cut.
    pub fn take_out(&mut self, cut: Cut, current: Arc<T>, points: List<Arc<T>>)
        requires cut { IsCutOf self.old.rows self.old.log cut }
        requires points { length points.items ≡ length cut.starts }
        ensures rows { self.new.rows ≡ taken_out cut current points self.old.rows }
        ensures log { self.new.log ≡ remove self.old.log cut.log_place }
        ensures ready { self.new.ready ≡ 0 }
    {
        let Cut {
            number,
            log_place,
            rest,
            ..
        } = cut;
        self.ready = 0;
        let _pair = self.log.remove(log_place as usize);
        replace_at(&mut self.rows, (number - 1) as usize, rest, current, points);
    }
}

/// The place of the pair with a number behind which so many with the number stand. It is looked for from the end.
fn pair_place(log: &[(u64, Event)], number: u64, behind: u64) -> usize
    requires { behind < length (events_with number log.now) }
    ensures { result ≡ place_in_log number (length (events_with number log.now) - 1 - behind) log.now }
{
    let mut left = behind;
    for at in (0..log.len()).rev() {
        let Some(rest) = left_ahead(log[at].0 == number, left) else {
            return at;
        };
        left = rest;
    }
    unreachable!();
}

/// Ahead of a pair, how many of those behind the one that is looked for are left; none where it is the pair.
fn left_ahead(is_one: bool, left: u64) -> Option<u64>
    ensures { result ≡ spec.left_ahead is_one left }
{
    if is_one {
        left.checked_sub(1)
    } else {
        Some(left)
    }
}
