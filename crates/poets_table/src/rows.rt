//! What becomes of rows.
ghost use Rattle.std.specs.Prelude.{◌≡◌, ◌<◌, map, length, IfOk, OnOk, OnErr};
ghost use Rattle.std.specs.Arc.{arc_value};
ghost use Rattle.poets_table.specs.TableView.{finished, row_view, values_of, with_event, with_piece, with_room};
ghost use Rattle.poets_table.specs.TableView as spec;
ghost use Rattle.poets_table.specs.code.Rows.{HasChangedAt, HasRoomAt, rooms_of, with_parts};

use crate::events::Events;
use crate::table::Row;
use poets_value::{Event, List, Memory, Name, push};
use std::alloc::Global;
use std::sync::Arc;

/// A row without events.
pub(crate) fn new_row<O: Drop, T: Drop>(
    alloc: Global,
    name: Name,
    original: Arc<O>,
    current: Arc<T>,
) -> Result<Row<O, T>, Memory>
    ensures same { IfOk result (λ r. row_view r ≡ spec.new_row name (arc_value original) (arc_value current)) }
    ensures name { IfOk result (λ r. r.name ≡ name) }
{
    let mut points = List::new(alloc);
    push(&mut points, Arc::try_clone(&current)?)?;
    Ok(Row {
        name,
        original,
        current,
        events: Events::new(alloc),
        points,
        ended: false,
    })
}

/// Makes room for an event in the row at a place.
#[tactic(auto, using(crate::proofs::Setting::set_map, crate::proofs::Setting::set_same, crate::proofs::Setting::set_get, crate::proofs::Setting::index_get))]
pub(crate) fn room_at<O, T: Drop>(rows: &mut Vec<Row<O, T>>, place: usize) -> Result<(), Memory>
    requires { place < length rows.old.items }
    ensures ok { OnOk result (HasChangedAt with_room place rows.old.items rows.new.items) }
    ensures err { OnErr result (map row_view rows.new.items ≡ map row_view rows.old.items) }
    ensures names { map (λ r. r.name) rows.new.items ≡ map (λ r. r.name) rows.old.items }
    ensures room { OnOk result (HasRoomAt place rows.new.items) }
{
    room_in(&mut rows[place])
}

/// Ends the row at a place.
#[tactic(auto, using(crate::proofs::Setting::set_map, crate::proofs::Setting::set_same, crate::proofs::Setting::set_get, crate::proofs::Setting::index_get))]
pub(crate) fn end_at<O, T>(rows: &mut Vec<Row<O, T>>, place: usize)
    requires { place < length rows.old.items }
    ensures same { HasChangedAt finished place rows.old.items rows.new.items }
    ensures names { map (λ r. r.name) rows.new.items ≡ map (λ r. r.name) rows.old.items }
    ensures rooms { rooms_of rows.new.items ≡ rooms_of rows.old.items }
{
    end(&mut rows[place]);
}

/// Adds an event to the row at a place.
#[tactic(auto, using(crate::proofs::Setting::set_map, crate::proofs::Setting::set_same, crate::proofs::Setting::set_get, crate::proofs::Setting::index_get))]
pub(crate) fn append_at<O, T: Drop>(
    rows: &mut Vec<Row<O, T>>,
    place: usize,
    event: Event,
    current: Arc<T>,
)
    requires place { place < length rows.old.items }
    requires room { HasRoomAt place rows.old.items }
    ensures same { HasChangedAt (with_event event (arc_value current)) place rows.old.items rows.new.items }
    ensures names { map (λ r. r.name) rows.new.items ≡ map (λ r. r.name) rows.old.items }
{
    append(&mut rows[place], event, current);
}

/// Puts other events in the row at a place, with what is owed then, and what was owed ahead of each piece.
#[tactic(auto, using(crate::proofs::Setting::set_map, crate::proofs::Setting::set_same, crate::proofs::Setting::set_get, crate::proofs::Setting::index_get))]
pub(crate) fn replace_at<O, T: Drop>(
    rows: &mut Vec<Row<O, T>>,
    place: usize,
    events: Events,
    owed: Arc<T>,
    points: List<Arc<T>>,
)
    requires { place < length rows.old.items }
    ensures same { HasChangedAt (with_parts events owed points) place rows.old.items rows.new.items }
    ensures names { map (λ r. r.name) rows.new.items ≡ map (λ r. r.name) rows.old.items }
{
    replace(&mut rows[place], events, owed, points);
}

// Makes room for an event.
fn room_in<O, T: Drop>(row: &mut Row<O, T>) -> Result<(), Memory>
    ensures ok { OnOk result (row_view row.new ≡ with_room (row_view row.old)) }
    ensures err { OnErr result (row_view row.new ≡ row_view row.old) }
    ensures name { row.new.name ≡ row.old.name }
    ensures room { OnOk result (0 < row.new.events.room) }
{
    if row.events.is_full() {
        return begin_piece(row);
    }
    row.events.make_room()
}

// Begins a new piece, ahead of which the current is owed.
fn begin_piece<O, T: Drop>(row: &mut Row<O, T>) -> Result<(), Memory>
    ensures ok { OnOk result (row_view row.new ≡ with_piece (row_view row.old)) }
    ensures err { OnErr result (row_view row.new ≡ row_view row.old) }
    ensures name { row.new.name ≡ row.old.name }
    ensures room { OnOk result (0 < row.new.events.room) }
{
    row.points.reserve(1)?;
    let point = Arc::try_clone(&row.current)?;
    row.events.begin_piece()?;
    let Ok(()) = row.points.push(point) else {
        unreachable!();
    };
    Ok(())
}

// Ends the row.
fn end<O, T>(row: &mut Row<O, T>)
    ensures same { row_view row.new ≡ finished (row_view row.old) }
    ensures name { row.new.name ≡ row.old.name }
    ensures room { row.new.events.room ≡ row.old.events.room }
{
    row.ended = true;
}

// Adds an event that there is room for.
fn append<O, T: Drop>(row: &mut Row<O, T>, event: Event, current: Arc<T>)
    requires { 0 < row.old.events.room }
    ensures same { row_view row.new ≡ with_event event (arc_value current) (row_view row.old) }
    ensures name { row.new.name ≡ row.old.name }
{
    row.events.add(event);
    row.current = current;
}

// Puts other events in the row, with what is owed then, and what was owed ahead of each piece.
fn replace<O, T: Drop>(row: &mut Row<O, T>, events: Events, owed: Arc<T>, points: List<Arc<T>>)
    ensures same { row_view row.new ≡ with_parts events owed points (row_view row.old) }
    ensures name { row.new.name ≡ row.old.name }
{
    row.events = events;
    row.current = owed;
    row.points = points;
}
