//! Lists of sides in a table.
ghost use Rattle.std.specs.Prelude.{◌≡◌, ◌<◌, ◌≤◌, [], ◌∷◌, length, slice_get, Some, IfOk};
ghost use Rattle.std.specs.List.{slice_index_or};
ghost use Rattle.poets_way.specs.Trails.{seconds, sides_of};
ghost use Rattle.poets_way.specs.code.Table.{HaveCounts, RestsAreEarlier};

use crate::node::Side;
use poets_value::{List, Memory, push};
use std::alloc::Global;

// The row at a place.
fn nth(rows: &[Side], place: usize) -> Side
    requires { place < length rows.now }
    ensures { slice_get rows.now place ≡ Some result }
{
    rows[place]
}

/// The row of the list with that number.
pub(crate) fn row_at(rows: &[Side], number: usize) -> Side
    requires rows { RestsAreEarlier 1 rows.now }
    requires some { 0 < number }
    requires within { number ≤ length rows.now }
    ensures sides { slice_index_or (sides_of rows.now) number []
        ≡ result.second ∷ slice_index_or (sides_of rows.now) result.rest [] }
    ensures rest { result.rest < number }
{
    nth(rows, number - 1)
}

/// How many sides of the list with that number are second ones.
pub(crate) fn seconds_of(rows: &[Side], number: usize) -> usize
    requires rows { RestsAreEarlier 1 rows.now }
    requires counts { HaveCounts ([] ∷ []) rows.now }
    requires within { number ≤ length rows.now }
    ensures seconds { result ≡ seconds (slice_index_or (sides_of rows.now) number []) }
    ensures few { result ≤ number }
{
    if number == 0 {
        return 0;
    }
    nth(rows, number - 1).seconds
}

/// The row of a list: one side in front of the list with that number.
pub(crate) fn row_before(rows: &[Side], second: bool, rest: usize) -> Side
    requires rows { RestsAreEarlier 1 rows.now }
    requires counts { HaveCounts ([] ∷ []) rows.now }
    requires within { rest ≤ length rows.now }
    ensures second { result.second ≡ second }
    ensures rest { result.rest ≡ rest }
    ensures seconds { result.seconds ≡ seconds (second ∷ slice_index_or (sides_of rows.now) rest []) }
{
    let others = seconds_of(rows, rest);
    let seconds = if second { others + 1 } else { others };
    Side {
        second,
        rest,
        seconds,
    }
}

/// The sides of the list with that number, of which 0 is empty.
pub(crate) fn sides_from(alloc: Global, rows: &[Side], number: usize) -> Result<List<bool>, Memory>
    requires rows { RestsAreEarlier 1 rows.now }
    requires within { number ≤ length rows.now }
    ensures { IfOk result (λ sides. sides.items ≡ slice_index_or (sides_of rows.now) number []) }
{
    let mut sides = List::new(alloc);
    let mut rest = number;
    while rest > 0 {
        let row = row_at(rows, rest);
        push(&mut sides, row.second)?;
        rest = row.rest;
    }
    Ok(sides)
}
