//! Rows that are noted for others.
ghost use Rattle.std.specs.Prelude.{◌≡◌, ◌<◌, ℕ, [], length, IfOk, OnErr, OnOk};
ghost use Rattle.poets_cons.specs.Notes.{noted, NotesRow};

use poets_value::Memory;
use std::alloc::Global;
use std::marker::Model;

/// For each of some rows, which row is noted for it.
#[derive(Drop)]
pub struct Notes {
    rows: Vec<Option<usize>>,
}

impl Model for Notes {
    ghost use Rattle.std.specs.Prelude.{ℕ, List, Option};

    ghost Value = { List (Option ℕ) };

    ghost view = { λ n. n.rows.items };
}

// Room for a note of the row.
fn reach(rows: &mut Vec<Option<usize>>, place: usize) -> Result<(), Memory>
    ensures within { OnOk result (place < length rows.new.items) }
    ensures same { (k : ℕ) → noted rows.new.items k ≡ noted rows.old.items k }
    ensures err { OnErr result (rows.new.items ≡ rows.old.items) }
{
    if place < rows.len() {
        return Ok(());
    }
    let Some(len) = place.checked_add(1) else {
        return Err(Memory);
    };
    let Ok(()) = rows.resize(len, None) else {
        return Err(Memory);
    };
    Ok(())
}

impl Notes {
    /// Nothing is noted.
    pub fn new(alloc: Global) -> Notes
        ensures { result ≡ [] }
    {
        Notes {
            rows: Vec::new(alloc),
        }
    }

    /// The row that is noted for another.
    pub fn get(&self, place: usize) -> Option<usize>
        ensures { result ≡ noted self.now place }
    {
        match self.rows.get(place) {
            Some(row) => *row,
            None => None,
        }
    }

    /// Notes a row for another, and hands it on.
    pub fn note(&mut self, place: usize, row: usize) -> Result<usize, Memory>
        ensures row { IfOk result (λ r. r ≡ row) }
        ensures notes { OnOk result (NotesRow self.old self.new place row) }
        ensures err { OnErr result (self.new ≡ self.old) }
    {
        reach(&mut self.rows, place)?;
        self.rows[place] = Some(row);
        Ok(row)
    }
}
