//! Rows that are kept by their keys.
ghost use Rattle.std.specs.Prelude.{◌≡◌, [], IfOk, IsOk, OnOk, OnErr};
ghost use Rattle.poets_report.specs.Keyed.{HasRoom, Sets, row_at, rows_of};

use poets_value::{List, Memory, Value, push};
use std::alloc::Global;
use std::collections::BTreeMap;
use std::marker::Model;

/// Rows by their keys, and room for the rows of more keys. Contracts see the rows in order, and the keys for which
/// there is room.
#[derive(Drop)]
pub(crate) struct KeyedRows {
    // What each key has that is a value: an empty cell is room for its row.
    cells: BTreeMap<Value, Option<Option<Value>>>,
    // What the undefined key has.
    undefined: Option<Option<Value>>,
}

impl Model for KeyedRows {
    ghost use Rattle.poets_report.specs.Keyed.{KeyedView};

    ghost Value = { KeyedView };

    ghost use Rattle.std.specs.Map.{keys_of};
    ghost use Rattle.std.specs.List.Sorted.{IsStrictlySortedBy};
    ghost use Rattle.poets_value.specs.Order.{value_cmp};
    ghost use Rattle.poets_report.specs.Keyed.{rows_of};

    ghost view = { λ r. record {
      rows = rows_of r.cells.entries r.undefined;
      keys = keys_of r.cells.entries;
    } };

    ghost invariant = { λ r. IsStrictlySortedBy value_cmp (keys_of r.cells.entries) };
}

impl KeyedRows {
    /// No row.
    pub(crate) fn new(alloc: Global) -> KeyedRows
        ensures { result.rows ≡ [] }
    {
        KeyedRows {
            cells: BTreeMap::new(alloc),
            undefined: None,
        }
    }

    /// The value of the row of a key, if it has one.
    pub(crate) fn row(&self, key: &Option<Value>) -> Option<Option<Value>>
        ensures { result ≡ row_at key.now self.now.rows }
    {
        let Some(value) = key else {
            let _ = &self.cells;
            return self.undefined;
        };
        match self.cells.get(value) {
            Some(cell) => *cell,
            None => None,
        }
    }

    /// Makes room for the row of a key.
    pub(crate) fn make_room(&mut self, key: Option<Value>) -> Result<(), Memory>
        ensures rows { self.new.rows ≡ self.old.rows }
        ensures room { OnOk result (HasRoom key self.new.keys) }
    {
        let Some(value) = key else {
            return Ok(());
        };
        if self.cells.contains_key(&value) {
            return Ok(());
        }
        let Ok(_) = self.cells.insert(value, None) else {
            return Err(Memory);
        };
        Ok(())
    }

    /// Gives a key a row with that value, or takes its row out. It takes memory only for the row of a key without room.
    pub(crate) fn set(
        &mut self,
        key: Option<Value>,
        cell: Option<Option<Value>>,
    ) -> Result<(), Memory>
        ensures ok { OnOk result (Sets key cell self.old.rows self.new.rows) }
        ensures err { OnErr result (self.new ≡ self.old) }
        ensures succeeds { HasRoom key self.old.keys → IsOk result }
    {
        let Some(value) = key else {
            let _ = &self.cells;
            self.undefined = cell;
            return Ok(());
        };
        let Ok(_) = self.cells.insert(value, cell) else {
            return Err(Memory);
        };
        Ok(())
    }

    /// The rows in the order of their keys.
    pub(crate) fn rows(&self, alloc: Global) -> Result<List<(Option<Value>, Option<Value>)>, Memory>
        ensures { IfOk result (λ l. l.items ≡ self.now.rows) }
    {
        listed(alloc, &self.cells, &self.undefined)
    }
}

// The rows of the keys that are values, and then that of the undefined key.
fn listed(
    alloc: Global,
    cells: &BTreeMap<Value, Option<Option<Value>>>,
    undefined: &Option<Option<Value>>,
) -> Result<List<(Option<Value>, Option<Value>)>, Memory>
    ensures { IfOk result (λ l. l.items ≡ rows_of cells.now.entries undefined.now) }
{
    let mut rows = List::new(alloc);
    for (key, cell) in cells {
        if let Some(value) = cell {
            push(&mut rows, (Some(*key), *value))?;
        }
    }
    if let Some(value) = undefined {
        push(&mut rows, (None, *value))?;
    }
    Ok(rows)
}
