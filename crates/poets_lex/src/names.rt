//! The table of names.
ghost use Rattle.std.specs.Prelude.{◌≡◌, ℕ, ◌+◌, ◌<◌, ◌^◌, [], ◌∷◌, ◌++◌, length, Some, None, option_map, slice_get, IfOk, OnOk, OnErr};
ghost use Rattle.poets_lex.specs.Table.{with_text, place_of, IsName};

use indexmap::IndexSet;
use poets_value::{Memory, Name};
use std::alloc::Global;
use std::marker::Model;

/// The names of a session, numbered from 0 in the order in which they first occur in its text.
#[derive(Debug, Drop)]
pub struct Names {
    texts: IndexSet<String>,
}

impl Model for Names {
    ghost use Rattle.std.specs.Prelude.{ℕ, List, length, ◌<◌, ◌^◌};
    ghost use Rattle.poets_lex.specs.Table.{texts_of, IsTable};

    ghost Value = { List (List ℕ) };

    ghost view = { λ n. texts_of n.texts.keys };

    ghost invariant = { λ n. (length n.texts.keys < 2 ^ 32) × IsTable (texts_of n.texts.keys) };
}

impl Names {
    /// The empty table.
    pub fn new(alloc: Global) -> Names
        ensures { result ≡ [] }
    {
        Names {
            texts: IndexSet::new(alloc),
        }
    }

    /// The number of names.
    pub fn len(&self) -> u32
        ensures { result ≡ length self.now }
    {
        self.texts.len() as u32
    }

    /// The name's text.
    pub fn text(&self, name: Name) -> &str
        requires { name.id < length self.now }
        ensures text { slice_get self.now name.id ≡ Some result.now }
        ensures name { IsName result.now }
        ensures once { place_of result.now self.now ≡ Some name.id }
    {
        match self.texts.get_index(name.id as usize) {
            Some(text) => text.as_str(),
            None => unreachable!(),
        }
    }

    /// The name with that text, if the table has one.
    pub fn find(&self, text: &str) -> Option<Name>
        ensures { option_map (λ n. n.id) result ≡ place_of text.now self.now }
    {
        let place = self.texts.get_index_of(text)?;
        Some(Name { id: place as u32 })
    }

    // The name with that text, which is added at the end if it is new.
    pub(crate) fn enter(&mut self, text: &str) -> Result<Name, Memory>
        requires name { IsName text.now }
        requires room { length self.old + 1 < 2 ^ 32 }
        ensures table { IfOk result (λ n. self.new ≡ with_text text.now self.old) }
        ensures name { IfOk result (λ n. place_of text.now self.new ≡ Some n.id) }
        ensures memory { OnErr result (self.new ≡ self.old) }
    {
        match self.find(text) {
            Some(name) => return Ok(name),
            None => {}
        }
        let id = self.len();
        self.add(text)?;
        Ok(Name { id })
    }

    // Adds a new text at the end.
    fn add(&mut self, text: &str) -> Result<(), Memory>
        requires name { IsName text.now }
        requires new { place_of text.now self.old ≡ None }
        requires room { length self.old + 1 < 2 ^ 32 }
        ensures table { OnOk result (self.new ≡ self.old ++ text.now ∷ []) }
        ensures memory { OnErr result (self.new ≡ self.old) }
    {
        let alloc = *self.texts.allocator();
        let Ok(own) = String::from_str(alloc, text) else {
            return Err(Memory);
        };
        let Ok(_) = self.texts.insert(own) else {
            return Err(Memory);
        };
        Ok(())
    }
}
