//! Declared names, environments and the counter of evaluations.
ghost use Rattle.std.specs.Prelude.{◌≡◌, ◌≤◌, ℕ, IfOk};
ghost use Rattle.poets_expr.specs.Asked.{one_more};
ghost use Rattle.poets_expr.specs.Env.{declared_of, itself};
ghost use Rattle.poets_expr.specs.code.Names.{value_of_name};

use poets_value::{Memory, Name, Ty, Value};
use std::collections::BTreeMap;
use std::marker::Model;

/// The declared agents and kinds: of each name `Ty::Agent` or `Ty::Kind`.
#[derive(Debug, PartialEq, Eq, Drop)]
pub struct Decls {
    pub names: BTreeMap<Name, Ty>,
}

/// Declared names, and pairs of which a later one hides an earlier. A declared name without a pair stands for itself.
#[derive(Clone, Copy)]
pub struct Env<'a> {
    pub decls: &'a Decls,
    pub pairs: &'a [(Name, Option<Value>)],
}

/// A count of evaluations, which stops at the greatest `u64`. Only `eval`, and what calls it, counts.
///
/// A function that is generic in `L` can make no counter of its own to put in place of the one that it was handed.
#[derive(Drop)]
pub struct Asks<L> {
    ledger: L,
    count: u64,
}

impl<L> Model for Asks<L> {
    ghost Value = { ℕ };

    ghost view = { λ a. a.count };
}

impl<L> Asks<L> {
    /// No evaluation yet. The ledger is any value: only its type counts.
    pub fn new(ledger: L) -> Asks<L>
        ensures { result ≡ 0 }
    {
        Asks { ledger, count: 0 }
    }

    /// How many evaluations there were.
    pub fn count(&self) -> u64
        ensures { result ≡ self.now }
    {
        self.count
    }

    // One evaluation more.
    pub(crate) fn one_more(&mut self)
        ensures count { self.new ≡ one_more self.old }
        ensures rises { self.old ≤ self.new }
    {
        self.count = self.count.saturating_add(1);
    }
}

impl Decls {
    /// An equal table, with the allocator of this one.
    pub fn copy(&self) -> Result<Decls, Memory>
        ensures { IfOk result (λ d. d.names.entries ≡ self.now.names.entries) }
    {
        Ok(Decls {
            names: self.names.clone()?,
        })
    }

    // What a declared name stands for.
    pub(crate) fn meaning(&self, name: Name) -> Option<Value>
        ensures { result ≡ itself name (declared_of self.now.names name) }
    {
        match self.names.get(&name) {
            Some(Ty::Agent) => Some(Value::Agent(name)),
            Some(Ty::Kind) => Some(Value::Kind(name)),
            _ => None,
        }
    }
}

impl Env<'_> {
    // What a name stands for.
    pub(crate) fn value(&self, name: Name) -> Option<Value>
        ensures { result ≡ value_of_name self.now name }
    {
        let mut value = self.decls.meaning(name);
        for pair in self.pairs {
            if pair.0 == name {
                value = pair.1;
            }
        }
        value
    }
}
