//! Tables of rows that grow.
ghost use Rattle.std.specs.Prelude.{◌≡◌, ◌↔◌, ◌<◌, ◌^◌, [], length, slice_get, Some, IfOk, OnErr, OnOk, IsTrue};
ghost use Rattle.std.specs.Vec.{vec_capacity, vec_len};
ghost use Rattle.poets_cons.specs.Forms.{has_parallel, is_grouped};
ghost use Rattle.poets_cons.specs.Row.{row_of, AreBelow};
ghost use Rattle.poets_cons.specs.code.Adding.{AddsRow, IsInserted, with_form};
ghost use Rattle.poets_cons.specs.code.Adding as spec;
ghost use Rattle.poets_cons.specs.Table.{rows_of, contract_at, contract_of_node, with_row};
ghost use Rattle.poets_cons.specs.Table.{AreAlikeAt, IsTable, Stands, Extends, AddsReached};

use crate::classes::{Classes, same_class};
use crate::form::{Form, form_at, form_of};
use crate::node::Node;
use indexmap::IndexSet;
use poets_value::Memory;
use std::alloc::Global;
use std::marker::Model;

// The node at a place.
fn nth(nodes: &[Node], place: usize) -> &Node
    requires { place < length nodes.now }
    ensures { slice_get nodes.now place ≡ Some result.now }
{
    &nodes[place]
}

/// The row with that number.
pub fn node_at(nodes: &[Node], place: usize) -> &Node
    requires table { IsTable nodes.now }
    requires within { place < length nodes.now }
    ensures node { slice_get nodes.now place ≡ Some result.now }
    ensures contract { contract_at nodes.now place ≡ contract_of_node nodes.now result.now }
    ensures below { AreBelow place (row_of result.now) }
{
    nth(nodes, place)
}

// The number of the row of this node, which is added where it is not there, and whether it was added.
fn insert(nodes: &mut IndexSet<Node>, node: Node) -> Result<(usize, bool), Memory>
    requires table { IsTable nodes.old.keys }
    requires below { AreBelow (length nodes.old.keys) (row_of node) }
    ensures table { IsTable nodes.new.keys }
    ensures grows { Extends nodes.old.keys nodes.new.keys }
    ensures rows { OnOk result (AddsRow nodes.old.keys nodes.new.keys node) }
    ensures inserted { IfOk result (λ p. IsInserted nodes.old.keys nodes.new.keys node p.0 p.1) }
    ensures err { OnErr result (nodes.new.keys ≡ nodes.old.keys) }
{
    let Ok((place, is_new)) = nodes.insert_full(node) else {
        return Err(Memory);
    };
    Ok((place, is_new))
}

// Keeps the form of a row, where that is new.
fn keep(forms: &mut Vec<Form>, form: Form, is_new: bool)
    requires { vec_len forms.old < vec_capacity forms.old }
    ensures { forms.new.items ≡ with_form is_new form forms.old.items }
{
    if is_new {
        let Ok(()) = forms.push(form) else {
            unreachable!()
        };
    }
}

// Whether two unequal rows with these forms may be alike. A row without `||` is alike to itself alone, and alike rows
// have one weight.
fn may_be_alike(first: Form, second: Form) -> bool
    ensures { result ≡ spec.may_be_alike first second }
{
    first.parallel && second.parallel && first.weight == second.weight
}

/// Rows that name earlier ones alone, and of which no two are equal.
#[derive(Drop)]
pub struct Arena {
    nodes: IndexSet<Node>,
    // The form of each row.
    forms: Vec<Form>,
    classes: Classes,
    alloc: Global,
}

impl Model for Arena {
    ghost use Rattle.std.specs.Prelude.{List};
    ghost use Rattle.poets_cons.specs.declared.node.Node.{Node as TheNode};

    ghost Value = { List TheNode };

    ghost use Rattle.poets_expr.specs.contracts.expr.Expr as e;
    ghost use Rattle.std.specs.Coded.{codes};

    ghost coded = { Prim.hlevel (codes, e.the_row.coded) };

    ghost use Rattle.poets_cons.specs.code.Adding.{AreKept};

    ghost view = { λ a. a.nodes.keys };

    ghost invariant = { λ a. AreKept a.nodes.keys a.forms.items a.classes };
}

impl Arena {
    /// The empty table.
    pub fn new(alloc: Global) -> Arena
        ensures { result ≡ [] }
    {
        Arena {
            nodes: IndexSet::new(alloc),
            forms: Vec::new(alloc),
            classes: Classes::new(alloc),
            alloc,
        }
    }

    /// The number of rows.
    pub fn len(&self) -> usize
        ensures len { result ≡ length self.now }
        ensures table { IsTable self.now }
        ensures small { result < 2 ^ 63 }
    {
        self.nodes.len()
    }

    /// All rows, in order.
    pub fn nodes(&self) -> &[Node]
        ensures nodes { result.now ≡ self.now }
        ensures table { IsTable self.now }
    {
        self.nodes.as_slice()
    }

    /// The row with that number.
    pub fn node(&self, place: usize) -> &Node
        requires { place < length self.now }
        ensures node { slice_get self.now place ≡ Some result.now }
        ensures contract { contract_at self.now place ≡ contract_of_node self.now result.now }
        ensures below { AreBelow place (row_of result.now) }
        ensures table { IsTable self.now }
    {
        match self.nodes.get_index(place) {
            Some(node) => node,
            None => unreachable!(),
        }
    }

    /// Makes room for so many further rows.
    pub fn reserve(&mut self, more: usize) -> Result<(), Memory>
        ensures { self.new ≡ self.old }
    {
        let Ok(()) = self.nodes.reserve(more) else {
            return Err(Memory);
        };
        let Ok(()) = self.forms.reserve(more) else {
            return Err(Memory);
        };
        Ok(())
    }

    /// Whether the parallel parts of a row are grouped to the left.
    pub fn is_grouped(&self, place: usize) -> bool
        requires { place < length self.now }
        ensures { result ≡ is_grouped (contract_at self.now place) }
    {
        form_at(self.forms.as_slice(), place).grouped
    }

    /// Whether there is a `||` in the contract of a row.
    pub fn has_parallel(&self, place: usize) -> bool
        requires { place < length self.now }
        ensures { result ≡ has_parallel (contract_at self.now place) }
    {
        form_at(self.forms.as_slice(), place).parallel
    }

    /// Whether the contracts of two rows are the same but for the order of parallel parts. Each is given a class for
    /// that, unless it is known.
    pub fn alike(&mut self, a: usize, b: usize) -> Result<bool, Memory>
        requires first { a < length self.old }
        requires second { b < length self.old }
        ensures same { self.new ≡ self.old }
        ensures alike { IfOk result (λ r. IsTrue r ↔ AreAlikeAt self.old a b) }
    {
        if a == b {
            return Ok(true);
        }
        let first = form_at(self.forms.as_slice(), a);
        let second = form_at(self.forms.as_slice(), b);
        if may_be_alike(first, second) {
            return same_class(self.alloc, self.nodes.as_slice(), &mut self.classes, a, b);
        }
        Ok(false)
    }

    /// The number of the row of this node, which is added where it is not there.
    pub fn add(&mut self, node: Node) -> Result<usize, Memory>
        requires { AreBelow (length self.old) (row_of node) }
        ensures grows { Extends self.old self.new }
        ensures rows { OnOk result (rows_of self.new ≡ with_row (row_of node) (rows_of self.old)) }
        ensures row { IfOk result (λ p. slice_get (rows_of self.new) p ≡ Some (row_of node)) }
        ensures stands { IfOk result (λ p. Stands self.new p (contract_of_node self.old node)) }
        ensures reached { IfOk result (λ p. AddsReached self.old self.new p) }
    {
        let Ok(()) = self.forms.reserve(1) else {
            return Err(Memory);
        };
        let form = form_of(self.forms.as_slice(), &node);
        let (place, is_new) = insert(&mut self.nodes, node)?;
        keep(&mut self.forms, form, is_new);
        Ok(place)
    }
}
