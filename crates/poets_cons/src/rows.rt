//! The rows of one contract.
ghost use Rattle.std.specs.Prelude.{◌≡◌, ◌+◌, ◌<◌, length, slice_get, IfOk, Some};
ghost use Rattle.poets_syntax.specs.Contract.{contract_of};
ghost use Rattle.poets_cons.specs.Row.{row_of, AreBelow};
ghost use Rattle.poets_cons.specs.Parts.{subterm_count};
ghost use Rattle.poets_cons.specs.Table.{contract_at, contract_of_node, contract_of_rows, rows_of, IsTable, IsRooted};

use crate::arena::{Arena, node_at};
use crate::copying::{copy_once, loaded};
use crate::entering::enter;
use crate::node::Node;
use crate::notes::Notes;
use crate::replacing::replaced_at;
use poets_syntax::Term;
use poets_value::Memory;
use std::alloc::Global;
use std::marker::Model;

/// One contract as rows. No two are equal, and each is reached from the last one, the root.
#[derive(Drop)]
pub struct Rows {
    nodes: Vec<Node>,
}

impl Model for Rows {
    ghost use Rattle.std.specs.Prelude.{List};
    ghost use Rattle.poets_cons.specs.declared.node.Node.{Node as TheNode};

    ghost Value = { List TheNode };

    ghost use Rattle.poets_expr.specs.contracts.expr.Expr as e;
    ghost use Rattle.std.specs.Coded.{codes};

    ghost coded = { Prim.hlevel (codes, e.the_row.coded) };

    ghost use Rattle.poets_cons.specs.Table.{IsTable, IsRooted};

    ghost view = { λ r. r.nodes.items };

    ghost invariant = { λ r. IsTable r.nodes.items × IsRooted r.nodes.items };
}

impl Rows {
    /// The rows in order, of which the last is the root.
    pub fn nodes(&self) -> &[Node]
        ensures nodes { result.now ≡ self.now }
        ensures table { IsTable self.now }
        ensures rooted { IsRooted self.now }
    {
        self.nodes.as_slice()
    }

    /// The same rows with the same numbers, in a table that may grow.
    pub fn table(&self, alloc: Global) -> Result<Arena, Memory>
        ensures { IfOk result (λ a. rows_of a ≡ rows_of self.now) }
    {
        loaded(alloc, self.nodes())
    }

    /// The row with that number.
    pub fn node(&self, place: usize) -> &Node
        requires { place < length self.now }
        ensures node { slice_get self.now place ≡ Some result.now }
        ensures contract { contract_at self.now place ≡ contract_of_node self.now result.now }
        ensures below { AreBelow place (row_of result.now) }
    {
        node_at(self.nodes(), place)
    }

    /// The number of the last row, which is the root.
    pub fn root(&self) -> usize
        ensures root { result + 1 ≡ length self.now }
        ensures contract { contract_at self.now result ≡ contract_of_rows self.now }
    {
        self.nodes.len() - 1
    }

    /// The number of different subterms of the contract.
    pub fn count(&self) -> u64
        ensures { result ≡ subterm_count (contract_of_rows self.now) }
    {
        self.nodes.len() as u64
    }
}

/// The rows of a contract.
pub fn of_term(alloc: Global, term: &Term) -> Result<Rows, Memory>
    ensures { IfOk result (λ r. contract_of_rows r ≡ contract_of term.now) }
{
    let mut arena = Arena::new(alloc);
    let root = enter(alloc, &mut arena, term)?;
    rows_at(alloc, arena.nodes(), root)
}

/// The rows of the contract of one row of a table. No tree is made on the way.
pub fn rows_at(alloc: Global, nodes: &[Node], place: usize) -> Result<Rows, Memory>
    requires table { IsTable nodes.now }
    requires within { place < length nodes.now }
    ensures { IfOk result (λ r. contract_of_rows r ≡ contract_at nodes.now place) }
{
    let mut rows = Vec::new(alloc);
    let mut copies = Notes::new(alloc);
    let _root = copy_once(nodes, place, &mut rows, &mut copies)?;
    Ok(Rows { nodes: rows })
}

/// The contract of the rows.
pub fn to_term(alloc: Global, rows: &Rows) -> Result<Term, Memory>
    ensures { IfOk result (λ t. contract_of t ≡ contract_of_rows rows.now) }
{
    let root = rows.root();
    replaced_at(alloc, rows.nodes(), root, &[])
}
