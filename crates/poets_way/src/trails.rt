//! Ways in a table.
ghost use Rattle.std.specs.Prelude.{◌≡◌, ◌↔◌, ◌<◌, [], ◌∷◌, length, IfOk, IfSome, IsNone, OnOk, OnErr};
ghost use Rattle.poets_way.specs.declared.node.Node.TheVariants as N;
ghost use Rattle.poets_way.specs.Trails.{way_at, seconds, sides_at, with_node, with_sides, way_of_node, NamesEarlier};

use crate::node::{Node, Side};
use crate::sides::{row_at, row_before, seconds_of};
use crate::table::{moves_at, node_at};
use crate::way::Way;
use poets_value::{List, Memory, push};
use std::alloc::Global;
use std::marker::Model;

/// A table of ways. The parts of a way are numbers of earlier ones, so that ways can share them, and nothing changes
/// once it is in. A list of sides is one side and the number of an earlier list.
#[derive(Drop)]
pub struct Trails {
    nodes: List<Node>,
    // Number 0 is the empty list, and number `k + 1` is that of row `k`.
    sides: List<Side>,
}

impl Model for Trails {
    ghost use Rattle.poets_way.specs.Trails.{TrailsView, coded_trails, trails_of};

    ghost Value = { TrailsView };

    ghost coded = { coded_trails };

    ghost use Rattle.poets_way.specs.code.Table.{IsTable};

    ghost view = { λ t. trails_of t.nodes.items t.sides.items };

    ghost invariant = { λ t. IsTable t.nodes.items t.sides.items };
}

impl Trails {
    /// The table with no way, and with the empty list of sides.
    pub fn new(alloc: Global) -> Trails
        ensures ways { result.ways ≡ [] }
        ensures sides { result.sides ≡ [] ∷ [] }
    {
        Trails {
            nodes: List::new(alloc),
            sides: List::new(alloc),
        }
    }

    // Adds the way of a node.
    fn add(&mut self, node: Node) -> Result<usize, Memory>
        requires { NamesEarlier self.old (length self.old.ways) node }
        ensures number { IfOk result (λ n. n ≡ length self.old.ways) }
        ensures ok { OnOk result (self.new ≡ with_node self.old node) }
        ensures err { OnErr result (self.new ≡ self.old) }
    {
        let number = self.nodes.len();
        push(&mut self.nodes, node)?;
        Ok(number)
    }

    /// Adds the way of `Success`.
    pub fn nothing(&mut self) -> Result<usize, Memory>
        ensures number { IfOk result (λ n. n ≡ length self.old.ways) }
        ensures ok { OnOk result (self.new ≡ with_node self.old N.Nothing) }
        ensures err { OnErr result (self.new ≡ self.old) }
    {
        self.add(Node::Nothing)
    }

    /// Adds the way of an application, by that of its template's body.
    pub fn enter(&mut self, part: usize) -> Result<usize, Memory>
        requires { part < length self.old.ways }
        ensures number { IfOk result (λ n. n ≡ length self.old.ways) }
        ensures ok { OnOk result (self.new ≡ with_node self.old (N.Enter part)) }
        ensures err { OnErr result (self.new ≡ self.old) }
    {
        self.add(Node::Enter(part))
    }

    /// Adds the way of a transmit, by that of its continuation.
    pub fn take(&mut self, part: usize) -> Result<usize, Memory>
        requires { part < length self.old.ways }
        ensures number { IfOk result (λ n. n ≡ length self.old.ways) }
        ensures ok { OnOk result (self.new ≡ with_node self.old (N.Take part)) }
        ensures err { OnErr result (self.new ≡ self.old) }
    {
        self.add(Node::Take(part))
    }

    /// Adds the way of a choice, by that of its left part.
    pub fn left(&mut self, part: usize) -> Result<usize, Memory>
        requires { part < length self.old.ways }
        ensures number { IfOk result (λ n. n ≡ length self.old.ways) }
        ensures ok { OnOk result (self.new ≡ with_node self.old (N.Left part)) }
        ensures err { OnErr result (self.new ≡ self.old) }
    {
        self.add(Node::Left(part))
    }

    /// Adds the way of a choice, by that of its right part.
    pub fn right(&mut self, part: usize) -> Result<usize, Memory>
        requires { part < length self.old.ways }
        ensures number { IfOk result (λ n. n ≡ length self.old.ways) }
        ensures ok { OnOk result (self.new ≡ with_node self.old (N.Right part)) }
        ensures err { OnErr result (self.new ≡ self.old) }
    {
        self.add(Node::Right(part))
    }

    /// Adds the way of two contracts side by side, by a list of sides and the ways of both.
    pub fn both(&mut self, sides: usize, first: usize, second: usize) -> Result<usize, Memory>
        requires sides { sides < length self.old.sides }
        requires first { first < length self.old.ways }
        requires second { second < length self.old.ways }
        ensures number { IfOk result (λ n. n ≡ length self.old.ways) }
        ensures ok { OnOk result (self.new ≡ with_node self.old (N.Both sides first second)) }
        ensures err { OnErr result (self.new ≡ self.old) }
    {
        self.add(Node::Both {
            sides,
            first,
            second,
        })
    }

    /// Adds the way of a sequence, by how many events are the first part's and the ways of both parts.
    pub fn then(&mut self, count: u64, first: usize, second: usize) -> Result<usize, Memory>
        requires first { first < length self.old.ways }
        requires second { second < length self.old.ways }
        ensures number { IfOk result (λ n. n ≡ length self.old.ways) }
        ensures ok { OnOk result (self.new ≡ with_node self.old (N.Then count first second)) }
        ensures err { OnErr result (self.new ≡ self.old) }
    {
        self.add(Node::Then {
            count,
            first,
            second,
        })
    }

    /// The number of the empty list of sides.
    pub fn no_sides(&self) -> usize
        ensures within { result < length self.now.sides }
        ensures sides { sides_at self.now result ≡ [] }
    {
        let _sides = &self.sides;
        0
    }

    /// Adds a list of sides: one side in front of a list that is there. It is the side of the first event.
    pub fn side(&mut self, second: bool, rest: usize) -> Result<usize, Memory>
        requires { rest < length self.old.sides }
        ensures number { IfOk result (λ n. n ≡ length self.old.sides) }
        ensures ok { OnOk result (self.new ≡ with_sides self.old (second ∷ sides_at self.old rest)) }
        ensures err { OnErr result (self.new ≡ self.old) }
    {
        let row = row_before(self.sides.as_slice(), second, rest);
        push(&mut self.sides, row)?;
        Ok(self.sides.len())
    }

    /// The head of a way.
    pub fn node(&self, way: usize) -> Node
        requires { way < length self.now.ways }
        ensures way { way_at self.now way ≡ way_of_node self.now result }
        ensures parts { NamesEarlier self.now way result }
    {
        node_at(self.nodes.as_slice(), self.sides.as_slice(), way)
    }

    /// The first side of a list, if there is one, and the number of the others.
    pub fn side_at(&self, sides: usize) -> Option<(bool, usize)>
        requires { sides < length self.now.sides }
        ensures some { IfSome result (λ p. (sides_at self.now sides ≡ p.0 ∷ sides_at self.now p.1) × (p.1 < sides)) }
        ensures none { IsNone result ↔ (sides_at self.now sides ≡ []) }
    {
        let rows = self.sides.as_slice();
        if sides == 0 {
            return None;
        }
        let row = row_at(rows, sides);
        Some((row.second, row.rest))
    }

    /// How many of the sides of a list are the second one.
    pub fn seconds(&self, sides: usize) -> usize
        requires { sides < length self.now.sides }
        ensures { result ≡ seconds (sides_at self.now sides) }
    {
        seconds_of(self.sides.as_slice(), sides)
    }

    /// A way of the table by itself.
    pub fn way(&self, alloc: Global, number: usize) -> Result<Way, Memory>
        requires { number < length self.now.ways }
        ensures { IfOk result (λ w. w ≡ way_at self.now number) }
    {
        let nodes = self.nodes.as_slice();
        let moves = moves_at(alloc, nodes, self.sides.as_slice(), number)?;
        Ok(Way::of(moves))
    }
}
