//! Ways in a table of nodes.
ghost use Rattle.std.specs.Prelude.{◌≡◌, ◌<◌, ◌≤◌, ◌+◌, ◌++◌, length, map, reverse, slice_get, Some, IfOk, OnOk};
ghost use Rattle.poets_way.specs.Moves.{moves_of, move_of};
ghost use Rattle.poets_way.specs.Trails.{way_at, way_of_node, NamesBelow, sides_of, trails_of};
ghost use Rattle.poets_way.specs.code.Table.{head_of, parts_of};
ghost use Rattle.poets_way.specs.code.Table.{HasSides, IsTable, RestsAreEarlier};

use crate::node::{Node, Side};
use crate::sides::sides_from;
use crate::way::Move;
use poets_value::{List, Memory, push};
use std::alloc::Global;

// The node at a place.
fn nth(nodes: &[Node], place: usize) -> Node
    requires { place < length nodes.now }
    ensures { slice_get nodes.now place ≡ Some result }
{
    nodes[place]
}

/// The node with that number.
pub(crate) fn node_at(nodes: &[Node], rows: &[Side], number: usize) -> Node
    requires table { IsTable nodes.now rows.now }
    requires within { number < length nodes.now }
    ensures way { way_at (trails_of nodes.now rows.now) number ≡ way_of_node (trails_of nodes.now rows.now) result }
    ensures names { NamesBelow number (length rows.now + 1) result }
{
    let _rows = rows;
    nth(nodes, number)
}

// The head of the way of a node.
fn head(alloc: Global, rows: &[Side], node: Node) -> Result<Move, Memory>
    requires rows { RestsAreEarlier 1 rows.now }
    requires names { HasSides (length rows.now) node }
    ensures { IfOk result (λ m. move_of m ≡ head_of (sides_of rows.now) node) }
{
    match node {
        Node::Nothing => Ok(Move::Nothing),
        Node::Enter(_) => Ok(Move::Enter),
        Node::Take(_) => Ok(Move::Take),
        Node::Left(_) => Ok(Move::Left),
        Node::Right(_) => Ok(Move::Right),
        Node::Both { sides, .. } => Ok(Move::Both(sides_from(alloc, rows, sides)?)),
        Node::Then { count, .. } => Ok(Move::Then(count)),
    }
}

// Adds the parts of a node, the first one last.
fn push_parts(left: &mut List<usize>, node: Node) -> Result<(), Memory>
    ensures { OnOk result (reverse left.new.items ≡ parts_of node ++ reverse left.old.items) }
{
    match node {
        Node::Nothing => Ok(()),
        Node::Enter(part) | Node::Take(part) | Node::Left(part) | Node::Right(part) => {
            push(left, part)
        }
        Node::Both { first, second, .. } | Node::Then { first, second, .. } => {
            push(left, second)?;
            push(left, first)
        }
    }
}

/// The moves of the way with that number.
pub(crate) fn moves_at(
    alloc: Global,
    nodes: &[Node],
    rows: &[Side],
    number: usize,
) -> Result<List<Move>, Memory>
    requires table { IsTable nodes.now rows.now }
    requires within { number < length nodes.now }
    ensures { IfOk result (λ moves. map move_of moves.items ≡ moves_of (way_at (trails_of nodes.now rows.now) number)) }
{
    let mut moves = List::new(alloc);
    // The ways whose moves come next, the next one last.
    let mut left = List::new(alloc);
    push(&mut left, number)?;
    while let Some(next) = left.pop() {
        let node = node_at(nodes, rows, next);
        push(&mut moves, head(alloc, rows, node)?)?;
        push_parts(&mut left, node)?;
    }
    Ok(moves)
}
