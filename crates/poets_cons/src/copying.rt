//! Rows copied from one table to another.
ghost use Rattle.std.specs.Prelude.{◌≡◌, ◌<◌, IfOk, false, length};
ghost use Rattle.std.specs.List.{list_any};
ghost use Rattle.poets_cons.specs.code.Copies.{AreCopies, CopiesRow, CopiesParts, CopiesBoth, IsAppended};
ghost use Rattle.poets_cons.specs.Notes.{noted};
ghost use Rattle.poets_cons.specs.Row.{row_of, AreBelow};
ghost use Rattle.poets_cons.specs.Same.{same_row};
ghost use Rattle.poets_cons.specs.Table.{rows_of, IsTable};

use crate::arena::{Arena, node_at};
use crate::node::Node;
use crate::notes::Notes;
use poets_value::Memory;
use std::alloc::Global;
use std::sync::Arc;

// For each row of a contract, how many rows a table has room for before it grows.
const ROOM: usize = 4;

// Adds a row at the end, and answers its number.
fn append(into: &mut Vec<Node>, node: Node) -> Result<usize, Memory>
    requires table { IsTable into.old.items }
    requires parts { AreBelow (length into.old.items) (row_of node) }
    requires new { list_any (same_row (row_of node)) (rows_of into.old.items) ≡ false }
    ensures { IfOk result (IsAppended into.old.items into.new.items (row_of node)) }
{
    let place = into.len();
    let Ok(()) = into.push(node) else {
        return Err(Memory);
    };
    Ok(place)
}

/// The number of the copy of a row, which is added with all that the row reaches, unless it is noted. No row is copied
/// twice, and none is looked for.
#[cycle(copy)]
pub(crate) fn copy_once(
    from: &[Node],
    place: usize,
    into: &mut Vec<Node>,
    copies: &mut Notes,
) -> Result<usize, Memory>
    requires table { IsTable from.now }
    requires within { place < length from.now }
    requires copies { AreCopies from.now into.old.items (noted copies.old) }
    ensures { IfOk result (CopiesRow from.now into.old into.new copies.old copies.new place) }
{
    if let Some(copy) = copies.get(place) {
        return Ok(copy);
    }
    let node = with_copied_parts(from, place, into, copies)?;
    let copy = append(into, node)?;
    copies.note(place, copy)
}

// The node of a row, with the copies of its parts as parts.
#[cycle(copy)]
fn with_copied_parts(
    from: &[Node],
    place: usize,
    into: &mut Vec<Node>,
    copies: &mut Notes,
) -> Result<Node, Memory>
    requires table { IsTable from.now }
    requires within { place < length from.now }
    requires copies { AreCopies from.now into.old.items (noted copies.old) }
    ensures { IfOk result (CopiesParts from.now into.old into.new copies.old copies.new place) }
{
    match node_at(from, place) {
        Node::Success => Ok(Node::Success),
        Node::Failure => Ok(Node::Failure),
        Node::Transmit {
            binders,
            when,
            then,
        } => {
            let when = Arc::try_clone(when)?;
            let then = copy_once(from, *then, into, copies)?;
            Ok(Node::Transmit {
                binders: *binders,
                when,
                then,
            })
        }
        Node::Plus(a, b) => {
            let (a, b) = copy_both(from, *a, *b, into, copies)?;
            Ok(Node::Plus(a, b))
        }
        Node::Par(a, b) => {
            let (a, b) = copy_both(from, *a, *b, into, copies)?;
            Ok(Node::Par(a, b))
        }
        Node::Seq(a, b) => {
            let (a, b) = copy_both(from, *a, *b, into, copies)?;
            Ok(Node::Seq(a, b))
        }
        Node::App { name, args } => {
            let args = Arc::try_clone(args)?;
            Ok(Node::App { name: *name, args })
        }
    }
}

// Copies two rows.
#[cycle(copy)]
fn copy_both(
    from: &[Node],
    a: usize,
    b: usize,
    into: &mut Vec<Node>,
    copies: &mut Notes,
) -> Result<(usize, usize), Memory>
    requires table { IsTable from.now }
    requires first { a < length from.now }
    requires second { b < length from.now }
    requires copies { AreCopies from.now into.old.items (noted copies.old) }
    ensures { IfOk result (CopiesBoth from.now into.old into.new copies.old copies.new a b) }
{
    let first = copy_once(from, a, into, copies)?;
    let second = copy_once(from, b, into, copies)?;
    Ok((first, second))
}

// The same node, which shares its expressions with the other.
fn copy_node(node: &Node) -> Result<Node, Memory>
    ensures { IfOk result (λ n. row_of n ≡ row_of node.now) }
{
    match node {
        Node::Success => Ok(Node::Success),
        Node::Failure => Ok(Node::Failure),
        Node::Transmit {
            binders,
            when,
            then,
        } => Ok(Node::Transmit {
            binders: *binders,
            when: Arc::try_clone(when)?,
            then: *then,
        }),
        Node::Plus(a, b) => Ok(Node::Plus(*a, *b)),
        Node::Par(a, b) => Ok(Node::Par(*a, *b)),
        Node::Seq(a, b) => Ok(Node::Seq(*a, *b)),
        Node::App { name, args } => Ok(Node::App {
            name: *name,
            args: Arc::try_clone(args)?,
        }),
    }
}

/// The same rows with the same numbers, in a table that may grow.
pub(crate) fn loaded(alloc: Global, nodes: &[Node]) -> Result<Arena, Memory>
    requires { IsTable nodes.now }
    ensures { IfOk result (λ a. rows_of a ≡ rows_of nodes.now) }
{
    let mut arena = Arena::new(alloc);
    arena.reserve(nodes.len().saturating_mul(ROOM))?;
    for node in nodes {
        arena.add(copy_node(node)?)?;
    }
    Ok(arena)
}
