//! Whether contracts as rows are past the limit of what is kept.
ghost use Rattle.std.specs.Prelude.{◌≡◌, ◌-◌, ◌+◌, ◌≤◌, ◌<◌, All, IfOk, OnErr, OnOk, length};
ghost use Rattle.poets_meaning.specs.InStudied.{nullable_in};
ghost use Rattle.poets_meaning.specs.Spread.{largest};
ghost use Rattle.poets_meaning.specs.Width.{size, widest};
ghost use Rattle.poets_cons.specs.Row.{row_of};
ghost use Rattle.poets_cons.specs.Table.{contract_at, contract_of_rows, IsTable};
ghost use Rattle.poets_residue.specs.Limits.{is_past_limit_in};
ghost use Rattle.poets_residue.specs.code.Limits.{row_count, rows_count, body_width_at, body_widths_at, AddsExposed};

use crate::endings::is_marked;
use crate::row_widths::{less_args, less_size};
use indexmap::IndexSet;
use poets_cons::{Node, Rows, node_at};
use poets_meaning::{LARGEST, Studied, WIDTH_CUT};
use poets_value::Memory;
use std::alloc::Global;

// What is left when what a row counts by itself is taken off.
fn less_own(node: &Node, left: u64) -> u64
    ensures { result ≡ left - row_count (row_of node.now) }
{
    match node {
        Node::Success | Node::Failure => left.saturating_sub(1),
        Node::Transmit { when, .. } => left
            .saturating_sub(2)
            .saturating_sub(poets_expr::size(&**when)),
        Node::Plus(..) | Node::Par(..) | Node::Seq(..) => left.saturating_sub(3),
        Node::App { args, .. } => less_args(args.as_slice(), left.saturating_sub(1)),
    }
}

// What is left when what all rows count by themselves is taken off.
fn less_rows(nodes: &[Node], left: u64) -> u64
    ensures { result ≡ left - rows_count nodes.now }
{
    let mut left = left;
    for node in nodes {
        left = less_own(node, left);
    }
    left
}

// Notes the applications in unguarded positions of a row. The same walk tells whether the row may end, as `may_end_at`
// does.
fn expose(
    studied: &Studied,
    nodes: &[Node],
    place: usize,
    found: &mut IndexSet<usize>,
) -> Result<bool, Memory>
    requires table { IsTable nodes.now }
    requires within { place < length nodes.now }
    ensures may_end { IfOk result (λ b. b ≡ nullable_in studied.now (contract_at nodes.now place)) }
    ensures found { OnOk result (AddsExposed studied.now nodes.now place found.old.keys found.new.keys) }
{
    match node_at(nodes, place) {
        Node::Success => Ok(true),
        Node::Failure | Node::Transmit { .. } => Ok(false),
        Node::Plus(a, b) => {
            let first = expose(studied, nodes, *a, found)?;
            let second = expose(studied, nodes, *b, found)?;
            Ok(first || second)
        }
        Node::Par(a, b) => {
            let first = expose(studied, nodes, *a, found)?;
            let second = expose(studied, nodes, *b, found)?;
            Ok(first && second)
        }
        Node::Seq(a, b) => {
            let first = expose(studied, nodes, *a, found)?;
            if !first {
                return Ok(false);
            }
            expose(studied, nodes, *b, found)
        }
        Node::App { name, .. } => {
            let Ok(_) = found.insert(place) else {
                return Err(Memory);
            };
            Ok(is_marked(studied, *name))
        }
    }
}

// What is left when the width of the body of the template that a row applies is taken off.
fn less_body(studied: &Studied, nodes: &[Node], place: usize, left: u64) -> u64
    requires table { IsTable nodes.now }
    requires within { place < length nodes.now }
    requires cut { left ≤ 1 + widest }
    ensures { result ≡ left - body_width_at studied.now nodes.now place }
{
    match node_at(nodes, place) {
        Node::App { name, .. } => match studied.template(*name) {
            Some((_, mark)) => left.saturating_sub(mark.wide),
            None => left,
        },
        _ => left,
    }
}

// What is left when the widths of the bodies of the templates that some rows apply are taken off.
fn less_bodies(studied: &Studied, nodes: &[Node], places: &[usize], left: u64) -> u64
    requires table { IsTable nodes.now }
    requires within { All (λ k. k < length nodes.now) places.now }
    requires cut { left ≤ 1 + widest }
    ensures { result ≡ left - body_widths_at studied.now nodes.now places.now }
{
    let mut left = left;
    for place in places {
        left = less_body(studied, nodes, *place, left);
    }
    left
}

/// Whether the contract of the rows is past the limit. Where its size is, no memory is taken.
pub fn past_limit(alloc: Global, studied: &Studied, rows: &Rows) -> Result<bool, Memory>
    ensures told { IfOk result (λ r. r ≡ is_past_limit_in studied.now (contract_of_rows rows.now)) }
    ensures small { OnErr result (size (contract_of_rows rows.now) ≤ largest) }
{
    let root = rows.root();
    let nodes = rows.nodes();
    if less_size(nodes, root, LARGEST + 1) == 0 {
        return Ok(true);
    }
    let left = less_rows(nodes, WIDTH_CUT);
    let mut found = IndexSet::new(alloc);
    expose(studied, nodes, root, &mut found)?;
    Ok(less_bodies(studied, nodes, found.as_slice(), left) == 0)
}
