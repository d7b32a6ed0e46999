//! The graph of unguarded edges between templates.
ghost use Rattle.std.specs.Prelude.{◌≡◌, ◌+◌, IfOk, OnOk};
ghost use Rattle.poets_syntax.specs.Book.{book_of};
ghost use Rattle.poets_syntax.specs.Checked.{IsChecked};
ghost use Rattle.poets_meaning.specs.Width.{cut};
ghost use Rattle.poets_guard.specs.code.Graph.{is_nullable, own_of, exposures_of, ExposesMore, IsGraphOf};

use poets_meaning::{WIDTH_CUT, size};
use poets_syntax::{Book, Term};
use poets_value::{List, Memory, Name, push};
use std::alloc::Global;
use std::collections::{BTreeMap, BTreeSet};

// The sum of two widths, cut.
pub(crate) fn add(a: u64, b: u64) -> u64
    ensures { result ≡ cut (a + b) }
{
    a.saturating_add(b).min(WIDTH_CUT)
}

/// What the body of a template has in unguarded positions.
#[derive(Drop)]
pub(crate) struct Node {
    /// The body's width, cut, without the bodies of the templates that it applies.
    pub own: u64,
    /// The templates that it applies there, each as often as it does.
    pub exposed: List<Name>,
}

/// Nodes by the names of their templates.
pub(crate) type Graph = BTreeMap<Name, Node>;

// Adds what a contract has in unguarded positions. Says whether the contract is nullable.
fn gather(nullable: &BTreeSet<Name>, term: &Term, node: &mut Node) -> Result<bool, Memory>
    ensures nullable { IfOk result (λ b. b ≡ is_nullable nullable.now term.now) }
    ensures own { OnOk result (node.new.own ≡ cut (node.old.own + own_of nullable.now term.now)) }
    ensures exposed { OnOk result (ExposesMore nullable.now term.now node.old node.new) }
{
    match term {
        Term::Success => {
            node.own = add(node.own, 1);
            Ok(true)
        }
        Term::Failure | Term::Transmit { .. } => {
            node.own = add(node.own, size(term));
            Ok(false)
        }
        Term::Plus(a, b) => {
            node.own = add(node.own, 1);
            let first = gather(nullable, a, node)?;
            let second = gather(nullable, b, node)?;
            Ok(first || second)
        }
        Term::Par(a, b) => {
            node.own = add(node.own, 1);
            let first = gather(nullable, a, node)?;
            let second = gather(nullable, b, node)?;
            Ok(first && second)
        }
        Term::Seq(a, b) => {
            node.own = add(node.own, 1);
            if gather(nullable, a, node)? {
                return gather(nullable, b, node);
            }
            node.own = add(node.own, size(b));
            Ok(false)
        }
        Term::App { name, .. } => {
            node.own = add(node.own, size(term));
            push(&mut node.exposed, *name)?;
            Ok(nullable.contains(name))
        }
    }
}

// The node of a contract.
fn node_of(alloc: Global, nullable: &BTreeSet<Name>, term: &Term) -> Result<Node, Memory>
    ensures own { IfOk result (λ n. n.own ≡ cut (own_of nullable.now term.now)) }
    ensures exposed { IfOk result (λ n. n.exposed.items ≡ exposures_of nullable.now term.now) }
{
    let mut node = Node {
        own: 0,
        exposed: List::new(alloc),
    };
    gather(nullable, term, &mut node)?;
    Ok(node)
}

/// The graph of a book, whose nullable templates are given.
pub(crate) fn graph_of(
    alloc: Global,
    book: &Book,
    nullable: &BTreeSet<Name>,
) -> Result<Graph, Memory>
    requires { IsChecked (book_of book.now) }
    ensures { IfOk result (IsGraphOf book.now nullable.now) }
{
    let mut graph = BTreeMap::new(alloc);
    for template in book.templates.as_slice() {
        let node = node_of(alloc, nullable, &template.body)?;
        graph.insert(template.name, node)?;
    }
    Ok(graph)
}
