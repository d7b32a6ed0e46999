//! Contracts of rows, with names replaced.
ghost use Rattle.std.specs.Prelude.{◌≡◌, ◌<◌, IfOk, length};
ghost use Rattle.poets_syntax.specs.Contract.{contract_of};
ghost use Rattle.poets_cons.specs.Replaced as spec;
ghost use Rattle.poets_cons.specs.Table.{IsTable};

use crate::arena::node_at;
use crate::node::Node;
use poets_expr::{Given, subst};
use poets_syntax::Term;
use poets_syntax::build::{par, plus, seq, transmit};
use poets_syntax::substitution::{below, subst_args};
use poets_value::{Memory, Name};
use std::alloc::Global;

/// The contract of the row with that number, its names replaced by literals; of two pairs with one name the later
/// counts. Below a transmit that binds a name, that name stays.
pub fn replaced_at(
    alloc: Global,
    nodes: &[Node],
    place: usize,
    pairs: &[(Name, Given)],
) -> Result<Term, Memory>
    requires table { IsTable nodes.now }
    requires within { place < length nodes.now }
    ensures { IfOk result (λ t. contract_of t ≡ spec.replaced_at pairs.now nodes.now place) }
{
    match node_at(nodes, place) {
        Node::Success => Ok(Term::Success),
        Node::Failure => Ok(Term::Failure),
        Node::Transmit {
            binders,
            when,
            then,
        } => {
            let kept = below(alloc, binders, pairs)?;
            let when = subst(alloc, &**when, kept.as_slice())?;
            let then = replaced_at(alloc, nodes, *then, kept.as_slice())?;
            transmit(alloc, *binders, when, then)
        }
        Node::Plus(a, b) => {
            let a = replaced_at(alloc, nodes, *a, pairs)?;
            let b = replaced_at(alloc, nodes, *b, pairs)?;
            plus(alloc, a, b)
        }
        Node::Par(a, b) => {
            let a = replaced_at(alloc, nodes, *a, pairs)?;
            let b = replaced_at(alloc, nodes, *b, pairs)?;
            par(alloc, a, b)
        }
        Node::Seq(a, b) => {
            let a = replaced_at(alloc, nodes, *a, pairs)?;
            let b = replaced_at(alloc, nodes, *b, pairs)?;
            seq(alloc, a, b)
        }
        Node::App { name, args } => Ok(Term::App {
            name: *name,
            args: subst_args(alloc, &**args, pairs)?,
        }),
    }
}
