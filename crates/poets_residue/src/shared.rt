//! Contracts as rows that may end.
ghost use Rattle.std.specs.Prelude.{◌≡◌, ◌<◌, ◌↔◌, IsTrue, length, []};
ghost use Rattle.poets_syntax.specs.Book.{book_of};
ghost use Rattle.poets_meaning.specs.InStudied.{nullable_in, CountsFitIn};
ghost use Rattle.poets_meaning.specs.Perf.{Perf};
ghost use Rattle.poets_cons.specs.Table.{contract_at, contract_of_rows, IsTable};
ghost use Rattle.poets_residue.specs.code.Choices.{LeavesChoices};

use crate::endings::is_marked;
use poets_cons::{Node, Rows, node_at};
use poets_meaning::Studied;

/// Whether the empty trace performs the contract of the rows.
pub fn may_end_rows(studied: &Studied, rows: &Rows) -> bool
    requires { CountsFitIn studied.now (contract_of_rows rows.now) }
    ensures { IsTrue result ↔ Perf (book_of studied.now.book) [] (contract_of_rows rows.now) [] }
{
    studied.recall();
    let root = rows.root();
    let nodes = rows.nodes();
    may_end_at(studied, nodes, root)
}

// Whether the empty trace performs the contract of a row, by the marks of its templates.
pub(crate) fn may_end_at(studied: &Studied, nodes: &[Node], place: usize) -> bool
    requires table { IsTable nodes.now }
    requires within { place < length nodes.now }
    ensures { result ≡ nullable_in studied.now (contract_at nodes.now place) }
{
    match node_at(nodes, place) {
        Node::Success => true,
        Node::Failure | Node::Transmit { .. } => false,
        Node::Plus(a, b) => may_end_at(studied, nodes, *a) || may_end_at(studied, nodes, *b),
        Node::Par(a, b) | Node::Seq(a, b) => {
            may_end_at(studied, nodes, *a) && may_end_at(studied, nodes, *b)
        }
        Node::App { name, .. } => is_marked(studied, *name),
    }
}

// Whether the residuals of a row are known to be choices of distinct alternatives.
pub(crate) fn is_joined(studied: &Studied, nodes: &[Node], place: usize) -> bool
    requires table { IsTable nodes.now }
    requires within { place < length nodes.now }
    ensures { IsTrue result → LeavesChoices studied.now (contract_at nodes.now place) }
{
    match node_at(nodes, place) {
        Node::Seq(a, _) => may_end_at(studied, nodes, *a),
        _ => true,
    }
}
