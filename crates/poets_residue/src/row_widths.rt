//! The width of contracts as rows. No more rows are looked at than the cut has units.
ghost use Rattle.std.specs.Prelude.{◌≡◌, ◌+◌, ◌-◌, ◌≤◌, ◌<◌, false, length, map};
ghost use Rattle.poets_expr.specs.Expression.{expression_of};
ghost use Rattle.poets_expr.specs.Size.{nodes_of_all};
ghost use Rattle.poets_syntax.specs.Contract.{App};
ghost use Rattle.poets_meaning.specs.InStudied.{nullable_in, width_by_bodies, wide_in, CountsFitIn};
ghost use Rattle.poets_meaning.specs.Width.{size, widest};
ghost use Rattle.poets_cons.specs.Table.{contract_at, contract_of_rows, IsTable};

use poets_cons::{Node, Rows, node_at};
use poets_expr::Expr;
use poets_meaning::{Studied, WIDTH_CUT};
use poets_value::Name;

// What is left of a number when the width of a row is taken off; where something is, also
// whether the empty trace performs the row.
#[derive(Clone, Copy)]
struct Measured {
    left: u64,
    nullable: bool,
}

// What is left when the sizes of the expressions are taken off.
pub(crate) fn less_args(args: &[Expr], left: u64) -> u64
    ensures { result ≡ left - nodes_of_all (map expression_of args.now) }
{
    let mut left = left;
    for arg in args {
        left = left.saturating_sub(poets_expr::size(arg));
    }
    left
}

// What is left when the size of a row is taken off.
pub(crate) fn less_size(nodes: &[Node], place: usize, left: u64) -> u64
    requires table { IsTable nodes.now }
    requires within { place < length nodes.now }
    ensures { result ≡ left - size (contract_at nodes.now place) }
{
    if left == 0 {
        return 0;
    }
    match node_at(nodes, place) {
        Node::Success | Node::Failure => left - 1,
        Node::Transmit { when, then, .. } => {
            let left = (left - 1).saturating_sub(poets_expr::size(when));
            less_size(nodes, *then, left)
        }
        Node::Plus(a, b) | Node::Par(a, b) | Node::Seq(a, b) => {
            let left = less_size(nodes, *a, left - 1);
            less_size(nodes, *b, left)
        }
        Node::App { args, .. } => less_args(args.as_slice(), left - 1),
    }
}

// A row that exposes no application, and is not nullable.
fn unexposed(nodes: &[Node], place: usize, left: u64) -> Measured
    requires table { IsTable nodes.now }
    requires within { place < length nodes.now }
    ensures left { result.left ≡ left - size (contract_at nodes.now place) }
    ensures nullable { result.nullable ≡ false }
{
    Measured {
        left: less_size(nodes, place, left),
        nullable: false,
    }
}

// Measures an application. The body of the template counts as its mark says.
fn measure_application(studied: &Studied, name: Name, args: &[Expr], left: u64) -> Measured
    requires cut { left ≤ 1 + widest }
    ensures left { result.left ≡ left - width_by_bodies studied.now (App name (map expression_of args.now)) }
    ensures nullable { result.nullable ≡ nullable_in studied.now (App name (map expression_of args.now)) }
{
    let left = less_args(args, left.saturating_sub(1));
    match studied.template(name) {
        Some((_, mark)) => Measured {
            left: left.saturating_sub(mark.wide),
            nullable: mark.nullable,
        },
        None => Measured {
            left,
            nullable: false,
        },
    }
}

// Measures a row.
fn measure(studied: &Studied, nodes: &[Node], place: usize, left: u64) -> Measured
    requires table { IsTable nodes.now }
    requires within { place < length nodes.now }
    requires cut { left ≤ 1 + widest }
    ensures left { result.left ≡ left - width_by_bodies studied.now (contract_at nodes.now place) }
    ensures nullable { 0 < result.left → result.nullable ≡ nullable_in studied.now (contract_at nodes.now place) }
{
    if left == 0 {
        return unexposed(nodes, place, left);
    }
    match node_at(nodes, place) {
        Node::Success => Measured {
            left: left - 1,
            nullable: true,
        },
        Node::Failure | Node::Transmit { .. } => unexposed(nodes, place, left),
        Node::Plus(a, b) => {
            let first = measure(studied, nodes, *a, left - 1);
            let second = measure(studied, nodes, *b, first.left);
            Measured {
                left: second.left,
                nullable: first.nullable || second.nullable,
            }
        }
        Node::Par(a, b) => {
            let first = measure(studied, nodes, *a, left - 1);
            let second = measure(studied, nodes, *b, first.left);
            Measured {
                left: second.left,
                nullable: first.nullable && second.nullable,
            }
        }
        Node::Seq(a, b) => {
            let first = measure(studied, nodes, *a, left - 1);
            if first.nullable {
                return measure(studied, nodes, *b, first.left);
            }
            unexposed(nodes, *b, first.left)
        }
        Node::App { name, args } => measure_application(studied, *name, args.as_slice(), left),
    }
}

/// The width of the contract of the rows, cut at one more than the greatest spread that is kept.
pub fn wide_rows(studied: &Studied, rows: &Rows) -> u64
    requires { CountsFitIn studied.now (contract_of_rows rows.now) }
    ensures { result ≡ wide_in studied.now (contract_of_rows rows.now) }
{
    studied.recall();
    let root = rows.root();
    let nodes = rows.nodes();
    WIDTH_CUT - measure(studied, nodes, root, WIDTH_CUT).left
}
