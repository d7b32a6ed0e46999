//! The sizes of contracts.
ghost use Rattle.std.specs.Prelude.{◌≡◌, ◌+◌, ◌-◌, ◌^◌, min, map};
ghost use Rattle.poets_expr.specs.Expression.{expression_of};
ghost use Rattle.poets_expr.specs.Size.{nodes_of_all};
ghost use Rattle.poets_syntax.specs.Contract.{contract_of};
ghost use Rattle.poets_meaning.specs.Width as width;

use poets_expr::Expr;
use poets_syntax::Term;

/// The greatest size of a contract that is kept.
pub const LARGEST: u64 = 1000;

/// The greatest spread of a contract that is kept.
pub const WIDEST: u64 = 4096;

/// Where a width is cut: past the greatest spread no two are told apart.
pub const WIDTH_CUT: u64 = WIDEST + 1;

// One node and its two parts.
fn node(a: u64, b: u64) -> u64
    ensures { result ≡ min (1 + a + b) (2 ^ 64 - 1) }
{
    1u64.saturating_add(a).saturating_add(b)
}

fn nodes_of_args(args: &[Expr]) -> u64
    ensures { result ≡ min (nodes_of_all (map expression_of args.now)) (2 ^ 64 - 1) }
{
    let mut sum = 0u64;
    for arg in args {
        sum = sum.saturating_add(poets_expr::size(arg));
    }
    sum
}

/// The number of nodes of the contract and of its expressions, cut at the greatest `u64`.
pub fn size(term: &Term) -> u64
    ensures { result ≡ min (width.size (contract_of term.now)) (2 ^ 64 - 1) }
{
    match term {
        Term::Success | Term::Failure => 1,
        Term::Transmit { when, then, .. } => node(poets_expr::size(when), size(then)),
        Term::Plus(a, b) | Term::Par(a, b) | Term::Seq(a, b) => node(size(a), size(b)),
        Term::App { args, .. } => node(nodes_of_args(args.as_slice()), 0),
    }
}
