//! Equal contracts.
ghost use Rattle.std.specs.Prelude.{◌≡◌, ◌↔◌, IsTrue, map};
ghost use Rattle.poets_expr.specs.Expression.{expression_of};
ghost use Rattle.poets_syntax.specs.Contract.{contract_of};
ghost use Rattle.poets_syntax.specs.Same.{same_contract};
ghost use Rattle.poets_syntax.specs.Same as spec;

use crate::term::{Binders, Term};
use poets_expr::Expr;

fn same_binders(a: &Binders, b: &Binders) -> bool
    ensures { result ≡ spec.same_binders a.now b.now }
{
    a == b
}

fn same_args(a: &[Expr], b: &[Expr]) -> bool
    ensures { result ≡ spec.same_args (map expression_of a.now) (map expression_of b.now) }
{
    let mut left = a;
    let mut right = b;
    while let (Some((x, xs)), Some((y, ys))) = (left.split_first(), right.split_first()) {
        if !poets_expr::same(x, y) {
            return false;
        }
        left = xs;
        right = ys;
    }
    left.is_empty() && right.is_empty()
}

fn same_trees(a: &Term, b: &Term) -> bool
    ensures { result ≡ same_contract (contract_of a.now) (contract_of b.now) }
{
    match (a, b) {
        (Term::Success, Term::Success) => true,
        (Term::Failure, Term::Failure) => true,
        (
            Term::Transmit {
                binders: x,
                when: p,
                then: c,
            },
            Term::Transmit {
                binders: y,
                when: q,
                then: d,
            },
        ) => same_binders(x, y) && poets_expr::same(p, q) && same_trees(c, d),
        (Term::Plus(x, v), Term::Plus(y, w)) => same_trees(x, y) && same_trees(v, w),
        (Term::Par(x, v), Term::Par(y, w)) => same_trees(x, y) && same_trees(v, w),
        (Term::Seq(x, v), Term::Seq(y, w)) => same_trees(x, y) && same_trees(v, w),
        (Term::App { name: f, args: x }, Term::App { name: g, args: y }) => {
            f == g && same_args(x.as_slice(), y.as_slice())
        }
        _ => false,
    }
}

/// Whether two contracts are equal trees, the binders' names included.
#[tactic(auto, using(crate::proofs::SameContracts::same_iff))]
pub fn same(a: &Term, b: &Term) -> bool
    ensures test { result ≡ same_contract (contract_of a.now) (contract_of b.now) }
    ensures equal { IsTrue result ↔ (contract_of a.now ≡ contract_of b.now) }
{
    same_trees(a, b)
}
