//! The width of contracts, cut at one more than the greatest spread that is kept.
ghost use Rattle.std.specs.Prelude.{◌≡◌, ◌+◌, ◌&&◌, false};
ghost use Rattle.poets_syntax.specs.Contract.{contract_of};
ghost use Rattle.poets_meaning.specs.InStudied.{nullable_in, width_by_bodies, wide_in, CountsFitIn};
ghost use Rattle.poets_meaning.specs.Width.{cut};
ghost use Rattle.poets_meaning.specs.Width as spec;

use poets_meaning::{Studied, WIDTH_CUT, size};
use poets_syntax::Term;

// The width of a contract, cut, and whether the empty trace performs it.
#[derive(Clone, Copy)]
struct Measured {
    wide: u64,
    nullable: bool,
}

// A contract that exposes no application, and is not nullable.
fn unexposed(term: &Term) -> Measured
    ensures wide { result.wide ≡ cut (spec.size (contract_of term.now)) }
    ensures nullable { result.nullable ≡ false }
{
    Measured {
        wide: size(term).min(WIDTH_CUT),
        nullable: false,
    }
}

// One node and its two parts, cut.
fn node(a: u64, b: u64) -> u64
    ensures { result ≡ cut (1 + a + b) }
{
    a.saturating_add(b).saturating_add(1).min(WIDTH_CUT)
}

// Two parts that must both be performed.
fn both(a: Measured, b: Measured) -> Measured
    ensures wide { result.wide ≡ cut (1 + a.wide + b.wide) }
    ensures nullable { result.nullable ≡ (a.nullable && b.nullable) }
{
    Measured {
        wide: node(a.wide, b.wide),
        nullable: a.nullable && b.nullable,
    }
}

// Measures a contract. The body of a template counts as its mark says.
fn measure(studied: &Studied, term: &Term) -> Measured
    ensures wide { result.wide ≡ cut (width_by_bodies studied.now (contract_of term.now)) }
    ensures nullable { result.nullable ≡ nullable_in studied.now (contract_of term.now) }
{
    match term {
        Term::Success => Measured {
            wide: 1,
            nullable: true,
        },
        Term::Failure | Term::Transmit { .. } => unexposed(term),
        Term::Plus(a, b) => {
            let a = measure(studied, a);
            let b = measure(studied, b);
            Measured {
                wide: node(a.wide, b.wide),
                nullable: a.nullable || b.nullable,
            }
        }
        Term::Par(a, b) => both(measure(studied, a), measure(studied, b)),
        Term::Seq(a, b) => {
            let first = measure(studied, a);
            if first.nullable {
                return both(first, measure(studied, b));
            }
            both(first, unexposed(b))
        }
        Term::App { name, .. } => match studied.template(*name) {
            Some((_, mark)) => Measured {
                wide: size(term).saturating_add(mark.wide).min(WIDTH_CUT),
                nullable: mark.nullable,
            },
            None => unexposed(term),
        },
    }
}

/// The width of the contract, cut at one more than the greatest spread that is kept.
pub fn wide(studied: &Studied, term: &Term) -> u64
    requires { CountsFitIn studied.now (contract_of term.now) }
    ensures { result ≡ wide_in studied.now (contract_of term.now) }
{
    studied.recall();
    measure(studied, term).wide
}
