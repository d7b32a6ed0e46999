//! Which parts of a printed tree stand in brackets.
ghost use Rattle.std.specs.Prelude.{◌≡◌};
ghost use Rattle.poets_expr.specs.Expression.{expression_of};
ghost use Rattle.poets_syntax.specs.Contract.{contract_of};
ghost use Rattle.poets_grammar.specs.Levels.{tightness};
ghost use Rattle.poets_print.specs.Levels as levels;

use poets_expr::{Expr, Op};
use poets_grammar::Level;
use poets_syntax::Term;

// How tightly an expression holds its parts together.
fn level(e: &Expr) -> Level
    ensures { tightness result ≡ levels.level (expression_of e.now) }
{
    match e {
        Expr::Op(op, _, _) => Level::of(*op),
        Expr::Not(_) => Level::Negation,
        Expr::Neg(_) => Level::Prefixed,
        _ => Level::Primary,
    }
}

/// Whether a left part stands in brackets.
pub(crate) fn left_in_brackets(op: Op, left: &Expr) -> bool
    ensures { result ≡ levels.left_in_brackets op (expression_of left.now) }
{
    match Level::of(op) {
        Level::Comparison => level(left) <= Level::Comparison,
        around => level(left) < around,
    }
}

/// Whether a right part stands in brackets.
pub(crate) fn right_in_brackets(op: Op, right: &Expr) -> bool
    ensures { result ≡ levels.right_in_brackets op (expression_of right.now) }
{
    level(right) <= Level::of(op)
}

fn is_number(e: &Expr) -> bool
    ensures { result ≡ levels.is_number (expression_of e.now) }
{
    match e {
        Expr::Int(_) => true,
        _ => false,
    }
}

/// Whether the part of a negation stands in brackets.
pub(crate) fn negated_in_brackets(part: &Expr) -> bool
    ensures { result ≡ levels.negated_in_brackets (expression_of part.now) }
{
    is_number(part) || level(part) < Level::Prefixed
}

/// Whether the part of `not` stands in brackets.
pub(crate) fn denied_in_brackets(part: &Expr) -> bool
    ensures { result ≡ levels.denied_in_brackets (expression_of part.now) }
{
    level(part) < Level::Negation
}

pub(crate) fn contract_level(term: &Term) -> u8
    ensures { result ≡ levels.contract_level (contract_of term.now) }
{
    match term {
        Term::Plus(_, _) => 1,
        Term::Par(_, _) => 2,
        Term::Seq(_, _) => 3,
        _ => 4,
    }
}
