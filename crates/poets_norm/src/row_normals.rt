//! Normal forms of contracts as rows.
ghost use Rattle.std.specs.Prelude.{◌+◌, ◌≤◌, ◌<◌, IfOk, OnOk, length};
ghost use Rattle.poets_expr.specs.Expression.{expression_of};
ghost use Rattle.poets_syntax.specs.Contract.{contract_of};
ghost use Rattle.poets_meaning.specs.Arguments.{arguments};
ghost use Rattle.poets_meaning.specs.Width.{size};
ghost use Rattle.poets_calculus.specs.InStudied.{normal_in};
ghost use Rattle.poets_calculus.specs.Normal as spec;
ghost use Rattle.poets_norm.specs.Asking.{AsksOnce};
ghost use Rattle.poets_norm.specs.Questions.{questions};
ghost use Rattle.poets_norm.specs.Rows.{Enters, GivesRows};
ghost use Rattle.poets_norm.specs.code.Applications.{applied_to};
ghost use Rattle.poets_norm.specs.code.Entering.{beside_normal, with_both, AskBothOnce, StandsNormal};
ghost use Rattle.poets_cons.specs.Table.{contract_at, Extends};

use crate::applications::kept_args;
use crate::joining::{failure, merge, par, seq};
use poets_cons::{Arena, Node, Rows, rows_at};
use poets_expr::{Asks, Expr};
use poets_meaning::Studied;
use poets_syntax::{Binders, Term, copy};
use poets_value::{List, Memory, Name};
use std::alloc::Global;
use std::sync::Arc;

/// The rows of the normal form of a contract.
pub fn normal_rows<L>(
    alloc: Global,
    studied: &Studied,
    term: &Term,
    asks: &mut Asks<L>,
) -> Result<Rows, Memory>
    ensures normal { GivesRows result (normal_in studied.now (contract_of term.now)) }
    ensures rises { asks.old ≤ asks.new }
    ensures asks { asks.new ≤ asks.old + questions (contract_of term.now) }
    ensures questions { OnOk result (AsksOnce studied.now (contract_of term.now) asks.old asks.new) }
    ensures size { asks.new ≤ asks.old + size (contract_of term.now) }
    ensures arguments { asks.new ≤ asks.old + arguments (contract_of term.now) }
{
    let copied = copy(alloc, term)?;
    let mut arena = Arena::new(alloc);
    let root = enter_normal(alloc, studied, &mut arena, copied, asks)?;
    rows_from(alloc, arena, root)
}

// The rows of the contract of a row of a table, which is let go.
pub(crate) fn rows_from(alloc: Global, arena: Arena, place: usize) -> Result<Rows, Memory>
    requires { place < length arena }
    ensures { GivesRows result (contract_at arena place) }
{
    rows_at(alloc, arena.nodes(), place)
}

/// The number of the row of the normal form of a contract, which is entered in the table. Alike
/// alternatives are found by the classes of their rows, and no two trees are compared.
#[cycle(enter_normal)]
pub fn enter_normal<L>(
    alloc: Global,
    studied: &Studied,
    arena: &mut Arena,
    term: Term,
    asks: &mut Asks<L>,
) -> Result<usize, Memory>
    ensures grows { Extends arena.old arena.new }
    ensures normal { Enters arena.new result (normal_in studied.now (contract_of term)) }
    ensures rises { asks.old ≤ asks.new }
    ensures asks { asks.new ≤ asks.old + questions (contract_of term) }
    ensures questions { OnOk result (AsksOnce studied.now (contract_of term) asks.old asks.new) }
    ensures size { asks.new ≤ asks.old + size (contract_of term) }
    ensures arguments { asks.new ≤ asks.old + arguments (contract_of term) }
{
    match term {
        Term::Success => arena.add(Node::Success),
        Term::Failure => failure(arena),
        Term::Transmit {
            binders,
            when,
            then,
        } => {
            let then = enter_normal(alloc, studied, arena, Box::into_inner(then), asks)?;
            send(alloc, arena, binders, when, then)
        }
        Term::Plus(a, b) => {
            let (a, b) = enter_both(alloc, studied, arena, a, b, asks)?;
            merge(arena, a, b)
        }
        Term::Par(a, b) => {
            let first = enter_normal(alloc, studied, arena, Box::into_inner(a), asks)?;
            enter_beside(alloc, studied, arena, first, Box::into_inner(b), asks)
        }
        Term::Seq(a, b) => {
            let (a, b) = enter_both(alloc, studied, arena, a, b, asks)?;
            seq(arena, a, b)
        }
        Term::App { name, args } => {
            let args = kept_args(alloc, studied, name, args.as_slice(), asks)?;
            applied(alloc, arena, name, args)
        }
    }
}

// An application, or `Failure` where no arguments are kept.
pub(crate) fn applied(
    alloc: Global,
    arena: &mut Arena,
    name: Name,
    args: Option<List<Expr>>,
) -> Result<usize, Memory>
    ensures grows { Extends arena.old arena.new }
    ensures stands { Enters arena.new result (applied_to name args) }
{
    let Some(args) = args else {
        return failure(arena);
    };
    let args = Arc::new(alloc, args)?;
    arena.add(Node::App { name, args })
}

// A transmission before a row: `Failure` where that is.
pub(crate) fn send(
    alloc: Global,
    arena: &mut Arena,
    binders: Binders,
    when: Expr,
    then: usize,
) -> Result<usize, Memory>
    requires { then < length arena.old }
    ensures grows { Extends arena.old arena.new }
    ensures stands { Enters arena.new result (spec.send binders (expression_of when) (contract_at arena.old then)) }
{
    if matches!(arena.node(then), Node::Failure) {
        return Ok(then);
    }
    let when = Arc::new(alloc, when)?;
    arena.add(Node::Transmit {
        binders,
        when,
        then,
    })
}

// The row beside the normal form of a contract, part by part from the left: each part is joined once.
#[cycle(enter_normal)]
fn enter_beside<L>(
    alloc: Global,
    studied: &Studied,
    arena: &mut Arena,
    first: usize,
    term: Term,
    asks: &mut Asks<L>,
) -> Result<usize, Memory>
    requires { first < length arena.old }
    ensures grows { Extends arena.old arena.new }
    ensures stands { Enters arena.new result (beside_normal studied.now arena.old first (contract_of term)) }
    ensures rises { asks.old ≤ asks.new }
    ensures asks { asks.new ≤ asks.old + questions (contract_of term) }
    ensures questions { OnOk result (AsksOnce studied.now (contract_of term) asks.old asks.new) }
    ensures size { asks.new ≤ asks.old + size (contract_of term) }
    ensures arguments { asks.new ≤ asks.old + arguments (contract_of term) }
{
    match term {
        Term::Par(a, b) => {
            let front = enter_beside(alloc, studied, arena, first, Box::into_inner(a), asks)?;
            enter_beside(alloc, studied, arena, front, Box::into_inner(b), asks)
        }
        other => {
            let place = enter_normal(alloc, studied, arena, other, asks)?;
            par(arena, first, place)
        }
    }
}

// The numbers of the rows of two normal forms.
#[cycle(enter_normal)]
fn enter_both<L>(
    alloc: Global,
    studied: &Studied,
    arena: &mut Arena,
    a: Box<Term>,
    b: Box<Term>,
    asks: &mut Asks<L>,
) -> Result<(usize, usize), Memory>
    ensures grows { Extends arena.old arena.new }
    ensures first { IfOk result (λ p. StandsNormal studied.now arena.new p.0 a.value) }
    ensures second { IfOk result (λ p. StandsNormal studied.now arena.new p.1 b.value) }
    ensures rises { asks.old ≤ asks.new }
    ensures asks { asks.new ≤ with_both questions a.value b.value asks.old }
    ensures questions { OnOk result (AskBothOnce studied.now a.value b.value asks.old asks.new) }
    ensures size { asks.new ≤ with_both size a.value b.value asks.old }
    ensures arguments { asks.new ≤ with_both arguments a.value b.value asks.old }
{
    let first = enter_normal(alloc, studied, arena, Box::into_inner(a), asks)?;
    let second = enter_normal(alloc, studied, arena, Box::into_inner(b), asks)?;
    Ok((first, second))
}
