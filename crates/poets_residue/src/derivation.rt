//! Residuals of contracts as rows, each different row derived once.
ghost use Rattle.std.specs.Prelude.{◌≡◌, ◌+◌, ◌≤◌, ◌<◌, None, IfOk, IsTrue, length};
ghost use Rattle.poets_syntax.specs.Contract.{Plus, Par, Seq};
ghost use Rattle.poets_meaning.specs.InStudied.{nullable_in, width_in, CountsFitIn};
ghost use Rattle.poets_calculus.specs.InStudied.{after_in};
ghost use Rattle.poets_norm.specs.Rows.{joined_at, GivesRows};
ghost use Rattle.poets_cons.specs.Notes.{noted};
ghost use Rattle.poets_cons.specs.Table.{contract_at, contract_of_rows, Extends};
ghost use Rattle.poets_residue.specs.Once.{once_in};
ghost use Rattle.poets_residue.specs.code.Deriving.{AreResiduals, IsResidual, CanDerive};
ghost use Rattle.poets_residue.specs.code.Deriving.{Derives, DerivesAnew, DerivesBoth};

use crate::bodies::unfold;
use crate::shared::{is_joined, may_end_at};
use poets_cons::{Arena, Node, Notes, Rows, rows_at};
use poets_expr::Asks;
use poets_meaning::Studied;
use poets_norm::joining::{either, failure, par, seq};
use poets_value::{Event, Memory};
use std::alloc::Global;
use std::sync::Arc;

// What the residuals are made by: a book that was studied, and an event.
#[derive(Clone, Copy)]
pub(crate) struct Derivation<'a> {
    pub(crate) alloc: Global,
    pub(crate) studied: &'a Studied,
    pub(crate) event: &'a Event,
}

// Rows, and of those that were derived the rows of their residuals.
#[derive(Drop)]
struct Derived {
    arena: Arena,
    memo: Notes,
}

// The residual of a row, from the residuals of its two parts.
impl Derivation<'_> {
    // The event goes to one of two rows.
    fn one_of(
        &self,
        arena: &mut Arena,
        a: usize,
        b: usize,
        after: (usize, usize),
    ) -> Result<usize, Memory>
        requires first { a < length arena.old }
        requires second { b < length arena.old }
        requires after { AreResiduals self.now arena.old a b after }
        ensures grows { Extends arena.old arena.new }
        ensures residual { IfOk result (IsResidual self.now arena.new (joined_at Plus arena.old a b)) }
    {
        let (after_a, after_b) = after;
        let is_a_known = is_joined(self.studied, arena.nodes(), a);
        let is_b_known = is_joined(self.studied, arena.nodes(), b);
        either(arena, after_a, is_a_known, after_b, is_b_known)
    }

    // The event goes to the first of two rows side by side, or to the second.
    fn one_side(
        &self,
        arena: &mut Arena,
        a: usize,
        b: usize,
        after: (usize, usize),
    ) -> Result<usize, Memory>
        requires first { a < length arena.old }
        requires second { b < length arena.old }
        requires after { AreResiduals self.now arena.old a b after }
        ensures grows { Extends arena.old arena.new }
        ensures residual { IfOk result (IsResidual self.now arena.new (joined_at Par arena.old a b)) }
    {
        let (after_a, after_b) = after;
        let first = par(arena, after_a, b)?;
        let second = par(arena, a, after_b)?;
        either(arena, first, false, second, false)
    }

    // The event goes to the first of two rows, of which that may end, or to the one behind it.
    fn either_end(
        &self,
        arena: &mut Arena,
        a: usize,
        b: usize,
        after: (usize, usize),
    ) -> Result<usize, Memory>
        requires first { a < length arena.old }
        requires second { b < length arena.old }
        requires ends { IsTrue (nullable_in self.now.studied.now (contract_at arena.old a)) }
        requires after { AreResiduals self.now arena.old a b after }
        ensures grows { Extends arena.old arena.new }
        ensures residual { IfOk result (IsResidual self.now arena.new (joined_at Seq arena.old a b)) }
    {
        let (after_a, after_b) = after;
        let first = seq(arena, after_a, b)?;
        let is_b_known = is_joined(self.studied, arena.nodes(), b);
        either(arena, first, false, after_b, is_b_known)
    }
}

impl Derivation<'_> {
    // The number of the row of the residual of a row, which is derived once.
    #[cycle(derive)]
    fn derive<L>(
        &self,
        table: &mut Derived,
        place: usize,
        asks: &mut Asks<L>,
    ) -> Result<usize, Memory>
        requires within { place < length table.old.arena }
        requires ready { CanDerive self.now table.old (contract_at table.old.arena place) }
        ensures { Derives self.now (contract_at table.old.arena place) table.old table.new asks.old asks.new result }
    {
        if let Some(known) = table.memo.get(place) {
            return Ok(known);
        }
        let next = self.derive_anew(table, place, asks)?;
        table.memo.note(place, next)
    }

    // The residual of a row that is not noted.
    #[cycle(derive)]
    fn derive_anew<L>(
        &self,
        table: &mut Derived,
        place: usize,
        asks: &mut Asks<L>,
    ) -> Result<usize, Memory>
        requires within { place < length table.old.arena }
        requires ready { CanDerive self.now table.old (contract_at table.old.arena place) }
        requires new { noted table.old.memo place ≡ None }
        ensures { DerivesAnew self.now (contract_at table.old.arena place) table.old table.new
            asks.old asks.new result }
    {
        match table.arena.node(place) {
            Node::Success => failure(&mut table.arena),
            Node::Failure => Ok(place),
            Node::Transmit {
                binders,
                when,
                then,
            } => {
                let binders = *binders;
                let when = Arc::try_clone(when)?;
                let then = *then;
                self.transmit(&mut table.arena, &binders, &*when, then, asks)
            }
            Node::Plus(a, b) => {
                let (a, b) = (*a, *b);
                let after = self.derive_both(table, a, b, asks)?;
                self.one_of(&mut table.arena, a, b, after)
            }
            Node::Par(a, b) => {
                let (a, b) = (*a, *b);
                let after = self.derive_both(table, a, b, asks)?;
                self.one_side(&mut table.arena, a, b, after)
            }
            Node::Seq(a, b) => {
                let (a, b) = (*a, *b);
                self.derive_seq(table, a, b, asks)
            }
            Node::App { name, args } => {
                let studied = self.studied;
                let Some((template, _)) = studied.template(*name) else {
                    return failure(&mut table.arena);
                };
                let args = Arc::try_clone(args)?;
                let args = args.as_slice();
                let start = unfold(self.alloc, studied, template, args, &mut table.arena, asks)?;
                self.derive(table, start, asks)
            }
        }
    }

    // The residual of a row before another.
    #[cycle(derive)]
    fn derive_seq<L>(
        &self,
        table: &mut Derived,
        a: usize,
        b: usize,
        asks: &mut Asks<L>,
    ) -> Result<usize, Memory>
        requires first { a < length table.old.arena }
        requires second { b < length table.old.arena }
        requires ready { CanDerive self.now table.old (joined_at Seq table.old.arena a b) }
        ensures { Derives self.now (joined_at Seq table.old.arena a b) table.old table.new asks.old asks.new result }
    {
        if !may_end_at(self.studied, table.arena.nodes(), a) {
            let after_a = self.derive(table, a, asks)?;
            return seq(&mut table.arena, after_a, b);
        }
        let after = self.derive_both(table, a, b, asks)?;
        self.either_end(&mut table.arena, a, b, after)
    }

    // The residuals of two rows. What they ask, a choice of the two may ask.
    #[cycle(derive)]
    fn derive_both<L>(
        &self,
        table: &mut Derived,
        a: usize,
        b: usize,
        asks: &mut Asks<L>,
    ) -> Result<(usize, usize), Memory>
        requires first { a < length table.old.arena }
        requires second { b < length table.old.arena }
        requires ready { CanDerive self.now table.old (joined_at Plus table.old.arena a b) }
        ensures { DerivesBoth self.now a b table.old table.new asks.old asks.new result }
    {
        let after_a = self.derive(table, a, asks)?;
        let after_b = self.derive(table, b, asks)?;
        Ok((after_a, after_b))
    }
}

/// The residual of a contract as rows by an event. Each different row is derived once.
pub fn residual_rows<L>(
    alloc: Global,
    studied: &Studied,
    rows: &Rows,
    event: &Event,
    asks: &mut Asks<L>,
) -> Result<Rows, Memory>
    requires { CountsFitIn studied.now (contract_of_rows rows.now) }
    ensures residual { GivesRows result (after_in studied.now event.now (contract_of_rows rows.now)) }
    ensures rises { asks.old ≤ asks.new }
    ensures asks { asks.new ≤ asks.old + width_in studied.now (contract_of_rows rows.now) }
    ensures once { asks.new ≤ asks.old + once_in studied.now (contract_of_rows rows.now) }
{
    studied.recall();
    let arena = rows.table(alloc)?;
    let start = rows.root();
    let memo = Notes::new(alloc);
    let mut table = Derived { arena, memo };
    let derivation = Derivation {
        alloc,
        studied,
        event,
    };
    let place = derivation.derive(&mut table, start, asks)?;
    rows_at(alloc, table.arena.nodes(), place)
}
