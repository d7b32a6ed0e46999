//! What an engine keeps.
ghost use Rattle.std.specs.Prelude.{◌≡◌, ◌+◌, ◌*◌, ◌-◌, ◌<◌, ◌≤◌, [], length, IfOk, OnOk, OnErr, Some, None, slice_get};
ghost use Rattle.poets_table.specs.Pieces.{joined};
ghost use Rattle.poets_table.specs.TableView.{AreEventsOf, IsCutOf, IsLive, IsPlaceOf, changed_at, finished};
ghost use Rattle.poets_table.specs.TableView.{number_named, row_view};
ghost use Rattle.poets_live.specs.Watching.{AllFollowLog, IsAnswerOfWatch};
ghost use Rattle.poets_engine.specs.Evaluations.{asked_of_watches};
ghost use Rattle.poets_engine.specs.code.Changes.{AddsContract, AddsWatchUnder, CutsStore, RecordsUnder};
ghost use Rattle.poets_engine.specs.code.Changes.{WithdrawsUnder};

use poets_cons::Rows;
use poets_expr::{Asks, Decls};
use poets_live::Watches;
use poets_report::{Answer, Report};
use poets_syntax::Term;
use poets_table::{Cut, Events, Row, Table};
use poets_value::{Event, List, Memory, Name, Value};
use std::alloc::Global;
use std::marker::Model;
use std::sync::Arc;

/// The contracts with their events, the log of all events, and the watches, which follow the log.
#[derive(Drop)]
pub(crate) struct Store {
    table: Table<Term, Rows>,
    watches: Watches,
}

impl Model for Store {
    ghost use Rattle.poets_engine.specs.Store.{StoreView};

    ghost Value = { StoreView };

    ghost use Rattle.poets_syntax.specs.contracts.term.Term as t;
    ghost use Rattle.poets_report.specs.contracts.report.Report as r;
    ghost use Rattle.poets_expr.specs.contracts.expr.Expr as x;
    ghost use Rattle.std.specs.Coded.{codes};

    ghost coded = { Prim.hlevel (codes, t.the_row.coded, r.the_row.coded, x.the_row.coded) };

    ghost view = { λ s. record { rows = s.table.rows; log = s.table.log; watches = s.watches.watches } };
}

impl Store {
    /// No contract and no watch.
    pub(crate) fn new(alloc: Global) -> Store
        ensures rows { result.rows ≡ [] }
        ensures log { result.log ≡ [] }
        ensures watches { result.watches ≡ [] }
    {
        Store {
            table: Table::new(alloc),
            watches: Watches::new(alloc),
        }
    }

    /// The number of the contract with a name, if there is one.
    pub(crate) fn find(&self, name: Name) -> Option<u64>
        ensures { result ≡ number_named name self.now.rows }
    {
        self.table.find(name)
    }

    /// The contract with a number.
    pub(crate) fn row(&self, number: u64) -> &Row<Term, Rows>
        requires { IsLive number self.now.rows }
        ensures { slice_get self.now.rows (number - 1) ≡ Some (row_view result.now) }
    {
        self.table.row(number)
    }

    /// The events of the contract with a number, as they are now.
    pub(crate) fn events(&self, number: u64) -> Result<Events, Memory>
        requires { IsLive number self.now.rows }
        ensures { IfOk result (λ e. AreEventsOf number self.now.rows (joined e.pieces)) }
    {
        self.table.events(number)
    }

    /// All events, with the numbers of their contracts.
    pub(crate) fn log(&self) -> &List<(u64, Event)>
        ensures { result.now.items ≡ self.now.log }
    {
        self.table.log()
    }

    /// The number of watches.
    pub(crate) fn watch_count(&self) -> u64
        ensures { result ≡ length self.now.watches }
    {
        self.watches.count()
    }

    /// The answer of the watch with a number.
    pub(crate) fn read(&self, number: u64) -> Result<Answer, Memory>
        requires { (0 < number) × (number ≤ length self.now.watches) }
        ensures { IfOk result (IsAnswerOfWatch number self.now.watches) }
    {
        self.watches.read(number)
    }

    /// Adds a contract, and answers its number.
    pub(crate) fn add(
        &mut self,
        name: Name,
        original: Arc<Term>,
        current: Arc<Rows>,
    ) -> Result<u64, Memory>
        requires { number_named name self.old.rows ≡ None }
        ensures ok { OnOk result (AddsContract name original current self.old self.new) }
        ensures number { IfOk result (λ n. n ≡ length self.old.rows + 1) }
        ensures err { OnErr result (self.new ≡ self.old) }
    {
        self.table.add(name, original, current)
    }

    /// Ends the contract with a number.
    pub(crate) fn finish(&mut self, number: u64)
        requires { IsLive number self.old.rows }
        ensures rows { self.new.rows ≡ changed_at finished (number - 1) self.old.rows }
        ensures log { self.new.log ≡ self.old.log }
        ensures watches { self.new.watches ≡ self.old.watches }
    {
        self.table.finish(number);
    }

    /// Records an event on the contract with a number, of which the current contract is then owed.
    pub(crate) fn record<T>(
        &mut self,
        decls: &Decls,
        number: u64,
        event: &Event,
        current: Arc<Rows>,
        asks: &mut Asks<T>,
    ) -> Result<(), Memory>
        requires { IsLive number self.old.rows }
        ensures ok { OnOk result (RecordsUnder decls.now number event.now current self.old self.new) }
        ensures err { OnErr result (self.new ≡ self.old) }
        ensures asks { asks.new ≤ asks.old + 2 * length self.old.watches }
        ensures rises { asks.old ≤ asks.new }
    {
        let seen = self.watches.seen(decls, event, asks)?;
        self.table.room(number)?;
        self.table.enter(number, *event, current);
        self.watches.take(seen);
        Ok(())
    }

    /// Prepares to take the event at a place, from 0, out of the contract with a number.
    pub(crate) fn cut(&self, number: u64, place: u64) -> Result<Cut, Memory>
        requires live { IsLive number self.now.rows }
        requires place { IsPlaceOf number place self.now.rows }
        ensures { IfOk result (CutsStore number place self.now) }
    {
        self.table.cut(number, place)
    }

    /// Takes the event of a cut out of its contract, of which the current contract is then owed, and these ahead of the
    /// pieces of its events; out of the log; and out of each watch.
    pub(crate) fn withdraw<T>(
        &mut self,
        decls: &Decls,
        cut: Cut,
        current: Arc<Rows>,
        points: List<Arc<Rows>>,
        asks: &mut Asks<T>,
    ) -> Result<(), Memory>
        requires cut { IsCutOf self.old.rows self.old.log cut }
        requires points { length points.items ≡ length cut.starts }
        requires place { cut.log_place < length self.old.log }
        requires follow { AllFollowLog decls.now self.old.log self.old.watches }
        ensures ok { OnOk result (WithdrawsUnder decls.now cut current points self.old self.new) }
        ensures err { OnErr result (self.new ≡ self.old) }
        ensures asks { asks.new ≤ asks.old + asked_of_watches cut.log_place self.old }
        ensures rises { asks.old ≤ asks.new }
    {
        let place = cut.log_place();
        let left = self.watches.without(decls, self.table.log(), place, asks)?;
        self.table.take_out(cut, current, points);
        self.watches.take(left);
        Ok(())
    }

    /// Begins a watch with the log, and answers its number.
    pub(crate) fn watch(
        &mut self,
        decls: &Decls,
        report: Report,
        args: List<Option<Value>>,
    ) -> Result<u64, Memory>
        requires { length args.items ≡ length report.params.items }
        ensures ok { OnOk result (AddsWatchUnder decls.now report args self.old self.new) }
        ensures number { IfOk result (λ n. n ≡ length self.old.watches + 1) }
        ensures err { OnErr result (self.new ≡ self.old) }
    {
        self.watches.watch(decls, report, args, self.table.log())
    }
}
