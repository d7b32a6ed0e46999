//! The engine's type.
ghost use Rattle.std.specs.Prelude.{◌≡◌, ◌+◌, ◌≤◌, [], IfOk, OnErr};
ghost use Rattle.std.specs.Arc.{arc_value};
ghost use Rattle.poets_syntax.specs.Whole.{IsWholeBook};
ghost use Rattle.poets_command.specs.Calls.{command_of, reply_of};
ghost use Rattle.poets_rules.specs.Rules.{book_of_rules, reports_of_rules};
ghost use Rattle.poets_history.specs.Histories.{IsLegal};
ghost use Rattle.poets_engine.specs.Accounts.{AccountsAfterCalls, HasFormedAccount};
ghost use Rattle.poets_engine.specs.Evaluations.{most_evaluations_in};
ghost use Rattle.poets_engine.specs.State.{AddsCall, Fulfils, HasLegalHistory, IsKeptUnlessChanged, OwesNext};
ghost use Rattle.poets_engine.specs.State.{commands_of};
ghost use Rattle.poets_engine.specs.Takes.{IsTakenBy};

use crate::accounts::{Account, account_named};
use crate::copies::Copies;
use crate::kept::{Body, Kept};
use crate::steps::step;
use crate::store::Store;
use poets_command::{Command, Reply};
use poets_expr::Asks;
use poets_meaning::Studied;
use poets_report::Report;
use poets_rules::Rules;
use poets_value::{List, Memory, Name};
use std::alloc::Global;
use std::marker::Model;
use std::sync::Arc;
use std::thread::Threads;

/// An engine with a history of calls. Contracts see its rules, its calls, and what it keeps of them: the rows and the
/// log of its contracts and the watches, which are the ledger of a legal history of these calls.
#[derive(Drop)]
pub struct Engine {
    rules: Rules,
    store: Store,
    history: List<(u32, Arc<Command>)>,
    copies: Copies,
}

impl Model for Engine {
    ghost use Rattle.poets_engine.specs.State.{State};

    ghost Value = { State };

    ghost use Rattle.poets_syntax.specs.contracts.term.Term as t;
    ghost use Rattle.poets_syntax.specs.contracts.term.Book as b;
    ghost use Rattle.poets_command.specs.contracts.call.Command as c;
    ghost use Rattle.poets_report.specs.contracts.report.Report as r;
    ghost use Rattle.poets_expr.specs.contracts.expr.Expr as x;
    ghost use Rattle.std.specs.Coded.{codes};

    ghost coded = { Prim.hlevel
        (codes, t.the_row.coded, b.the_row.coded, c.the_row.coded, r.the_row.coded, x.the_row.coded) };

    ghost use Rattle.poets_engine.specs.State.{commands_of, plain_calls};
    ghost use Rattle.poets_engine.specs.Rows.{IsStoreOf};
    ghost use Rattle.poets_engine.specs.Copies.{AreCopies};

    ghost view = { λ e. record {
      rules = e.rules;
      calls = commands_of e.history.items;
      store = e.store;
    } };

    ghost invariant = { λ e. IsStoreOf e.rules (plain_calls (commands_of e.history.items)) e.store
        × AreCopies e.rules e.copies };
}

impl Engine {
    /// An engine with no history.
    pub fn new(alloc: Global, rules: Rules) -> Engine
        requires { IsWholeBook (book_of_rules rules) }
        ensures rules { result.rules ≡ rules }
        ensures calls { result.calls ≡ [] }
        ensures legal { IsLegal (book_of_rules rules) (reports_of_rules rules) [] }
    {
        rules.studied.recall();
        Engine {
            rules,
            store: Store::new(alloc),
            history: List::new(alloc),
            copies: Copies::new(alloc),
        }
    }

    /// The calls made: clerks' numbers and commands, in order.
    pub fn history(&self) -> &List<(u32, Arc<Command>)>
        ensures calls { commands_of result.now.items ≡ self.now.calls }
        // Some legal history has these calls, also where the reply to the last one was never handed out.
        ensures legal { HasLegalHistory self.now }
    {
        &self.history
    }

    /// The studied book that the engine was made with.
    pub fn studied(&self) -> &Studied
        ensures { result.now ≡ self.now.rules.studied }
    {
        &self.rules.studied
    }

    /// The reports that the engine was made with.
    pub fn reports(&self) -> &List<Report>
        ensures { result.now ≡ self.now.rules.reports }
    {
        &self.rules.reports
    }

    /// The account of the contract with a name, if there is one.
    pub fn account(&self, alloc: Global, name: Name) -> Result<Option<Account>, Memory>
        ensures account { IfOk result (AccountsAfterCalls self.now name) }
        ensures formed { IfOk result (HasFormedAccount self.now) }
    {
        account_named(alloc, &self.rules, &self.store, name)
    }

    /// Makes a call. `finish` hands out the reply, and makes the rows of a portfolio.
    ///
    /// All memory is taken before the first change, so if memory runs out, nothing changes. A refusal only adds the
    /// call to the history.
    pub fn apply<T, R: Threads + Sync>(
        &mut self,
        rt: &R,
        alloc: Global,
        clerk: u32,
        command: &Arc<Command>,
        asks: &mut Asks<T>,
    ) -> Result<Kept, Memory>
        requires { IsTakenBy self.old.rules (command_of (arc_value command.now)) }
        ensures calls { IfOk result (λ k. AddsCall clerk command.now self.old self.new) }
        ensures owes { IfOk result (λ k. OwesNext self.old (arc_value command.now) k) }
        ensures refused { IfOk result (λ k. IsKeptUnlessChanged k.body self.old self.new) }
        ensures asks { asks.new ≤ asks.old + most_evaluations_in self.old command.now }
        ensures rises { asks.old ≤ asks.new }
        ensures memory { OnErr result (self.new ≡ self.old) }
        ensures frame { self.new.rules ≡ self.old.rules }
    {
        let kept = Arc::try_clone(command)?;
        self.history.reserve(1)?;
        let place = self.history.len() as u64;
        let body = step(
            alloc,
            &self.rules,
            &mut self.copies,
            &mut self.store,
            &**command,
            asks,
        )?;
        let Ok(()) = self.history.push((clerk, kept)) else {
            unreachable!();
        };
        Ok(Kept { place, body })
    }

    /// The reply to the call. The rows of a portfolio are made in parallel.
    pub fn finish<R: Threads + Sync>(rt: &R, alloc: Global, kept: Kept) -> Result<Reply, Memory>
        ensures { IfOk result (λ r. Fulfils kept (reply_of r)) }
    {
        match kept.body {
            Body::Done(reply) => Ok(reply),
            Body::Folio(work) => Ok(Reply::Folio(work.finish(rt, alloc)?)),
        }
    }
}
