//! The answer of a report over events, and folds that go on from event to event.
ghost use Rattle.std.specs.Prelude.{◌≡◌, ◌+◌, ◌*◌, ◌≤◌, ◌∷◌, [], length, IfOk, IsOk, OnOk, OnErr};
ghost use Rattle.poets_expr.specs.Asked.{one_more};
ghost use Rattle.poets_report.specs.Answers.{answer_of};
ghost use Rattle.poets_report.specs.Folds.{Changes, HasRoomFor, IsSingle, answer_in, asked_by_event, carried_in, events_of, fold_by};
ghost use Rattle.poets_report.specs.UnderNames.{BringsUnder, GoesOnUnder, IsAnswerUnder, StandsForUnder};
ghost use Rattle.poets_report.specs.code.Stages.{IsCarriedPast, IsFirstAnswer, IsKeyOn};

use crate::keyed::KeyedRows;
use crate::report::{Answer, Report};
use crate::scope::Scope;
use poets_expr::{Asks, Decls};
use poets_value::{Event, List, Memory, Value};
use std::alloc::Global;
use std::marker::Model;

/// The fold of a report under arguments over the events so far, from which it goes on.
///
/// Contracts see the arguments, the start, the answer, and the keys for whose rows there is room.
#[derive(Drop)]
pub struct Fold {
    scope: Scope,
    start: Option<Value>,
    running: Running,
}

/// The answer so far.
#[derive(Drop)]
pub(crate) enum Running {
    /// What is carried to the next event.
    Carried(Option<Value>),
    /// By keys, what is carried to the next event with the key.
    Keyed(KeyedRows),
}

/// A change of an answer: of its value, or, in an answer by keys, of the row of one key, which may also be removed.
#[derive(Debug, Clone, Copy, PartialEq, Eq)]
pub struct Change {
    pub key: Option<Value>,
    /// The value of the row, or none where the key has no row any more.
    pub row: Option<Option<Value>>,
}

impl Model for Fold {
    ghost use Rattle.poets_report.specs.Folds.{FoldView};

    ghost Value = { FoldView };

    ghost use Rattle.poets_report.specs.Folds.{fold_by};

    ghost view = { λ f. fold_by f.scope f.start f.running };
}

impl Fold {
    /// The fold of a report under arguments, before any event.
    pub fn start<L>(
        alloc: Global,
        decls: &Decls,
        report: &Report,
        args: &List<Option<Value>>,
        asks: &mut Asks<L>,
    ) -> Result<Fold, Memory>
        requires { length args.now.items ≡ length report.now.params.items }
        ensures stands { IfOk result (StandsForUnder decls.now report.now args.now.items []) }
        ensures asks { asks.new ≤ asks.old + 1 }
        ensures rises { asks.old ≤ asks.new }
    {
        let scope = Scope::new(alloc, report.params.as_slice(), args.as_slice())?;
        let start = scope.value(decls, &report.start, asks);
        let running = running_from(alloc, report, &start);
        Ok(Fold {
            scope,
            start,
            running,
        })
    }

    /// The fold after more events, for a fold that was started with this report under these declared names.
    pub fn more<L>(
        mut self,
        decls: &Decls,
        report: &Report,
        events: &[Event],
        asks: &mut Asks<L>,
    ) -> Result<Fold, Memory>
        ensures stands { IfOk result (GoesOnUnder decls.now report.now events.now self) }
        ensures asks { asks.new ≤ asks.old + 2 * length events.now }
        ensures rises { asks.old ≤ asks.new }
    {
        for event in events {
            self.add_event(decls, report, event, asks)?;
        }
        Ok(self)
    }

    /// The fold after the events of a log, for a fold that was started with this report under these declared names.
    pub fn more_of_log<L>(
        mut self,
        decls: &Decls,
        report: &Report,
        log: &[(u64, Event)],
        asks: &mut Asks<L>,
    ) -> Result<Fold, Memory>
        ensures stands { IfOk result (GoesOnUnder decls.now report.now (events_of log.now) self) }
        ensures asks { asks.new ≤ asks.old + 2 * length log.now }
        ensures rises { asks.old ≤ asks.new }
    {
        for pair in log {
            self.add_event(decls, report, &pair.1, asks)?;
        }
        Ok(self)
    }

    /// Adds one event. If it is out of memory, the fold is as before.
    pub fn add_event<L>(
        &mut self,
        decls: &Decls,
        report: &Report,
        event: &Event,
        asks: &mut Asks<L>,
    ) -> Result<(), Memory>
        ensures stands { OnOk result (GoesOnUnder decls.now report.now (event.now ∷ []) self.old self.new) }
        ensures err { OnErr result (self.new ≡ self.old) }
        ensures kind { asked_by_event self.new.answer ≡ asked_by_event self.old.answer }
        ensures asks { asks.new ≤ asks.old + 2 }
        ensures fewer { asks.new ≤ asks.old + asked_by_event self.old.answer }
        ensures rises { asks.old ≤ asks.new }
    {
        let change = self.change(decls, report, event, asks);
        self.set(change)
    }

    /// How an event would change the answer, which stays as it is. It makes at most two evaluations.
    pub fn change<L>(
        &mut self,
        decls: &Decls,
        report: &Report,
        event: &Event,
        asks: &mut Asks<L>,
    ) -> Change
        ensures brings { BringsUnder decls.now report.now event.now self.old result }
        ensures same { self.new ≡ self.old }
        ensures asks { asks.new ≤ asks.old + 2 }
        ensures fewer { asks.new ≤ asks.old + asked_by_event self.old.answer }
        ensures rises { asks.old ≤ asks.new }
    {
        brought(
            &mut self.scope,
            decls,
            report,
            &self.start,
            &self.running,
            event,
            asks,
        )
    }

    /// Makes room for a change, so that it can be put in place without memory.
    pub fn make_room(&mut self, change: &Change) -> Result<(), Memory>
        ensures env { self.new.env ≡ self.old.env }
        ensures start { self.new.start ≡ self.old.start }
        ensures answer { self.new.answer ≡ self.old.answer }
        ensures room { OnOk result (HasRoomFor change.now self.new.answer self.new.keys) }
    {
        match &mut self.running {
            Running::Carried(_) => Ok(()),
            Running::Keyed(rows) => rows.make_room(change.key),
        }
    }

    /// Puts a change in place. It takes memory only where there is no room.
    pub fn set(&mut self, change: Change) -> Result<(), Memory>
        ensures env { self.new.env ≡ self.old.env }
        ensures start { self.new.start ≡ self.old.start }
        ensures ok { OnOk result (Changes change self.old.answer self.new.answer) }
        ensures err { OnErr result (self.new ≡ self.old) }
        ensures kind { asked_by_event self.new.answer ≡ asked_by_event self.old.answer }
        ensures succeeds { HasRoomFor change self.old.answer self.old.keys → IsOk result }
    {
        match &mut self.running {
            Running::Carried(value) => {
                *value = change.row.unwrap_or(*value);
                Ok(())
            }
            Running::Keyed(rows) => rows.set(change.key, change.row),
        }
    }

    /// What is carried to the next event; none where the events are folded by a key.
    pub fn carried(&self) -> Option<Option<Value>>
        ensures { result ≡ carried_in self.now.answer }
    {
        match &self.running {
            Running::Carried(value) => Some(*value),
            Running::Keyed(_) => None,
        }
    }

    /// The answer so far. Without a key it takes no memory.
    pub fn read(&self) -> Result<Answer, Memory>
        ensures answer { IfOk result (λ a. answer_of a ≡ self.now.answer) }
        ensures single { IsSingle self.now.answer → IsOk result }
    {
        match &self.running {
            Running::Carried(value) => Ok(Answer::Single(*value)),
            Running::Keyed(rows) => Ok(Answer::Rows(rows.rows(self.scope.allocator())?)),
        }
    }

    /// The answer over the events.
    pub fn answer(self) -> Result<Answer, Memory>
        ensures answer { IfOk result (λ a. answer_of a ≡ self.answer) }
        ensures single { IsSingle self.answer → IsOk result }
    {
        self.read()
    }
}

// The answer over no event, where the start is this.
fn running_from(alloc: Global, report: &Report, start: &Option<Value>) -> Running
    ensures { IsFirstAnswer report.now start.now result }
{
    match &report.key {
        None => Running::Carried(*start),
        Some(_) => Running::Keyed(KeyedRows::new(alloc)),
    }
}

// What an event brings to an answer.
fn brought<L>(
    scope: &mut Scope,
    decls: &Decls,
    report: &Report,
    start: &Option<Value>,
    running: &Running,
    event: &Event,
    asks: &mut Asks<L>,
) -> Change
    ensures brings { BringsUnder decls.now report.now event.now (fold_by scope.old start.now running.now) result }
    ensures same { scope.new ≡ scope.old }
    ensures asks { asks.new ≤ asks.old + 2 }
    ensures fewer { asks.new ≤ asks.old + asked_by_event (answer_in running.now) }
    ensures rises { asks.old ≤ asks.new }
{
    match running {
        Running::Carried(carried) => {
            let next = stage(scope, decls, report, *carried, event, asks);
            Change {
                key: None,
                row: Some(next),
            }
        }
        Running::Keyed(rows) => {
            let key = key_of(scope, decls, report, event, asks);
            let carried = rows.row(&key).unwrap_or(*start);
            let next = stage(scope, decls, report, carried, event, asks);
            Change {
                key,
                row: Some(next),
            }
        }
    }
}

// The key of an event; without a key it is undefined.
fn key_of<L>(
    scope: &mut Scope,
    decls: &Decls,
    report: &Report,
    event: &Event,
    asks: &mut Asks<L>,
) -> Option<Value>
    ensures value { IsKeyOn decls.now report.now scope.old event.now result }
    ensures same { scope.new ≡ scope.old }
    ensures asks { asks.new ≤ asks.old + 1 }
    ensures rises { asks.old ≤ asks.new }
{
    match &report.key {
        None => None,
        Some(key) => scope.on_event(decls, &report.binders, event, key, asks),
    }
}

// What is carried past an event.
fn stage<L>(
    scope: &mut Scope,
    decls: &Decls,
    report: &Report,
    carried: Option<Value>,
    event: &Event,
    asks: &mut Asks<L>,
) -> Option<Value>
    ensures value { IsCarriedPast decls.now report.now scope.old carried event.now result }
    ensures same { scope.new ≡ scope.old }
    ensures asks { asks.new ≡ one_more asks.old }
    ensures rises { asks.old ≤ asks.new }
{
    let carried = (report.carry, carried);
    scope.past_event(decls, carried, &report.binders, event, &report.step, asks)
}

/// The answer of a report over events, folded from left to right.
pub fn value_of<L>(
    alloc: Global,
    decls: &Decls,
    report: &Report,
    args: &List<Option<Value>>,
    events: &[Event],
    asks: &mut Asks<L>,
) -> Result<Answer, Memory>
    requires { length args.now.items ≡ length report.now.params.items }
    ensures answer { IfOk result (IsAnswerUnder decls.now report.now args.now.items events.now) }
    ensures asks { asks.new ≤ asks.old + 1 + 2 * length events.now }
    ensures rises { asks.old ≤ asks.new }
{
    let fold = Fold::start(alloc, decls, report, args, asks)?;
    let fold = fold.more(decls, report, events, asks)?;
    fold.answer()
}
