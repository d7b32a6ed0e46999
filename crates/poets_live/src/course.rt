//! A fold that leaves marks on its way.
ghost use Rattle.std.specs.Prelude.{◌≡◌, ◌+◌, ◌*◌, ◌/◌, ◌<◌, ◌≤◌, ◌∷◌, [], length, min, IfOk, IsOk, OnOk};
ghost use Rattle.poets_report.specs.Folds.{HasRoomFor, asked_by_event, events_of};
ghost use Rattle.poets_report.specs.UnderNames.{BringsUnder};
ghost use Rattle.poets_live.specs.Courses.{IsPassed, apart};
ghost use Rattle.poets_live.specs.code.Courses.{CourseGoesOnUnder, IsCourseOfLog, IsCourseUnder, IsKind, IsUpTo, Passes, TakesChange, carried_on};

use poets_expr::{Asks, Decls};
use poets_report::{Change, Fold, Report};
use poets_value::{Event, List, Memory, Value, push};
use std::alloc::Global;
use std::marker::Model;

/// How many events apart marks stand.
const APART: usize = 256;

/// The fold of a report over events, and marks on its way. Where the report has no key, a mark is left behind each
/// `APART` events: it holds what is carried there.
#[derive(Drop)]
pub(crate) struct Course {
    fold: Fold,
    marks: List<Option<Value>>,
    // How many events stand behind the last mark.
    since: usize,
}

impl Model for Course {
    ghost use Rattle.std.specs.Prelude.{◌≤◌};
    ghost use Rattle.poets_live.specs.Courses.{CourseView, apart};

    ghost Value = { CourseView };

    ghost view = { λ c. record { fold = c.fold; marks = c.marks.items; since = c.since; room = c.marks.room } };

    ghost invariant = { λ c. c.since ≤ apart };
}

impl Course {
    /// The course over no event.
    pub(crate) fn start<L>(
        alloc: Global,
        decls: &Decls,
        report: &Report,
        args: &List<Option<Value>>,
        asks: &mut Asks<L>,
    ) -> Result<Course, Memory>
        requires { length args.now.items ≡ length report.now.params.items }
        ensures course { IfOk result (IsCourseUnder decls.now report.now args.now.items []) }
        ensures asks { asks.new ≤ asks.old + 1 }
        ensures rises { asks.old ≤ asks.new }
    {
        let fold = Fold::start(alloc, decls, report, args, asks)?;
        Ok(Course {
            fold,
            marks: List::new(alloc),
            since: 0,
        })
    }

    /// The course over the events up to the last mark that is not behind a place, and how many events stand between.
    pub(crate) fn up_to<L>(
        &self,
        alloc: Global,
        decls: &Decls,
        report: &Report,
        args: &List<Option<Value>>,
        log: &[(u64, Event)],
        place: usize,
        asks: &mut Asks<L>,
    ) -> Result<(Course, usize), Memory>
        requires args { length args.now.items ≡ length report.now.params.items }
        requires course { IsCourseOfLog decls.now report.now args.now.items log.now self.now }
        requires place { place < length log.now }
        ensures course { IfOk result (IsUpTo decls.now report.now args.now.items log.now place) }
        ensures asks { asks.new ≤ asks.old + 1 }
        ensures rises { asks.old ≤ asks.new }
    {
        let start = Fold::start(alloc, decls, report, args, asks)?;
        let count = marks_until(self.marks.len(), place);
        let marks = copied(alloc, &self.marks.as_slice()[..count])?;
        let fold = carry_on(start, marks.as_slice())?;
        let course = Course {
            fold,
            marks,
            since: 0,
        };
        Ok((course, place - count * APART))
    }

    /// The course over the events of a log more.
    pub(crate) fn more_of_log<L>(
        mut self,
        decls: &Decls,
        report: &Report,
        log: &[(u64, Event)],
        asks: &mut Asks<L>,
    ) -> Result<Course, Memory>
        ensures goes_on { IfOk result (CourseGoesOnUnder decls.now report.now (events_of log.now) self) }
        ensures kind { IfOk result (IsKind self) }
        ensures asks { asks.new ≤ asks.old + asked_by_event self.fold.answer * length log.now }
        ensures rises { asks.old ≤ asks.new }
    {
        for pair in log {
            self.add_event(decls, report, &pair.1, asks)?;
        }
        Ok(self)
    }

    /// The fold so far.
    pub(crate) fn fold(&self) -> &Fold
        ensures { result.now ≡ self.now.fold }
    {
        &self.fold
    }

    /// What an event brings, for which there is then room.
    pub(crate) fn see<L>(
        &mut self,
        decls: &Decls,
        report: &Report,
        event: &Event,
        asks: &mut Asks<L>,
    ) -> Result<Change, Memory>
        ensures env { self.new.fold.env ≡ self.old.fold.env }
        ensures start { self.new.fold.start ≡ self.old.fold.start }
        ensures answer { self.new.fold.answer ≡ self.old.fold.answer }
        ensures marks { self.new.marks ≡ self.old.marks }
        ensures since { self.new.since ≡ self.old.since }
        ensures brings { IfOk result (BringsUnder decls.now report.now event.now self.old.fold) }
        ensures room { IfOk result (λ c. HasRoomFor c self.new.fold.answer self.new.fold.keys) }
        ensures place { OnOk result (0 < self.new.room) }
        ensures asks { asks.new ≤ asks.old + 2 }
        ensures rises { asks.old ≤ asks.new }
    {
        let change = self.fold.change(decls, report, event, asks);
        self.fold.make_room(&change)?;
        self.marks.reserve(1)?;
        Ok(change)
    }

    /// Puts in place what an event brought.
    pub(crate) fn take(&mut self, change: Change)
        requires fold { HasRoomFor change self.old.fold.answer self.old.fold.keys }
        requires place { 0 < self.old.room }
        ensures { TakesChange change self.old self.new }
    {
        let Ok(()) = self.pass() else {
            unreachable!();
        };
        let Ok(()) = self.fold.set(change) else {
            unreachable!();
        };
    }

    // Adds one event more.
    fn add_event<L>(
        &mut self,
        decls: &Decls,
        report: &Report,
        event: &Event,
        asks: &mut Asks<L>,
    ) -> Result<(), Memory>
        ensures goes_on { OnOk result (CourseGoesOnUnder decls.now report.now (event.now ∷ []) self.old self.new) }
        ensures kind { OnOk result (IsKind self.old self.new) }
        ensures asks { asks.new ≤ asks.old + asked_by_event self.old.fold.answer }
        ensures rises { asks.old ≤ asks.new }
    {
        self.pass()?;
        self.fold.add_event(decls, report, event, asks)?;
        Ok(())
    }

    // Leaves a mark where one is due, and goes past an event.
    fn pass(&mut self) -> Result<(), Memory>
        ensures fold { self.new.fold ≡ self.old.fold }
        ensures ok { OnOk result (Passes self.old self.new) }
        ensures succeeds { 0 < self.old.room → IsOk result }
    {
        let Some(carried) = self.fold.carried() else {
            return Ok(());
        };
        if self.since < APART {
            self.since += 1;
            return Ok(());
        }
        let Ok(()) = self.marks.push(carried) else {
            return Err(Memory);
        };
        self.since = 1;
        Ok(())
    }
}

// How many of so many marks are not behind a place.
fn marks_until(count: usize, place: usize) -> usize
    ensures { result ≡ min count (place / apart) }
{
    let most = place / APART;
    if most < count { most } else { count }
}

// The same marks in a list of their own.
fn copied(alloc: Global, marks: &[Option<Value>]) -> Result<List<Option<Value>>, Memory>
    ensures { IfOk result (λ l. l.items ≡ marks.now) }
{
    let mut copies = List::new(alloc);
    copies.reserve(marks.len())?;
    for mark in marks {
        push(&mut copies, *mark)?;
    }
    Ok(copies)
}

// The fold, which carries on from the last mark, if there is one.
fn carry_on(mut fold: Fold, marks: &[Option<Value>]) -> Result<Fold, Memory>
    ensures env { IfOk result (λ f. f.env ≡ fold.env) }
    ensures start { IfOk result (λ f. f.start ≡ fold.start) }
    ensures answer { IfOk result (λ f. f.answer ≡ carried_on fold.answer marks.now) }
{
    if fold.carried().is_none() {
        return Ok(fold);
    }
    let Some(mark) = marks.last() else {
        return Ok(fold);
    };
    let row = Some(*mark);
    fold.set(Change { key: None, row })?;
    Ok(fold)
}
