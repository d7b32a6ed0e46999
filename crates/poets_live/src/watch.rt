//! A report that is kept live.
ghost use Rattle.std.specs.Prelude.{◌≡◌, ◌+◌, ◌<◌, ◌≤◌, length, remove, IfOk, IsOk, OnOk, OnErr};
ghost use Rattle.poets_report.specs.Answers.{answer_of};
ghost use Rattle.poets_report.specs.Folds.{HasRoomFor, IsSingle, events_of};
ghost use Rattle.poets_live.specs.Watching.{HasRoomIn, Moved, asked_without};
ghost use Rattle.poets_live.specs.code.Watches.{BroughtUnder, FollowsLog, LeadsToLog};

use crate::course::Course;
use poets_expr::{Asks, Decls};
use poets_report::{Answer, Change, Report};
use poets_value::{Event, List, Memory, Value};
use std::alloc::Global;
use std::marker::Model;

/// A report under arguments, with its course over the events so far.
#[derive(Drop)]
pub(crate) struct Watch {
    report: Report,
    args: List<Option<Value>>,
    course: Course,
}

/// What becomes of a watch: a change by one event more, or a course over other events.
#[derive(Drop)]
pub(crate) enum Move {
    More(Change),
    Other(Course),
}

impl Model for Watch {
    ghost use Rattle.poets_live.specs.Watching.{WatchState};

    ghost Value = { WatchState };

    ghost use Rattle.poets_report.specs.contracts.report.Report as r;
    ghost use Rattle.std.specs.Coded.{codes};

    ghost coded = { Prim.hlevel (codes, r.the_row.coded) };

    ghost use Rattle.std.specs.Prelude.{◌≡◌, length};
    ghost use Rattle.poets_report.specs.Reports.{report_of, given};
    ghost use Rattle.poets_live.specs.Watching.{state_of};

    ghost view = { λ w. state_of w.report w.args.items w.course };

    ghost invariant = { λ w.
        (w.course.fold.env ≡ given (report_of w.report) w.args.items)
        × (length w.args.items ≡ length w.report.params.items) };
}

impl Watch {
    /// The watch of a report, which begins with the fold of the log.
    pub(crate) fn new(
        alloc: Global,
        decls: &Decls,
        report: Report,
        args: List<Option<Value>>,
        log: &[(u64, Event)],
    ) -> Result<Watch, Memory>
        requires { length args.items ≡ length report.params.items }
        ensures report { IfOk result (λ w. w.watch.report ≡ report) }
        ensures args { IfOk result (λ w. w.watch.args ≡ args.items) }
        ensures follows { IfOk result (λ w. FollowsLog decls.now log.now w.watch) }
    {
        let mut asks = Asks::new(());
        let start = Course::start(alloc, decls, &report, &args, &mut asks)?;
        let course = start.more_of_log(decls, &report, log, &mut asks)?;
        Ok(Watch {
            report,
            args,
            course,
        })
    }

    /// The answer over the events so far.
    pub(crate) fn read(&self) -> Result<Answer, Memory>
        ensures answer { IfOk result (λ a. answer_of a ≡ self.now.watch.answer) }
        ensures single { IsSingle self.now.watch.answer → IsOk result }
    {
        self.course.fold().read()
    }

    /// What an event brings to the watch, for which there is then room.
    pub(crate) fn see<L>(
        &mut self,
        decls: &Decls,
        event: &Event,
        asks: &mut Asks<L>,
    ) -> Result<Move, Memory>
        ensures same { self.new.watch ≡ self.old.watch }
        ensures brings { IfOk result (BroughtUnder decls.now event.now self.old.watch) }
        ensures room { IfOk result (HasRoomIn self.new.watch self.new.room) }
        ensures asks { asks.new ≤ asks.old + 2 }
        ensures rises { asks.old ≤ asks.new }
    {
        let change = self.course.see(decls, &self.report, event, asks)?;
        Ok(Move::More(change))
    }

    /// What becomes of the watch without the event at a place of the log.
    pub(crate) fn without<L>(
        &self,
        alloc: Global,
        decls: &Decls,
        log: &[(u64, Event)],
        place: usize,
        asks: &mut Asks<L>,
    ) -> Result<Move, Memory>
        requires follows { FollowsLog decls.now log.now self.now.watch }
        requires place { place < length log.now }
        ensures leads { IfOk result (LeadsToLog decls.now (remove log.now place) self.now.watch) }
        ensures room { IfOk result (HasRoomIn self.now.watch self.now.room) }
        ensures asks { asks.new ≤ asks.old + asked_without (length log.now) place self.now.watch }
        ensures rises { asks.old ≤ asks.new }
    {
        let (course, left) = self
            .course
            .up_to(alloc, decls, &self.report, &self.args, log, place, asks)?;
        let course = course.more_of_log(decls, &self.report, &log[place - left..place], asks)?;
        let course = course.more_of_log(decls, &self.report, &log[place + 1..], asks)?;
        Ok(Move::Other(course))
    }

    /// Puts in place what becomes of it.
    pub(crate) fn take(&mut self, step: Move)
        requires { HasRoomIn self.old.watch self.old.room step }
        ensures { Moved self.old.watch step self.new.watch }
    {
        match step {
            Move::More(change) => self.course.take(change),
            Move::Other(course) => self.course = course,
        }
    }
}
