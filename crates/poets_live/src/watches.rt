//! All watches.
ghost use Rattle.std.specs.Prelude.{◌≡◌, ◌+◌, ◌*◌, ◌<◌, ◌≤◌, [], map, length, remove, sum_by, IfOk, IsOk, OnOk, OnErr};
ghost use Rattle.poets_live.specs.Watching.{AllBroughtUnder, AllFollowLog, AllLeadToLog, AllMoved, BeginsUnder, HaveRoom, IsAnswerOfWatch, WhereSingle, asked_without};
ghost use Rattle.poets_live.specs.code.Watches.{AllFollowTheLog, AllHaveRoom, AllLed, AllSeen, AllTook};

use crate::watch::{Move, Watch};
use poets_expr::{Asks, Decls};
use poets_report::{Answer, Report};
use poets_value::{Event, List, Memory, Value, push};
use std::alloc::Global;
use std::marker::Model;

/// Reports that are kept live, with numbers from 1. Contracts see them in this order, each with its arguments and its
/// answer so far.
///
/// Each call with declared names takes those that all earlier calls took.
#[derive(Drop)]
pub struct Watches {
    watches: Vec<Watch>,
}

impl Model for Watches {
    ghost use Rattle.poets_live.specs.Watching.{WatchesView};

    ghost Value = { WatchesView };

    ghost use Rattle.poets_report.specs.contracts.report.Report as r;
    ghost use Rattle.std.specs.Coded.{codes};

    ghost coded = { Prim.hlevel (codes, r.the_row.coded) };

    ghost use Rattle.std.specs.Prelude.{map};

    ghost view = { λ w. record {
      watches = map (λ s. s.watch) w.watches.items;
      rooms = map (λ s. s.room) w.watches.items;
    } };
}

/// What becomes of each watch when there is one more event, or one less. Contracts see it in the order of the watches.
#[derive(Drop)]
pub struct Seen {
    moves: List<Move>,
}

impl Model for Seen {
    ghost use Rattle.std.specs.Prelude.{List};
    ghost use Rattle.poets_live.specs.declared.watch.Move.{Move};

    ghost Value = { List Move };

    ghost view = { λ s. s.moves.items };
}

impl Watches {
    /// No watch.
    pub fn new(alloc: Global) -> Watches
        ensures { result.watches ≡ [] }
    {
        Watches {
            watches: Vec::new(alloc),
        }
    }

    /// The number of watches.
    pub fn count(&self) -> u64
        ensures { result ≡ length self.now.watches }
    {
        self.watches.len() as u64
    }

    /// The answer of the watch with the number. Without a key it takes no memory.
    pub fn read(&self, number: u64) -> Result<Answer, Memory>
        requires { (0 < number) × (number ≤ length self.now.watches) }
        ensures answer { IfOk result (IsAnswerOfWatch number self.now.watches) }
        ensures single { WhereSingle number self.now.watches (IsOk result) }
    {
        self.watches[(number - 1) as usize].read()
    }

    /// Begins a watch with the fold of the log, and returns its number.
    pub fn watch(
        &mut self,
        decls: &Decls,
        report: Report,
        args: List<Option<Value>>,
        log: &List<(u64, Event)>,
    ) -> Result<u64, Memory>
        requires { length args.items ≡ length report.params.items }
        ensures begins { OnOk result (BeginsUnder decls.now report args log.now self.old self.new) }
        ensures number { IfOk result (λ n. n ≡ length self.old.watches + 1) }
        ensures memory { OnErr result (self.new ≡ self.old) }
    {
        let alloc = *self.watches.allocator();
        let watch = Watch::new(alloc, decls, report, args, log.as_slice())?;
        let number = self.watches.len() as u64 + 1;
        let Ok(()) = self.watches.push(watch) else {
            return Err(Memory);
        };
        Ok(number)
    }

    /// What an event brings to each watch, with room to put it in place. The watches answer as before.
    pub fn seen<L>(
        &mut self,
        decls: &Decls,
        event: &Event,
        asks: &mut Asks<L>,
    ) -> Result<Seen, Memory>
        ensures same { self.new.watches ≡ self.old.watches }
        ensures brought { IfOk result (AllBroughtUnder decls.now event.now self.old.watches) }
        ensures room { IfOk result (HaveRoom self.new) }
        ensures asks { asks.new ≤ asks.old + 2 * length self.old.watches }
        ensures rises { asks.old ≤ asks.new }
    {
        let alloc = *self.watches.allocator();
        let moves = see_all(alloc, &mut self.watches, decls, event, asks)?;
        Ok(Seen { moves })
    }

    /// What becomes of each watch without the event at a place of the log, from 0. The watches follow the log, and
    /// answer as before.
    pub fn without<L>(
        &self,
        decls: &Decls,
        log: &List<(u64, Event)>,
        place: u64,
        asks: &mut Asks<L>,
    ) -> Result<Seen, Memory>
        requires seen { AllFollowLog decls.now log.now.items self.now.watches }
        requires place { place < length log.now.items }
        ensures leads { IfOk result (AllLeadToLog decls.now (remove log.now.items place) self.now.watches) }
        ensures room { IfOk result (HaveRoom self.now) }
        ensures asks { asks.new ≤ asks.old + sum_by (asked_without (length log.now.items) place) self.now.watches }
        ensures rises { asks.old ≤ asks.new }
    {
        let alloc = *self.watches.allocator();
        let moves = all_without(
            alloc,
            self.watches.as_slice(),
            decls,
            log.as_slice(),
            place as usize,
            asks,
        )?;
        Ok(Seen { moves })
    }

    /// Puts in place what becomes of the watches. They and their room are those that `seen` or `without` left.
    pub fn take(&mut self, seen: Seen)
        requires { HaveRoom self.old seen }
        ensures { AllMoved self.old.watches seen self.new.watches }
    {
        take_all(&mut self.watches, seen.moves);
    }
}

// What an event brings to each watch, with room to put it in place.
fn see_all<L>(
    alloc: Global,
    watches: &mut Vec<Watch>,
    decls: &Decls,
    event: &Event,
    asks: &mut Asks<L>,
) -> Result<List<Move>, Memory>
    ensures same { map (λ s. s.watch) watches.new.items ≡ map (λ s. s.watch) watches.old.items }
    ensures seen { IfOk result (AllSeen decls.now event.now watches.old.items watches.new.items) }
    ensures asks { asks.new ≤ asks.old + 2 * length watches.old.items }
    ensures rises { asks.old ≤ asks.new }
{
    let mut moves = List::new(alloc);
    moves.reserve(watches.len())?;
    for place in 0..watches.len() {
        let step = watches[place].see(decls, event, asks)?;
        push(&mut moves, step)?;
    }
    Ok(moves)
}

// What becomes of each watch without the event at a place of the log.
fn all_without<L>(
    alloc: Global,
    watches: &[Watch],
    decls: &Decls,
    log: &[(u64, Event)],
    place: usize,
    asks: &mut Asks<L>,
) -> Result<List<Move>, Memory>
    requires follow { AllFollowTheLog decls.now log.now watches.now }
    requires place { place < length log.now }
    ensures led { IfOk result (AllLed decls.now (remove log.now place) watches.now) }
    ensures asks { asks.new ≤ asks.old
        + sum_by (asked_without (length log.now) place) (map (λ s. s.watch) watches.now) }
    ensures rises { asks.old ≤ asks.new }
{
    let mut moves = List::new(alloc);
    for watch in watches {
        let step = watch.without(alloc, decls, log, place, asks)?;
        push(&mut moves, step)?;
    }
    Ok(moves)
}

// Puts in place what becomes of each watch.
fn take_all(watches: &mut Vec<Watch>, moves: List<Move>)
    requires { AllHaveRoom watches.old.items moves.items }
    ensures { AllTook watches.old.items watches.new.items moves.items }
{
    let mut place = 0;
    for step in moves.into_vec() {
        watches[place].take(step);
        place += 1;
    }
}
