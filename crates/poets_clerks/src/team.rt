//! All clerks at once. Threads know the turnstile by what it does to a desk, since a closure cannot hold one.
ghost use Rattle.std.specs.Prelude.{ℕ, ◌<◌, length, All, slice_index_or};
ghost use Rattle.std.specs.Thread.{IsSync};
ghost use Rattle.std.specs.Arc.{arc_value};
ghost use Rattle.poets_turn.specs.Clerks.{turn_frame, IsClerkOf};
ghost use Rattle.poets_clerks.specs.Scripts.{HasWorked, answers_of, script_calls};
ghost use Rattle.poets_clerks.specs.code.Desks.{AtEach, AtEachOfTwo};

use crate::answers::DoneOf;
use crate::gate::Gate;
use crate::script::make_script;
use poets_machine::Machine;
use poets_turn::{ClerkOf, Turn};
use poets_value::List;
use std::alloc::Global;
use std::sync::{Arc, Wait};
use std::thread;
use std::thread::Threads;

/// A clerk, with the answers to its calls.
#[derive(Drop)]
pub(crate) struct DeskOf<M, C, F, R> {
    pub clerk: ClerkOf<M, C, F>,
    pub answers: List<DoneOf<R>>,
    pub memory: bool,
}

pub(crate) type Desk<M> = DeskOf<
    M,
    <M as Machine>::Call,
    <M as Machine>::Frame,
    <M as Machine>::Reply,
>;

/// What works at numbered desks.
pub(crate) trait Team {
    type Desk;
    /// The desk of that number may be worked at.
    ghost may: { Self → ℕ → Self.Desk → Type 0 };
    /// What work does to it.
    ghost did: { Self → ℕ → Self.Desk → Self.Desk → Type 0 };

    fn run<G: Gate, R: Threads + Wait + Sync>(
        &self,
        rt: &R,
        alloc: Global,
        nth: usize,
        desk: &mut Self::Desk,
        gate: &G,
    )
        requires sync { IsSync R.row }
        requires may { may self.now nth desk.old }
        ensures { did self.now nth desk.old desk.new };
}

/// A turnstile with a script for each clerk.
#[derive(Drop)]
pub(crate) struct Crew<'a, M: Machine> {
    pub turn: &'a Turn<M>,
    pub scripts: &'a [List<Arc<M::Call>>],
}

impl<'a, M: Machine> Team for Crew<'a, M> {
    type Desk = DeskOf<M, M::Call, M::Frame, M::Reply>;

    ghost may = { λ t n d. (n < length t.scripts.now) × IsClerkOf M.frame t.turn.now d.clerk
        × ((s : _) → All (λ c. M.takes (turn_frame M.frame t.turn.now) (arc_value c))
        (slice_index_or t.scripts.now n s).items) };

    ghost did = { λ t n d e. (s : _) → HasWorked M.frame M.answers t.turn.now e.memory
        (script_calls (slice_index_or t.scripts.now n s)) d.clerk e.clerk (answers_of e.answers) };

    fn run<G: Gate, R: Threads + Wait + Sync>(
        &self,
        rt: &R,
        alloc: Global,
        nth: usize,
        desk: &mut DeskOf<M, M::Call, M::Frame, M::Reply>,
        gate: &G,
    ) {
        let script = self.scripts[nth].as_slice();
        let (answers, memory) = make_script(rt, alloc, self.turn, &mut desk.clerk, script, gate);
        desk.answers = answers;
        desk.memory = memory;
    }
}

/// Has the team work at each desk, in a thread of its own.
pub(crate) fn spread<T: Team + Sync, G: Gate + Sync, R: Threads + Wait + Sync>(
    rt: &R,
    alloc: Global,
    team: &T,
    desks: &mut [T::Desk],
    gate: &G,
)
where
    T::Desk: Send,
    requires may { AtEach (T.may team.now) desks.old }
    ensures did { AtEachOfTwo (T.did team.entry.now) desks.old desks.new }
{
    let threads = desks.len().max(1);
    thread::for_each_mut(
        rt,
        desks,
        threads,
        &|i: usize, desk: &mut T::Desk| -> ()
            requires { IsSync R.row × T.may team.now i desk.old }
            ensures { T.did team.entry.now i desk.entry.now desk.exit.now }
        { team.run(rt, alloc, i, desk, gate) },
    );
}
