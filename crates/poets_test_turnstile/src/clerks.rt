//! Scripts over an adder, which is given the amount 5 each time, with gates and without.
ghost use Rattle.std.specs.Prelude.{◌≡◌, ◌<◌, ◌≤◌, length, All, IfOk};
ghost use Rattle.std.specs.Arc.{arc_value};
ghost use Rattle.poets_value.specs.Limits.{most_clerks};

use poets_clerks::{Done, Gate, MadeOf, NoGate, WorkedOf, attempt_history, make_history, work};
use poets_machine::Machine;
use poets_test_adder::{Adder, Sum};
use poets_turn::Turn;
use poets_value::{List, Memory};
use std::alloc::{AllocError, Global};
use std::sync::atomic::{AtomicU64, Ordering};
use std::sync::{Arc, Wait};
use std::test::Fail;
use std::thread;
use std::thread::Threads;

// A script that gives the amount so often.
fn script(alloc: Global, calls: usize, amount: &Arc<u64>) -> Result<List<Arc<u64>>, Memory>
    requires { arc_value amount.now ≤ 9 }
    ensures { IfOk result (λ s. All (λ c. arc_value c ≤ 9) s.items) }
{
    let mut list = List::new(alloc);
    for _ in 0..calls {
        if list.push(Arc::try_clone(amount)?).is_err() {
            return Err(Memory);
        }
    }
    Ok(list)
}

// So many such scripts.
fn scripts(
    alloc: Global,
    count: usize,
    calls: usize,
    amount: &Arc<u64>,
) -> Result<List<List<Arc<u64>>>, Memory>
    requires { arc_value amount.now ≤ 9 }
    ensures { IfOk result (λ l. (length l.items ≡ count) × All (λ s. All (λ c. arc_value c ≤ 9) s.items) l.items) }
{
    let mut list = List::new(alloc);
    for made in 0..count {
        if list.push(script(alloc, calls, amount)?).is_err() {
            return Err(Memory);
        }
    }
    Ok(list)
}

// What came of the scripts.
#[derive(Drop)]
struct Outcome {
    adder: Adder,
    answers: List<List<Done<Adder>>>,
    memory: bool,
}

fn run_scripts<G: Gate + Sync, R: Threads + Wait + Sync>(
    rt: &R,
    alloc: Global,
    count: u32,
    calls: usize,
    gate: &G,
) -> Result<Outcome, Fail>
    requires { (0 < count) × (count ≤ most_clerks) }
{
    let amount = Arc::new(alloc, 5)?;
    let scripts = scripts(alloc, count as usize, calls, &amount)?;
    let Ok((turn, clerks)) = Turn::start(alloc, Adder::new(alloc, 9), count) else {
        return Err(Fail::from(AllocError));
    };
    let WorkedOf {
        clerks,
        answers,
        memory,
    } = work(rt, alloc, &turn, clerks, &scripts, gate);
    Ok(Outcome {
        adder: turn.close(clerks),
        answers,
        memory,
    })
}

// The place of a clerk's call, where each reply is the sum at its place. Both count from 0.
fn place_of(answers: &List<List<Done<Adder>>>, clerk: usize, call: usize) -> Option<u64> {
    let done = answers.get(clerk)?.get(call)?;
    if done.reply == done.place.wrapping_add(1).wrapping_mul(5) {
        Some(done.place)
    } else {
        None
    }
}

// Whether the places of a clerk's calls rise, and each reply is the sum at its place.
fn places_rise(answers: &List<List<Done<Adder>>>, clerk: usize, calls: usize) -> bool {
    for call in 1..calls {
        let (Some(before), Some(place)) = (
            place_of(answers, clerk, call - 1),
            place_of(answers, clerk, call),
        ) else {
            return false;
        };
        if place <= before {
            return false;
        }
    }
    true
}

#[test]
fn eight_clerks_make_their_scripts(rt: HostRuntime) -> Result<(), Fail> {
    let Outcome {
        adder,
        answers,
        memory,
    } = run_scripts(&rt, rt.alloc(), 8, 10, &NoGate)?;
    assert!(rt; !memory);
    assert_eq!(rt; adder.entries().len(), 80);
    assert_eq!(rt; adder.sum(), 400);
    for clerk in 0..8usize {
        assert!(rt; places_rise(&answers, clerk, 10), "clerk {clerk}");
    }
    Ok(())
}

// Holds each clerk's first call until the next clerk's first call is answered, but the last clerk's.
#[derive(Drop)]
struct LastFirst {
    answered: List<AtomicU64>,
    given_up: AtomicU64,
}

impl LastFirst {
    fn new(alloc: Global, clerks: usize) -> Result<LastFirst, Memory> {
        let mut answered = List::new(alloc);
        for _ in 0..clerks {
            if answered.push(AtomicU64::new(0)).is_err() {
                return Err(Memory);
            }
        }
        Ok(LastFirst {
            answered,
            given_up: AtomicU64::new(0),
        })
    }
}

impl Gate for LastFirst {
    fn before(&self, clerk: u32, call: u64) {
        let Some(next) = self.answered.get(clerk as usize) else {
            return;
        };
        if call == 1 {
            for _ in 0..1_000_000 {
                if next.load(Ordering::SeqCst) == 1 {
                    return;
                }
                thread::yield_now();
            }
            self.given_up.store(1, Ordering::SeqCst);
        }
    }

    fn outside(&self, clerk: u32, call: u64) {}

    fn after(&self, clerk: u32, call: u64) {
        if call == 1 && clerk > 0 {
            if let Some(mine) = self.answered.get(clerk as usize - 1) {
                mine.store(1, Ordering::SeqCst);
            }
        }
    }
}

#[test]
fn eight_clerks_come_in_turn_from_the_last(rt: HostRuntime) -> Result<(), Fail> {
    let alloc = rt.alloc();
    let gate = LastFirst::new(alloc, 8)?;
    let amount = Arc::new(alloc, 5)?;
    let scripts = scripts(alloc, 8, 1, &amount)?;
    let (adder, sums) = make_history(&rt, alloc, Adder::new(alloc, 9), &scripts, &gate)?;
    assert_eq!(rt; gate.given_up.load(Ordering::SeqCst), 0);
    assert_eq!(rt; sums.as_slice(), [5, 10, 15, 20, 25, 30, 35, 40].as_slice());
    assert_eq!(rt; adder.entries().len(), 8);
    for (place, entry) in adder.entries().iter().enumerate() {
        assert_eq!(rt; entry.0 as usize + place, 8, "place {place}");
    }
    Ok(())
}

#[test]
fn a_whole_history_comes_with_its_replies(rt: HostRuntime) -> Result<(), Fail> {
    let alloc = rt.alloc();
    let amount = Arc::new(alloc, 5)?;
    let scripts = scripts(alloc, 8, 10, &amount)?;
    let adder = Adder::new(alloc, 9);
    let MadeOf { machine, replies } = attempt_history(&rt, alloc, adder, &scripts, &NoGate);
    let Some(sums) = replies else {
        return Err(Fail::from(AllocError));
    };
    assert_eq!(rt; machine.entries().len(), 80);
    assert_eq!(rt; machine.sum(), 400);
    assert_eq!(rt; sums.len(), 80);
    let mut sum = 0u64;
    for reply in sums.as_slice() {
        sum = sum.wrapping_add(5);
        assert_eq!(rt; *reply, sum);
    }
    Ok(())
}

// An adder that is out of memory once it took so many amounts.
#[derive(Drop)]
struct SmallAdder {
    adder: Adder,
    room: usize,
}

// Gives up the processor so often that all who wait sleep by then: each looks 1,100 times at most before it does.
fn hold() {
    for _ in 0..20_000 {
        thread::yield_now();
    }
}

impl Machine for SmallAdder {
    type Call = u64;

    type Reply = u64;

    type Kept = Sum;

    type Frame = u64;

    ghost history = { λ a. ⟦<Adder as Machine>⟧.history a.adder };

    ghost frame = { λ a. ⟦<Adder as Machine>⟧.frame a.adder };

    ghost takes = { ⟦<Adder as Machine>⟧.takes };

    ghost answers = { ⟦<Adder as Machine>⟧.answers };

    ghost owes = { ⟦<Adder as Machine>⟧.owes };

    fn turn<R: Threads + Sync>(
        &mut self,
        rt: &R,
        alloc: Global,
        clerk: u32,
        call: &Arc<u64>,
    ) -> Result<Sum, Memory> {
        if self.adder.entries().len() >= self.room {
            hold();
            return Err(Memory);
        }
        self.adder.turn(rt, alloc, clerk, call)
    }

    fn place(kept: &Sum) -> u64 {
        Adder::place(kept)
    }

    fn finish<R: Threads + Sync>(rt: &R, alloc: Global, kept: Sum) -> Result<u64, Memory> {
        Adder::finish(rt, alloc, kept)
    }
}

#[test]
fn the_machine_comes_back_out_of_memory(rt: HostRuntime) -> Result<(), Fail> {
    let alloc = rt.alloc();
    let amount = Arc::new(alloc, 5)?;
    let scripts = scripts(alloc, 8, 10, &amount)?;
    let adder = SmallAdder {
        adder: Adder::new(alloc, 9),
        room: 25,
    };
    let MadeOf { machine, replies } = attempt_history(&rt, alloc, adder, &scripts, &NoGate);
    assert!(rt; replies.is_none());
    assert_eq!(rt; machine.adder.entries().len(), 25);
    assert_eq!(rt; machine.adder.sum(), 125);
    Ok(())
}

// The first turn that runs out of memory is held until the nine others sleep; each has to be woken by the one before.
#[test]
fn nine_who_sleep_are_woken_when_memory_runs_out(rt: HostRuntime) -> Result<(), Fail> {
    let alloc = rt.alloc();
    let amount = Arc::new(alloc, 5)?;
    let scripts = scripts(alloc, 10, 10, &amount)?;
    let adder = SmallAdder {
        adder: Adder::new(alloc, 9),
        room: 25,
    };
    let MadeOf { machine, replies } = attempt_history(&rt, alloc, adder, &scripts, &NoGate);
    assert!(rt; replies.is_none());
    assert_eq!(rt; machine.adder.entries().len(), 25);
    assert_eq!(rt; machine.adder.sum(), 125);
    Ok(())
}
