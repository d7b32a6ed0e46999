//! `poets_bench_turnstile CLERKS CALLS`: from 1 to 64 clerks, each in a thread of its own, share so many calls of one
//! machine that adds ones, and the sum is printed.
#![tactic(auto)]

ghost use Rattle.std.specs.Prelude.{◌≡◌, ◌<◌, ◌≤◌, length, All, IfOk, IfSome};
ghost use Rattle.std.specs.Thread.{IsSync};
ghost use Rattle.std.specs.Arc.{arc_value};
ghost use Rattle.poets_value.specs.Limits.{most_clerks};
ghost use Rattle.poets_test_adder.specs.code.Adders.{most_of};
ghost use Rattle.poets_turn.specs.Clerks.{AreNumbered, IsClerkOf, clerk_count, number, turn_frame};

use poets_test_adder::Adder;
use poets_turn::{Clerk, Turn};
use poets_value::{List, MOST_CLERKS, Memory, push};
use std::alloc::Global;
use std::process::ExitCode;
use std::sync::{Arc, Wait};
use std::thread::Threads;
use std::{env, thread};

fn main(rt: HostRuntime) -> ExitCode {
    let Some((clerks, calls)) = asked(&rt) else {
        let _ = eprintln!(rt; "usage: poets_bench_turnstile CLERKS CALLS");
        return ExitCode::from(2);
    };
    let Ok(adder) = counted(&rt, rt.alloc(), clerks, calls) else {
        let _ = eprintln!(rt; "poets_bench_turnstile: out of memory");
        return ExitCode::from(3);
    };
    match println!(rt; "{} calls, sum {}", adder.entries().len(), adder.sum()) {
        Ok(()) => ExitCode::SUCCESS,
        Err(_) => ExitCode::from(5),
    }
}

// The two words of the command line.
fn asked(rt: &HostRuntime) -> Option<(u32, u32)>
    ensures { IfSome result (λ r. (0 < r.0) × (r.0 ≤ most_clerks)) }
{
    let mut words = env::args(rt).ok()?.skip(1);
    let clerks: u32 = words.next()?.parse().ok()?;
    let calls: u32 = words.next()?.parse().ok()?;
    if clerks == 0 || u64::from(clerks) > MOST_CLERKS {
        return None;
    }
    Some((clerks, calls))
}

// The turnstile, with its clerks.
fn opened(alloc: Global, clerks: u32) -> Result<(Turn<Adder>, List<Clerk<Adder>>), Memory>
    requires { (0 < clerks) × (clerks ≤ most_clerks) }
    ensures turn { IfOk result (λ r. (clerk_count r.0 ≡ clerks) × (turn_frame most_of r.0 ≡ 1)) }
    ensures clerks { IfOk result (λ r. (length r.1.items ≡ clerks) × AreNumbered r.1.items
        × All (λ c. IsClerkOf most_of r.0 c) r.1.items) }
{
    match Turn::start(alloc, Adder::new(alloc, 1), clerks) {
        Ok(opened) => Ok(opened),
        Err(_) => Err(Memory),
    }
}

// The machine after the calls.
fn counted<R: Threads + Wait + Sync>(
    rt: &R,
    alloc: Global,
    clerks: u32,
    calls: u32,
) -> Result<Adder, Memory>
    requires { (0 < clerks) × (clerks ≤ most_clerks) }
{
    let share = calls / clerks;
    let one = Arc::new(alloc, 1)?;
    let (turn, clerks) = opened(alloc, clerks)?;
    let mut clerks = clerks.into_vec();
    let (shared, one) = (&turn, &one);
    let threads = clerks.len();
    thread::for_each_mut(
        rt,
        clerks.as_mut_slice(),
        threads,
        &|_: usize, clerk: &mut Clerk<Adder>| -> ()
            requires sync { IsSync R.row }
            requires of { IsClerkOf most_of shared.now clerk.old }
            requires takes { arc_value one.now ≤ turn_frame most_of shared.now }
            ensures of { IsClerkOf most_of shared.entry.now clerk.exit.now }
            ensures number { number clerk.exit.now ≡ number clerk.entry.now }
        { make_share(rt, alloc, shared, clerk, one, share) },
    );
    let mut back = List::new(alloc);
    for clerk in clerks {
        push(&mut back, clerk)?;
    }
    Ok(closed(turn, back))
}

// The clerk's share of the calls, until memory runs out.
fn make_share<R: Threads + Wait + Sync>(
    rt: &R,
    alloc: Global,
    turn: &Turn<Adder>,
    clerk: &mut Clerk<Adder>,
    one: &Arc<u64>,
    share: u32,
)
    requires of { IsClerkOf most_of turn.now clerk.old }
    requires takes { arc_value one.now ≤ turn_frame most_of turn.now }
    ensures of { IsClerkOf most_of turn.now clerk.new }
    ensures number { number clerk.new ≡ number clerk.old }
{
    for _ in 0..share {
        if turn.call(rt, alloc, clerk, one).is_err() {
            return;
        }
    }
}

// Ends the turnstile with its clerks in their order.
fn closed(turn: Turn<Adder>, clerks: List<Clerk<Adder>>) -> Adder
    requires of { All (λ c. IsClerkOf most_of turn c) clerks.items }
    requires numbers { (length clerks.items ≡ clerk_count turn) × AreNumbered clerks.items }
{
    turn.close(clerks)
}
