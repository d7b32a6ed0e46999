//! Clerks at a turnstile over an adder.
ghost use Rattle.std.specs.Prelude.{◌≡◌, ◌<◌, ◌≤◌, [], length, All, IfOk};
ghost use Rattle.std.specs.Thread.{IsSync};
ghost use Rattle.poets_value.specs.Limits.{most_clerks};
ghost use Rattle.poets_test_adder.specs.code.Adders.{most_of};
ghost use Rattle.poets_turn.specs.Clerks.{AreNumbered, IsClerkOf, clerk_count, number, turn_frame};

use poets_machine::Machine;
use poets_test_adder::Adder;
use poets_turn::{Clerk, Turn};
use poets_value::{List, Memory, push};
use std::alloc::{AllocError, Global};
use std::sync::atomic::{AtomicU64, Ordering};
use std::sync::{Arc, Wait};
use std::test::Fail;
use std::thread;
use std::thread::Threads;

fn opened(alloc: Global, clerks: u32) -> Result<(Turn<Adder>, List<Clerk<Adder>>), Fail>
    requires { (0 < clerks) × (clerks ≤ most_clerks) }
    ensures turn { IfOk result (λ r. (clerk_count r.0 ≡ clerks) × (turn_frame most_of r.0 ≡ 79)) }
    ensures clerks { IfOk result (λ r. (length r.1.items ≡ clerks) × AreNumbered r.1.items
        × All (λ c. IsClerkOf most_of r.0 c) r.1.items) }
{
    match Turn::start(alloc, Adder::new(alloc, 79), clerks) {
        Ok(opened) => Ok(opened),
        Err(_) => Err(Fail::from(AllocError)),
    }
}

// Ends the turnstile with its clerks in their order.
fn closed(turn: Turn<Adder>, clerks: List<Clerk<Adder>>) -> Adder
    requires of { All (λ c. IsClerkOf most_of turn c) clerks.items }
    requires numbers { (length clerks.items ≡ clerk_count turn) × AreNumbered clerks.items }
{
    turn.close(clerks)
}

// A turnstile with two clerks, and an empty list with room for them.
struct Pair {
    turn: Turn<Adder>,
    list: List<Clerk<Adder>>,
    one: Clerk<Adder>,
    two: Clerk<Adder>,
    ghost turn_is: { (clerk_count turn ≡ 2) × (turn_frame most_of turn ≡ 79) },
    ghost room: { (list.items ≡ []) × (2 ≤ list.room) },
    ghost numbers: { (number one ≡ 1) × (number two ≡ 2) },
}

fn two_clerks(alloc: Global) -> Result<Pair, Fail>
    ensures { IfOk result (λ p. IsClerkOf most_of p.turn p.one × IsClerkOf most_of p.turn p.two) }
{
    let (turn, mut list) = opened(alloc, 2)?;
    let Some(two) = list.pop() else {
        unreachable!()
    };
    let Some(one) = list.pop() else {
        unreachable!()
    };
    Ok(Pair {
        turn,
        list,
        one,
        two,
    })
}

fn closed_pair(
    turn: Turn<Adder>,
    mut list: List<Clerk<Adder>>,
    one: Clerk<Adder>,
    two: Clerk<Adder>,
) -> Adder
    requires room { (list.items ≡ []) × (2 ≤ list.room) }
    requires count { clerk_count turn ≡ 2 }
    requires one { (number one ≡ 1) × IsClerkOf most_of turn one }
    requires two { (number two ≡ 2) × IsClerkOf most_of turn two }
{
    let Ok(()) = list.push(one) else {
        unreachable!()
    };
    let Ok(()) = list.push(two) else {
        unreachable!()
    };
    closed(turn, list)
}

// The clerk gives an amount. The place of the call, and the sum.
fn give<R: Threads + Wait + Sync>(
    rt: &R,
    alloc: Global,
    turn: &Turn<Adder>,
    clerk: &mut Clerk<Adder>,
    amount: u64,
) -> Result<(u64, u64), Memory>
    requires of { IsClerkOf most_of turn.now clerk.old }
    requires most { amount ≤ turn_frame most_of turn.now }
    ensures of { IsClerkOf most_of turn.now clerk.new }
    ensures number { number clerk.new ≡ number clerk.old }
{
    let call = Arc::new(alloc, amount)?;
    let kept = turn.call(rt, alloc, clerk, &call)?;
    let place = Adder::place(&kept);
    Ok((place, Adder::finish(rt, alloc, kept)?))
}

#[test]
fn a_note_tells_what_was_seen(rt: HostRuntime) -> Result<(), Fail> {
    let alloc = rt.alloc();
    let Pair {
        turn,
        list,
        mut one,
        mut two,
    } = two_clerks(alloc)?;
    let first = [
        give(&rt, alloc, &turn, &mut one, 5)?,
        give(&rt, alloc, &turn, &mut one, 5)?,
        give(&rt, alloc, &turn, &mut one, 5)?,
    ];
    let before = [one.front_length(), two.front_length()];
    let note = turn.note(&mut one);
    turn.hear(&mut two, note);
    let heard = two.front_length();
    let last = give(&rt, alloc, &turn, &mut two, 5)?;
    let older = turn.note(&mut one);
    turn.hear(&mut two, older);
    let numbers = [one.number(), two.number()];
    let after = two.front_length();
    let adder = closed_pair(turn, list, one, two);
    let closed = (adder.entries().len(), adder.sum());
    drop(adder);
    assert_eq!(rt; first, [(0, 5), (1, 10), (2, 15)]);
    assert_eq!(rt; numbers, [1, 2]);
    assert_eq!(rt; (before, heard), ([3, 0], 3));
    assert_eq!(rt; (last, after), ((3, 20), 4));
    assert_eq!(rt; closed, (4, 20));
    Ok(())
}

// The clerk gives three amounts. At the place of each it notes the sum and the amount.
fn give_three<R: Threads + Wait + Sync>(
    rt: &R,
    alloc: Global,
    turn: &Turn<Adder>,
    nth: usize,
    clerk: &mut Clerk<Adder>,
    noted: &[AtomicU64],
) -> Result<(), Memory>
    requires of { IsClerkOf most_of turn.now clerk.old }
    requires most { (turn_frame most_of turn.now ≡ 79) × (nth < 8) }
    ensures of { IsClerkOf most_of turn.now clerk.new }
    ensures number { number clerk.new ≡ number clerk.old }
{
    for i in 0..3u64 {
        let amount = nth as u64 * 10 + i;
        let (place, sum) = give(rt, alloc, turn, clerk, amount)?;
        if let Some(note) = noted.get(place as usize) {
            note.store(note_of(sum, amount), Ordering::SeqCst);
        }
    }
    Ok(())
}

fn note_of(sum: u64, amount: u64) -> u64 {
    sum.wrapping_mul(100).wrapping_add(amount)
}

// Eight clerks do so, each in a thread of its own.
fn eight_at_once<R: Threads + Wait + Sync>(
    rt: &R,
    alloc: Global,
    noted: &[AtomicU64],
) -> Result<Adder, Fail> {
    let (turn, clerks) = opened(alloc, 8)?;
    let mut clerks = clerks.into_vec();
    let shared = &turn;
    thread::for_each_mut(
        rt,
        clerks.as_mut_slice(),
        8,
        &|nth: usize, clerk: &mut Clerk<Adder>| -> ()
            requires sync { IsSync R.row }
            requires of { IsClerkOf most_of shared.now clerk.old }
            requires most { (turn_frame most_of shared.now ≡ 79) × (nth < 8) }
            ensures of { IsClerkOf most_of shared.entry.now clerk.exit.now }
            ensures number { number clerk.exit.now ≡ number clerk.entry.now }
        { drop(give_three(rt, alloc, shared, nth, clerk, noted)) },
    );
    let mut back = List::new(alloc);
    for clerk in clerks {
        push(&mut back, clerk)?;
    }
    Ok(closed(turn, back))
}

// The next amount of each clerk, if each entry is its clerk's next one and the clerk got the sum so far. No clerk has
// the number 0.
fn next_amounts(entries: &[(u32, Arc<u64>)], noted: &[AtomicU64]) -> Option<[u64; 9]> {
    let mut next = [80, 0, 10, 20, 30, 40, 50, 60, 70];
    let mut sum = 0u64;
    for ((clerk, amount), note) in entries.iter().zip(noted) {
        let next = next.get_mut(*clerk as usize)?;
        sum = sum.wrapping_add(**amount);
        if **amount != *next || note.load(Ordering::SeqCst) != note_of(sum, **amount) {
            return None;
        }
        *next = next.wrapping_add(1);
    }
    Some(next)
}

#[test]
fn eight_clerks_make_one_history(rt: HostRuntime) -> Result<(), Fail> {
    let alloc = rt.alloc();
    let mut noted = List::new(alloc);
    for _ in 0..24 {
        push(&mut noted, AtomicU64::new(0))?;
    }
    let adder = eight_at_once(&rt, alloc, noted.as_slice())?;
    assert_eq!(rt; adder.entries().len(), 24);
    let next = next_amounts(adder.entries(), noted.as_slice());
    assert_eq!(rt; next, Some([80, 3, 13, 23, 33, 43, 53, 63, 73]));
    Ok(())
}
