//! Clerks whose calls are kept, all at once.

use crate::program::{Answer, EMPTY, Edges, ask, holding};
use std::alloc::Global;
use std::sync::Wait;
use std::test::Fail;
use std::thread::Threads;

const BOOK: &str = "agents ann, bob;; kinds Oil, USD;;
template any() = Success + transmit(a, b, r, t | true). any();;
report sum(): Int = fold x = 0 with (s, v, r, t) in x + amount(r);;
";

const SESSION: &str = "agents ann, bob;; kinds Oil, USD;;
template any() = Success + transmit(a, b, r, t | true). any();;
report sum(): Int = fold x = 0 with (s, v, r, t) in x + amount(r);;
clerk;; register a = any();; transmit b ann bob 1 Oil @2006-01-01;; tally sum();; end b;;
clerk;; register b = any();; transmit a ann bob 2 USD @2006-01-02;; tally sum();; show a;;
clerk;; watch sum();; transmit a bob ann 4 Oil @2006-01-01;; void a 1;; read 1;;";

// Whether so many calls, or one more, are recovered from this image of the disk, and the very lines that were written.
fn is_recovered<R: Threads + Wait + Sync>(
    rt: &R,
    alloc: Global,
    kept: &Answer,
    pick: u64,
    stored: usize,
) -> Result<bool, Fail> {
    let image = kept.left(alloc, pick)?;
    let again = ask(rt, alloc, &["recover"], BOOK, &holding(image.as_slice()))?;
    Ok(again.has_recovered(stored) && again.written().starts_with(kept.written()))
}

// Whether `keep`, where this call of the disk fails, ends with the status and stores so many calls, which are
// recovered from whatever is left of the disk.
fn are_kept<R: Threads + Wait + Sync>(
    rt: &R,
    alloc: Global,
    (disk, status, stored): (u64, u8, usize),
) -> Result<bool, Fail> {
    let edges = Edges { disk, ..EMPTY };
    let kept = ask(rt, alloc, &["keep"], SESSION, &edges)?;
    let mut holds = kept.has_stored(status, 12, stored);
    for pick in [0, 1, 257] {
        holds = is_recovered(rt, alloc, &kept, pick, stored)? && holds;
    }
    Ok(holds)
}

// The twelve calls come in any order. Three calls of the disk start the journal, and then four put each of them.
#[test]
fn the_order_of_clerks_is_recovered(rt: HostRuntime) -> Result<(), Fail> {
    for end in [(52, 0, 12), (35, 7, 7), (18, 7, 3), (6, 7, 0)] {
        assert!(rt; are_kept(&rt, rt.alloc(), end)?, "call {}", end.0);
    }
    Ok(())
}
