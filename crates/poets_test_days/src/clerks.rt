//! Clerks who go on with a journal, all at once.

use crate::program::{Answer, ask, holding};
use crate::week::{FIRST, HEAD, first_file};
use std::alloc::Global;
use std::sync::Wait;
use std::test::Fail;
use std::thread::Threads;

const SESSION: &str = "agents ann, bob;; kinds Oil, USD;;
clerk;; register b = Success;; show a;; end a;;
clerk;; show a;; end a;; register c = Success;;
clerk;; end b;; end c;;";

// Whether the lines of the first day are recovered, and then the very lines that were written on the second.
fn is_recovered<R: Threads + Wait + Sync>(
    rt: &R,
    alloc: Global,
    day: &Answer,
) -> Result<bool, Fail> {
    let image = day.left(alloc, 0)?;
    let again = ask(rt, alloc, &["recover"], HEAD, &holding(image.as_slice()))?;
    let rest = again.written().strip_prefix(FIRST.as_bytes());
    Ok(again.has_ended(0, 10, 10) && rest == Some(day.written()))
}

// Whether the eight calls are kept behind those of the first day, in whichever order they come.
fn goes_on<R: Threads + Wait + Sync>(rt: &R, alloc: Global) -> Result<bool, Fail> {
    let file = first_file(alloc)?;
    let day = ask(rt, alloc, &["resume"], SESSION, &holding(file.as_slice()))?;
    Ok(day.has_ended(0, 8, 8) && is_recovered(rt, alloc, &day)?)
}

#[test]
fn the_order_of_clerks_goes_on(rt: HostRuntime) -> Result<(), Fail> {
    assert!(rt; goes_on(&rt, rt.alloc())?);
    Ok(())
}
