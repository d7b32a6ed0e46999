//! The second day, whose disk fails at one of its calls.

use crate::program::{Answer, Edges, ask, holding};
use crate::week::{FIRST, HEAD, TUESDAY, first_file, second_lines};
use std::alloc::Global;
use std::sync::Wait;
use std::test::Fail;
use std::thread::Threads;

// The file holds so many calls of the second day behind those of the first, or one more.
fn is_left<R: Threads + Wait + Sync>(
    rt: &R,
    alloc: Global,
    image: &[u8],
    stored: usize,
) -> Result<bool, Fail> {
    let again = ask(rt, alloc, &["recover"], HEAD, &holding(image))?;
    let rest = again.written().strip_prefix(FIRST.as_bytes());
    let lines = second_lines(alloc, stored)?;
    let more = second_lines(alloc, stored.saturating_add(1))?;
    Ok(rest == Some(lines.as_bytes()) || rest == Some(more.as_bytes()))
}

// Whether each image of the disk holds so many calls of the second day, or one more.
fn has_calls<R: Threads + Wait + Sync>(
    rt: &R,
    alloc: Global,
    day: &Answer,
    stored: usize,
) -> Result<bool, Fail> {
    for pick in [0, 1, 257] {
        let image = day.left(alloc, pick)?;
        if !is_left(rt, alloc, image.as_slice(), stored)? {
            return Ok(false);
        }
    }
    Ok(true)
}

// The call of the disk with this number fails. One of its calls starts the journal, and then twelve keep the three
// calls of the second day. The lines of the acknowledged calls are written, and whatever is left of the disk has those
// of the first day, and then these, and at most one more.
fn is_stopped<R: Threads + Wait + Sync>(rt: &R, alloc: Global, call: u64) -> Result<bool, Fail> {
    let file = first_file(alloc)?;
    let edges = Edges {
        disk: call,
        ..holding(file.as_slice())
    };
    let stored = call.saturating_sub(2) / 4;
    let status = if stored < 3 { 7 } else { 0 };
    let entries = if call > 1 { 3 } else { 0 };
    let lines = second_lines(alloc, stored as usize)?;
    let day = ask(rt, alloc, &["resume"], TUESDAY, &edges)?;
    let is_told = day.is((status, entries, stored, lines.as_str()));
    Ok(has_calls(rt, alloc, &day, stored as usize)? && is_told)
}

#[test]
fn resume_is_stopped_at_each_call(rt: HostRuntime) -> Result<(), Fail> {
    for call in 1..=14 {
        assert!(rt; is_stopped(&rt, rt.alloc(), call)?, "call {call}");
    }
    Ok(())
}

// Whether all calls are stored where the sink fails at the second line.
fn is_stored<R: Threads + Wait + Sync>(rt: &R, alloc: Global) -> Result<bool, Fail> {
    let file = first_file(alloc)?;
    let edges = Edges {
        write: 2,
        ..holding(file.as_slice())
    };
    let lines = second_lines(alloc, 1)?;
    let day = ask(rt, alloc, &["resume"], TUESDAY, &edges)?;
    Ok(day.is((5, 3, 3, lines.as_str())) && has_calls(rt, alloc, &day, 3)?)
}

// Its calls are stored all the same, and the next day goes on behind them.
#[test]
fn a_day_goes_on_behind_lines_that_were_not_written(rt: HostRuntime) -> Result<(), Fail> {
    assert!(rt; is_stored(&rt, rt.alloc())?);
    Ok(())
}
