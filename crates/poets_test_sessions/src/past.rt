//! A past of many events: a transmission and a reading do not go over it again.

use crate::books::{ANY, HEAD, SUM};
use crate::program::{answered, joined, repeated};
use std::alloc::Global;
use std::test::Fail;

const WATCH: &str = "watch sum()";

const WATCHES: u32 = 16;

const EVENT: &str = "transmit c ann bob 1 Oil @2006-01-01";

const EVENTS: u32 = 65_518;

/// The command, so many times.
pub(crate) fn commands(alloc: Global, command: &str, count: u32) -> Result<String, Fail> {
    let line = joined(alloc, &[command, ";;\n"])?;
    repeated(alloc, line.as_str(), count as usize)
}

// A registration, the watches, the events, and a reading of the last watch.
fn session(alloc: Global) -> Result<String, Fail> {
    let watches = commands(alloc, WATCH, WATCHES)?;
    let events = commands(alloc, EVENT, EVENTS)?;
    let pieces = [
        HEAD,
        ANY,
        SUM,
        "clerk;;\nregister c = any();;\n",
        watches.as_str(),
        events.as_str(),
        "read 16;;\n",
    ];
    joined(alloc, &pieces)
}

/// The lines of such commands, so many after the first ones. A reply counts the commands.
pub(crate) fn replies(
    alloc: Global,
    command: &str,
    (past, count): (u32, u32),
    (before, after): (&str, &str),
) -> Result<String, Fail> {
    let mut text = String::new(alloc);
    for place in 1..=count {
        let number = past as u64 + place as u64;
        let line = format!(in alloc; "{number} 1: {command} => {before}{place}{after}\n")?;
        text.push_str(line.as_str())?;
    }
    Ok(text)
}

#[test]
fn a_long_past_is_not_gone_over_again(rt: HostRuntime) -> Result<(), Fail> {
    let alloc = rt.alloc();
    let text = session(alloc)?;
    let watching = replies(alloc, WATCH, (1, WATCHES), ("watching ", ""))?;
    let recorded = replies(alloc, EVENT, (17, EVENTS), ("recorded ", ", may end yes"))?;
    let pieces = [
        "1 1: register c = any() => registered 1\n",
        watching.as_str(),
        recorded.as_str(),
        "65536 1: read 16 => value 65518\n",
    ];
    let lines = joined(alloc, &pieces)?;
    let row = ("a long past is not gone over again", text.as_str());
    answered(&rt, alloc, row, (0, 65_536, lines.as_str()))
}
