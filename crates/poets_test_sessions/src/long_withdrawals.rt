//! Withdrawals from a past of several pieces, which have 256 events at most.

use crate::books::SUM;
use crate::program::numbered;
use crate::table::Line::{Entries, Row, Steps, Text};
use crate::table::each_row;
use crate::tables::STEPS;
use poets_table::PIECE_LENGTH;
use std::alloc::Global;
use std::process::Abort;
use std::sync::Wait;
use std::test::Fail;
use std::thread::Threads;

// So many events, or fewer. After 600 of them `count(0)` is left.
const COUNT: &str =
    "template count(n: Int) = Success + transmit(a, b, r, t | n > 0). count(n - 1);;\n";

// The last amount, and none where an amount is not above the one before it.
const RISING: &str = "report rising(): Int = fold x = 0 with (s, v, r, t) in
  if amount(r) > x then amount(r) else 1 / 0 end;;\n";

const BEGUN: &str = "register c = count(600) => registered 1
watch sum() => watching 1
watch rising() => watching 2
";

const EVENTS: u32 = 600;

// The lines of events with the amounts from 1 on, after three commands.
fn recorded(alloc: Global) -> Result<String, Fail> {
    let mut text = String::new(alloc);
    for amount in 1..=EVENTS {
        let number = amount.saturating_add(3);
        let line = format!(in alloc;
            "{number} 1: transmit c ann bob {amount} Oil @2006-01-01 => recorded {amount}, may end yes\n"
        )?;
        text.push_str(line.as_str())?;
    }
    Ok(text)
}

// What follows on the 600 events, whose sum is 180,300: the event at the place is out, and the others stand in their
// order.
const WITHDRAWN: [&str; 8] = [
    "void c 1 => voided, events 599, may end yes
read 1 => value 180299
read 2 => value 600
show c => events 599, may end yes, ended no, residual count(1)
",
    "void c 255 => voided, events 599, may end yes
read 1 => value 180045
read 2 => value 600
show c => events 599, may end yes, ended no, residual count(1)
",
    "void c 256 => voided, events 599, may end yes
read 1 => value 180044
read 2 => value 600
show c => events 599, may end yes, ended no, residual count(1)
",
    "void c 257 => voided, events 599, may end yes
read 1 => value 180043
read 2 => value 600
show c => events 599, may end yes, ended no, residual count(1)
",
    "void c 300 => voided, events 599, may end yes
read 1 => value 180000
read 2 => value 600
tally rising() => value 600
portfolio sum() over c => portfolio c 180000, total 180000
",
    "void c 512 => voided, events 599, may end yes
void c 512 => voided, events 598, may end yes
read 1 => value 179275
read 2 => value 600
",
    "void c 601 => no event 601
void c 600 => voided, events 599, may end yes
void c 600 => no event 600
read 1 => value 179700
read 2 => value 599
",
    "transmit c ann bob 601 Oil @2006-01-01 => unmatched
void c 256 => voided, events 599, may end yes
void c 256 => voided, events 598, may end yes
void c 255 => voided, events 597, may end yes
read 1 => value 179532
transmit c ann bob 601 Oil @2006-01-01 => recorded 598, may end yes
read 1 => value 180133
read 2 => value 601
void c 598 => voided, events 597, may end yes
void c 598 => no event 598
read 1 => value 179532
read 2 => value 600
show c => events 597, may end yes, ended no, residual count(3)
portfolio rising() over c => portfolio c 600, total 600
",
];

// The commands follow on the events, and are answered as they say.
fn follow<'a, R: Abort + Threads + Wait + Sync>(
    rt: &R,
    alloc: Global,
    events: &'a str,
    lines: &'a str,
    steps: &'a str,
) -> Result<(), Fail> {
    let row = [
        Row("events of a long past are withdrawn"),
        Text(SUM),
        Text(COUNT),
        Text(RISING),
        Steps(BEGUN),
        Text(events),
        Entries(lines),
        Steps(steps),
    ];
    each_row(rt, alloc, &STEPS, &row)
}

#[test]
fn events_of_a_long_past_are_withdrawn(rt: HostRuntime) -> Result<(), Fail> {
    let alloc = rt.alloc();
    assert_eq!(rt; PIECE_LENGTH, 256);
    let events = numbered(
        alloc,
        (1, EVENTS),
        ("transmit c ann bob ", " Oil @2006-01-01;;\n"),
    )?;
    let lines = recorded(alloc)?;
    for steps in WITHDRAWN {
        follow(&rt, alloc, events.as_str(), lines.as_str(), steps)?;
    }
    Ok(())
}
