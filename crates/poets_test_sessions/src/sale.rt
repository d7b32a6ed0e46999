//! A sale whose reads are short or fail, whose writes fail, and whose text is cut.

use crate::books::{HEAD, SALE};
use crate::program::{Edges, SOUND, answered, answers, first_lines, joined};
use std::alloc::Global;
use std::process::Abort;
use std::sync::Wait;
use std::test::Fail;
use std::thread::Threads;

const COMMANDS: &str = "clerk;;
register deal = sale(ann, bob, 7);;
transmit deal ann bob 7 Oil @2006-05-03;;
show deal;;
transmit deal bob ann 500 USD @2006-06-02;;
";

const LINES: [&str; 4] = [
    "1 1: register deal = sale(ann, bob, 7) => registered 1\n",
    "2 1: transmit deal ann bob 7 Oil @2006-05-03 => recorded 1, may end no\n",
    "3 1: show deal => events 1, may end no, ended no, residual transmit(u, v, p, w | u = bob and v = ann and kind(p) = USD and w <= @2006-05-03 + 30). Success\n",
    "4 1: transmit deal bob ann 500 USD @2006-06-02 => recorded 2, may end yes\n",
];

fn session(alloc: Global) -> Result<String, Fail> {
    joined(alloc, &[HEAD, SALE, COMMANDS])
}

// The status, the number of entries, and how many of the lines are written.
type End = (u8, usize, usize);

// Whether the sale, or a prefix of it, is answered so.
fn sale_ends<R: Threads + Wait + Sync>(
    rt: &R,
    alloc: Global,
    text: &str,
    edges: &Edges,
    (status, entries, written): End,
) -> Result<bool, Fail> {
    let lines = first_lines(alloc, &LINES, written)?;
    let wanted = (status, entries, lines.as_str());
    answers(rt, alloc, (&["run"], text), edges, wanted)
}

// The sale, or a prefix of it, is answered so.
fn sale_answered<R: Abort + Threads + Wait + Sync>(
    rt: &R,
    alloc: Global,
    text: &str,
    edges: &Edges,
    end: End,
) -> Result<(), Fail> {
    let holds = sale_ends(rt, alloc, text, edges, end)?;
    assert!(rt; holds, "{text}, by {} bytes: {end:?}", edges.step);
    Ok(())
}

#[test]
fn a_sale_is_read_in_steps_of_any_size(rt: HostRuntime) -> Result<(), Fail> {
    let alloc = rt.alloc();
    let text = session(alloc)?;
    for step in [1, 7, 4_096] {
        let edges = Edges { step, ..SOUND };
        sale_answered(&rt, alloc, text.as_str(), &edges, (0, 4, 4))?;
    }
    Ok(())
}

// Each read of seven bytes fails in turn, the one that meets the end too, and then each write.
#[test]
fn a_sale_fails_at_each_read_and_each_write(rt: HostRuntime) -> Result<(), Fail> {
    let alloc = rt.alloc();
    let text = session(alloc)?;
    let step = 7;
    let reads = text.len().div_ceil(step) as u64;
    for read in 1..=reads.saturating_add(1) {
        let edges = Edges {
            step,
            reads: &[read],
            ..SOUND
        };
        sale_answered(&rt, alloc, text.as_str(), &edges, (4, 0, 0))?;
    }
    for (written, write) in [1, 2, 3, 4].into_iter().enumerate() {
        let edges = Edges {
            writes: &[write],
            ..SOUND
        };
        sale_answered(&rt, alloc, text.as_str(), &edges, (5, 4, written))?;
    }
    Ok(())
}

// The line of a prefix that is refused: a day that is cut begins no token, and else the last statement is no sentence.
fn refusal(alloc: Global, text: &str) -> Result<String, Fail> {
    if let Some((before, day)) = text.rsplit_once("@")
        && day.len() < 10
    {
        return Ok(format!(in alloc; "refused at byte {}: BadByte\n", before.len())?);
    }
    let statement = text.matches(";;").count().saturating_add(1);
    Ok(format!(in alloc; "refused in statement {statement}: NoSentence\n")?)
}

// A prefix of the sale that ends with `;;` is answered by the lines of its commands, before which four statements stand.
fn prefix_answered<R: Abort + Threads + Wait + Sync>(
    rt: &R,
    alloc: Global,
    text: &str,
) -> Result<(), Fail> {
    let kept = text.trim_end();
    if kept.is_empty() || kept.ends_with(";;") {
        let commands = text.matches(";;").count().saturating_sub(4);
        return sale_answered(rt, alloc, text, &SOUND, (0, commands, commands));
    }
    let line = refusal(alloc, text)?;
    answered(rt, alloc, (text, text), (1, 0, line.as_str()))
}

#[test]
fn a_sale_is_cut_after_each_byte(rt: HostRuntime) -> Result<(), Fail> {
    let alloc = rt.alloc();
    let sale = session(alloc)?;
    let mut text = String::new(alloc);
    prefix_answered(&rt, alloc, text.as_str())?;
    for next in sale.as_str().chars() {
        text.push(next)?;
        prefix_answered(&rt, alloc, text.as_str())?;
    }
    Ok(())
}
