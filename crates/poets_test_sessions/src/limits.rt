//! Texts at the limits, and one step past them.

use crate::books::HEAD;
use crate::program::{answered, joined, numbered, repeated};
use std::alloc::Global;
use std::process::Abort;
use std::sync::Wait;
use std::test::Fail;
use std::thread::Threads;

// What a text begins with, what follows so many times, and the answer: the status, and what is written.
type Copies<'a> = (&'a str, &'a str, usize, u8, &'a str);

const TEMPLATE: &str = "template f() = Success;;";

const REPORT: &str = "report q(): Int = fold x = 0 with (s, v, r, t) in x;;";

// At most 64 clerks, 256 templates, 256 reports and 65,536 commands.
const DECLARATIONS: [Copies; 7] = [
    ("", "clerk;;", 64, 0, ""),
    ("", "clerk;;", 65, 1, "refused in statement 65: TooMany\n"),
    ("", TEMPLATE, 256, 1, "refused in statement 2: Twice f\n"),
    ("", TEMPLATE, 257, 1, "refused in statement 257: TooMany\n"),
    ("", REPORT, 256, 1, "refused in statement 2: Twice q\n"),
    ("", REPORT, 257, 1, "refused in statement 257: TooMany\n"),
    (
        "clerk;;",
        "end c;;",
        65_537,
        1,
        "refused in statement 65538: TooMany\n",
    ),
];

fn copies_answered<R: Abort + Threads + Wait + Sync>(
    rt: &R,
    alloc: Global,
    rows: &[Copies],
) -> Result<(), Fail> {
    for (head, piece, count, status, line) in rows {
        let copies = repeated(alloc, piece, *count)?;
        let text = joined(alloc, &[head, copies.as_str()])?;
        let about = format!(in alloc; "{head}, and {count} times '{piece}'")?;
        answered(
            rt,
            alloc,
            (about.as_str(), text.as_str()),
            (*status, 0, line),
        )?;
    }
    Ok(())
}

#[test]
fn there_are_so_many_declarations(rt: HostRuntime) -> Result<(), Fail> {
    copies_answered(&rt, rt.alloc(), &DECLARATIONS)
}

#[test]
fn there_are_at_most_65536_commands(rt: HostRuntime) -> Result<(), Fail> {
    let alloc = rt.alloc();
    let commands = repeated(alloc, "end c;;", 65_536)?;
    let text = joined(alloc, &["clerk;;", commands.as_str()])?;
    // There is no such contract.
    let lines = numbered(alloc, (1, 65_536), ("", " 1: end c => no contract c\n"))?;
    let row = ("65536 commands", text.as_str());
    answered(&rt, alloc, row, (0, 65_536, lines.as_str()))
}

// A registration of `Success` in so many brackets has this answer.
fn brackets_answered<R: Abort + Threads + Wait + Sync>(
    rt: &R,
    alloc: Global,
    count: usize,
    answer: (u8, usize, &str),
) -> Result<(), Fail> {
    let open = repeated(alloc, "(", count)?;
    let closed = repeated(alloc, ")", count)?;
    let command = "clerk;; register x = ";
    let pieces = [
        HEAD,
        command,
        open.as_str(),
        "Success",
        closed.as_str(),
        ";;",
    ];
    let text = joined(alloc, &pieces)?;
    answered(rt, alloc, ("brackets", text.as_str()), answer)
}

// The session of this one command.
fn session(alloc: Global, command: &str) -> Result<String, Fail> {
    joined(alloc, &[HEAD, "clerk;;", command, ";;"])
}

// The command has this reply.
fn replied<R: Abort + Threads + Wait + Sync>(
    rt: &R,
    alloc: Global,
    command: &str,
    reply: &str,
) -> Result<(), Fail> {
    let text = session(alloc, command)?;
    let line = joined(alloc, &["1 1: ", command, " => ", reply, "\n"])?;
    answered(rt, alloc, (reply, text.as_str()), (0, 1, line.as_str()))
}

// A contract of `Success` and so many `+`. The `=` is an operator too.
fn choices(alloc: Global, count: usize) -> Result<String, Fail> {
    let others = repeated(alloc, " + Success", count)?;
    joined(alloc, &["register x = Success", others.as_str()])
}

// A registration of 143 transmissions to choose from, the first of which has this predicate.
fn alternatives(alloc: Global, first: &str) -> Result<String, Fail> {
    let before = " + transmit(a, b, r, t | amount(r) = ";
    let others = numbered(alloc, (2, 143), (before, "). Success"))?;
    let pieces = [
        "register c = transmit(a, b, r, t | ",
        first,
        "). Success",
        others.as_str(),
    ];
    joined(alloc, &pieces)
}

// At most 200 brackets are open, a statement has at most 1,000 operators, and a contract is of a size of at most 1,000.
#[test]
fn a_command_is_so_deep_and_so_large(rt: HostRuntime) -> Result<(), Fail> {
    let alloc = rt.alloc();
    let line = "1 1: register x = Success => registered 1\n";
    brackets_answered(&rt, alloc, 200, (0, 1, line))?;
    let too_deep = (1, 0, "refused in statement 4: TooDeep\n");
    brackets_answered(&rt, alloc, 201, too_deep)?;
    replied(&rt, alloc, choices(alloc, 999)?.as_str(), "registered 1")?;
    let text = session(alloc, choices(alloc, 1_000)?.as_str())?;
    answered(&rt, alloc, ("1000 choices", text.as_str()), too_deep)?;
    let small = alternatives(alloc, "amount(r) = 1")?;
    replied(&rt, alloc, small.as_str(), "registered 1")?;
    let large = alternatives(alloc, "not amount(r) = 1")?;
    replied(&rt, alloc, large.as_str(), "too large")
}

// A session has at most 16,777,216 bytes, 16 blanks to each piece.
const BLANKS: [Copies; 2] = [
    ("", "                ", 1_048_576, 0, ""),
    (
        " ",
        "                ",
        1_048_576,
        6,
        "refused: longer than 16777216 bytes\n",
    ),
];

#[test]
fn a_session_has_at_most_16777216_bytes(rt: HostRuntime) -> Result<(), Fail> {
    copies_answered(&rt, rt.alloc(), &BLANKS)
}
