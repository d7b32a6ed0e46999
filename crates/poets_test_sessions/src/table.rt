//! Tables of rows: what the program reads in each, and what it answers.

use crate::gate::{ClerkCall, Hold};
use crate::program::{Answer, Edges, SOUND, ask};
use std::alloc::Global;
use std::process::Abort;
use std::sync::Wait;
use std::test::Fail;
use std::thread::Threads;

/// A line of a table, which is flat, since a reference inside a constant takes long to prove. A row goes from its `Row`
/// to the next.
#[derive(Clone, Copy)]
pub(crate) enum Line<'a> {
    /// What the row shows.
    Row(&'a str),
    /// The text that is read goes on with this.
    Text(&'a str),
    /// It goes on with these commands, which clerk 1 makes: each stands on a line, before its reply.
    Steps(&'a str),
    /// The first of these calls is held until the second is answered.
    Held(ClerkCall, ClerkCall),
    /// These lines are written, one of each command.
    Entries(&'a str),
    /// Or these lines, as many.
    Or(&'a str),
    /// This is written, and not of a command.
    Written(&'a str),
}

/// What the program is called with, what the text of each row begins with, and the status.
#[derive(Clone, Copy)]
pub(crate) struct Call<'a> {
    pub word: &'a str,
    pub head: &'a str,
    pub status: u8,
}

// A row, as far as it is read: what it shows, its text, the calls that are held, and what is written of it.
#[derive(Drop)]
struct Row<'a> {
    about: &'a str,
    text: String,
    held: Vec<Hold>,
    lines: String,
    other_lines: Option<&'a str>,
    entries: usize,
}

fn begun<'a>(alloc: Global, about: &'a str, head: &str) -> Result<Row<'a>, Fail> {
    Ok(Row {
        about,
        text: String::from_str(alloc, head)?,
        held: Vec::new(alloc),
        lines: String::new(alloc),
        other_lines: None,
        entries: 0,
    })
}

impl Row<'_> {
    // A command of clerk 1, as it is printed, and the reply to it.
    fn add_step(&mut self, alloc: Global, command: &str, reply: &str) -> Result<(), Fail> {
        if self.entries == 0 {
            self.text.push_str("clerk;;\n")?;
        }
        self.text.push_str(command)?;
        self.text.push_str(";;\n")?;
        self.entries = self.entries.saturating_add(1);
        let line = format!(in alloc; "{} 1: {command} => {reply}\n", self.entries)?;
        self.lines.push_str(line.as_str())?;
        Ok(())
    }

    fn add_steps(&mut self, alloc: Global, steps: &str) -> Result<(), Fail> {
        let mut rest = steps;
        for _ in 0..steps.len() {
            if rest.is_empty() {
                break;
            }
            let (step, after) = rest.split_once("\n").unwrap_or((rest, ""));
            let (command, reply) = step.split_once(" => ").unwrap_or((step, ""));
            self.add_step(alloc, command, reply)?;
            rest = after;
        }
        Ok(())
    }

    // The lines, and one command for each.
    fn add_entries(&mut self, lines: &str) -> Result<(), Fail> {
        self.lines.push_str(lines)?;
        for byte in lines.as_bytes() {
            if *byte == b'\n' {
                self.entries = self.entries.saturating_add(1);
            }
        }
        Ok(())
    }

    // Whether this is an answer to the row.
    fn has_answer(&self, status: u8, answer: &Answer) -> bool {
        let is_first = answer.is((status, self.entries, self.lines.as_str()));
        let is_other = match self.other_lines {
            Some(lines) => answer.is((status, self.entries, lines)),
            None => false,
        };
        is_first || is_other
    }
}

// Whether the program answers the row so.
fn is_answered<R: Threads + Wait + Sync>(
    rt: &R,
    alloc: Global,
    call: &Call,
    row: &Row,
) -> Result<bool, Fail> {
    let edges = Edges {
        held: row.held.as_slice(),
        ..SOUND
    };
    let answer = ask(rt, alloc, &[call.word], row.text.as_str(), &edges)?;
    Ok(row.has_answer(call.status, &answer))
}

// The program answers the row so.
fn one_row<R: Abort + Threads + Wait + Sync>(
    rt: &R,
    alloc: Global,
    call: &Call,
    row: &Row,
) -> Result<(), Fail> {
    let holds = is_answered(rt, alloc, call, row)?;
    assert!(rt; holds, "{}: {}: {}", row.about, call.word, row.text);
    Ok(())
}

/// The program answers as each row of the table says.
pub(crate) fn each_row<R: Abort + Threads + Wait + Sync>(
    rt: &R,
    alloc: Global,
    call: &Call,
    table: &[Line],
) -> Result<(), Fail> {
    let mut is_begun = false;
    let mut row = begun(alloc, "", call.head)?;
    for line in table {
        match *line {
            Line::Row(about) => {
                if is_begun {
                    one_row(rt, alloc, call, &row)?;
                }
                is_begun = true;
                row = begun(alloc, about, call.head)?;
            }
            Line::Text(text) => row.text.push_str(text)?,
            Line::Steps(steps) => row.add_steps(alloc, steps)?,
            Line::Held(call, other) => row.held.push((call, other))?,
            Line::Entries(lines) => row.add_entries(lines)?,
            Line::Or(lines) => row.other_lines = Some(lines),
            Line::Written(line) => row.lines.push_str(line)?,
        }
    }
    one_row(rt, alloc, call, &row)
}
