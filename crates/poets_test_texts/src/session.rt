//! Texts read, and statements checked, with ample memory.
ghost use Rattle.std.specs.Prelude.{◌≤◌, length};
ghost use Rattle.poets_value.specs.Limits.{longest_text};

use crate::names::names_of;
use poets_command::Statement;
use poets_session::{Form, SessionFault, fault_text, read, session_of};
use poets_value::{LONGEST_TEXT, List, Memory, Name, push};
use std::alloc::Global;
use std::process::Abort;
use std::test::Fail;

const TWO_CLERKS: &[u8] = b"agents a;; clerk;; register x = Success;; show x;; clerk;;";

// The number of scripts of a session of clerks.
fn scripts_in(alloc: Global, text: &[u8]) -> Result<usize, SessionFault>
    requires { length text.now ≤ longest_text }
{
    Ok(read(alloc, text, Form::Clerks)?.scripts.len())
}

#[test]
fn each_clerk_has_a_script(rt: HostRuntime) -> Result<(), Memory> {
    match scripts_in(rt.alloc(), TWO_CLERKS) {
        Ok(scripts) => {
            assert_eq!(rt; scripts, 2);
            Ok(())
        }
        Err(_) => Err(Memory),
    }
}

/// The line of the text's first fault, and no bytes for a session of the form.
pub(crate) fn line_of(alloc: Global, text: &[u8], form: Form) -> Result<String, Memory> {
    if text.len() > LONGEST_TEXT {
        return Ok(String::new(alloc));
    }
    match read(alloc, text, form) {
        Ok(_) => Ok(String::new(alloc)),
        Err(fault) => fault_text(alloc, &fault),
    }
}

// Each of the texts is refused by its line.
fn refused(
    rt: &impl Abort,
    alloc: Global,
    form: Form,
    cases: &[(&[u8], &str)],
) -> Result<(), Fail> {
    for (text, line) in cases {
        let found = line_of(alloc, text, form)?;
        assert_eq!(rt; found.as_str(), *line);
    }
    Ok(())
}

const BOOKS: [(&[u8], &str); 13] = [
    (b"agents ann;; !", "refused at byte 13: BadByte\n"),
    (
        b"agents ann;; 9223372036854775808",
        "refused at byte 13: LongNumber\n",
    ),
    (&[b'a'; 65], "refused at byte 0: LongName\n"),
    (&[b'('; 201], "refused in statement 1: TooDeep\n"),
    (
        b"agents ann;; kinds",
        "refused in statement 2: NoSentence\n",
    ),
    (
        b"agents ann;; agents;;",
        "refused in statement 2: NoSentence\n",
    ),
    (
        b"agents ann;; clerk;;",
        "refused in statement 2: Misplaced\n",
    ),
    (
        b"kinds Oil;; agents ann, ann;;",
        "refused in statement 2: Twice ann\n",
    ),
    (
        b"template f() = g();;",
        "refused in statement 1: Unknown g\n",
    ),
    (
        b"template f(n: Int) = Success;; template g() = f(1, 2);;",
        "refused in statement 2: WrongCount f: wanted 1, found 2\n",
    ),
    (
        b"template f(n: Int) = Success;; template g() = f(@2006-05-03);;",
        "refused in statement 2: WrongType: wanted Int, found Day\n",
    ),
    (
        b"template f() = g();; template g() = g();;",
        "refused in statement 2: Unguarded g\n",
    ),
    (
        b"template f() = g();; template g() = f();;",
        "refused in statement 1: Unguarded f\n",
    ),
];

#[test]
fn a_text_that_is_no_book_is_refused_by_its_line(rt: HostRuntime) -> Result<(), Fail> {
    refused(&rt, rt.alloc(), Form::Book, &BOOKS)
}

const JOURNALS: [(&[u8], &str); 4] = [
    (b"", "refused in statement 1: Misplaced\n"),
    (b"agents ann;;", "refused in statement 2: Misplaced\n"),
    (
        b"journal;; 0: show x;;",
        "refused in statement 2: TooMany\n",
    ),
    (
        b"journal;; 64: show x;; 65: show x;;",
        "refused in statement 3: TooMany\n",
    ),
];

#[test]
fn a_text_that_is_no_journal_is_refused_by_its_line(rt: HostRuntime) -> Result<(), Fail> {
    refused(&rt, rt.alloc(), Form::Journal, &JOURNALS)
}

// A statement that declares the first name of the table as an agent, so many times.
fn agents(alloc: Global, times: usize) -> Result<List<Statement>, Memory> {
    let mut names = List::new(alloc);
    for _ in 0..times {
        push(&mut names, Name { id: 0 })?;
    }
    let mut statements = List::new(alloc);
    push(&mut statements, Statement::Agents(names))?;
    Ok(statements)
}

// The line of the first fault of the statements as a book, and no bytes where they are one. The table has `ann`.
fn line_of_book(alloc: Global, statements: List<Statement>) -> Result<String, Memory> {
    let names = names_of(alloc, b"ann")?;
    match session_of(alloc, names, statements, Form::Book) {
        Ok(_) => Ok(String::new(alloc)),
        Err(fault) => fault_text(alloc, &fault),
    }
}

#[test]
fn statements_are_a_book_or_are_refused_by_a_line(rt: HostRuntime) -> Result<(), Fail> {
    let once = line_of_book(rt.alloc(), agents(rt.alloc(), 1)?)?;
    assert_eq!(rt; once.as_str(), "");
    let twice = line_of_book(rt.alloc(), agents(rt.alloc(), 2)?)?;
    assert_eq!(rt; twice.as_str(), "refused in statement 1: Twice ann\n");
    Ok(())
}
