//! Faults of types, in books and in commands, and texts that have none.

use crate::session::line_of;
use poets_session::Form;
use poets_value::Memory;
use std::alloc::Global;
use std::process::Abort;
use std::test::Fail;

// The text is a session of clerks, or is refused by this line.
fn refused(rt: &impl Abort, alloc: Global, text: &str, line: &str) -> Result<(), Memory> {
    let found = line_of(alloc, text.as_bytes(), Form::Clerks)?;
    assert!(rt; found.as_str() == line, "{text}");
    Ok(())
}

// Each book is a session, which makes no call, or is refused by its line.
const BOOKS: [(&str, &str); 15] = [
    (
        "agents ann, bob;; kinds USD;; template f(n: Int) = transmit(a, b, r, t | true). f(n);;
report q(n: Int): Int = fold sum = 0 with (a, b, r, t) in sum;;",
        "",
    ),
    // Names stand once.
    (
        "agents ann, ann;; kinds USD;;",
        "refused in statement 1: Twice ann\n",
    ),
    (
        "agents ann, bob;; kinds ann;;",
        "refused in statement 2: Twice ann\n",
    ),
    (
        "agents ann, bob;; kinds USD;; template USD(n: Int) = Success;;",
        "refused in statement 3: Twice USD\n",
    ),
    (
        "template f(n: Int) = Success;; report f(n: Int): Int = fold sum = 0 with (a, b, r, t) in sum;;",
        "refused in statement 2: Twice f\n",
    ),
    (
        "template f(q: Int) = Success;; report q(n: Int): Int = fold sum = 0 with (a, b, r, t) in sum;;",
        "refused in statement 1: Twice q\n",
    ),
    (
        "report q(n: Int): Int = fold t = 0 with (a, b, r, t) in t;;",
        "refused in statement 1: Twice t\n",
    ),
    // A name that stands twice is told before a wrong type.
    (
        "agents ann;; template f() = transmit(a, b, r, t | ann). Success;;
report f(): Int = fold sum = 0 with (a, b, r, t) in sum;;",
        "refused in statement 3: Twice f\n",
    ),
    // Bodies of templates and steps of reports are typed.
    (
        "template f(n: Int) = transmit(a, b, r, t | true). f(1, 1);;",
        "refused in statement 1: WrongCount f: wanted 1, found 2\n",
    ),
    (
        "agents ann;; template f(n: Int) = transmit(a, b, r, t | true). f(ann);;",
        "refused in statement 2: WrongType: wanted Int, found Agent\n",
    ),
    (
        "template f(n: Int) = n();;",
        "refused in statement 1: Unknown n\n",
    ),
    (
        "kinds USD;; report q(n: Int): Int = fold sum = 0 with (a, b, r, t) in USD;;",
        "refused in statement 2: WrongType: wanted Int, found Kind\n",
    ),
    (
        "report q(n: Int): Int = fold sum = 0 with (a, b, r, t) in none;;",
        "refused in statement 1: Unknown none\n",
    ),
    // The first fault is told.
    (
        "template f() = none();; template g() = other();;",
        "refused in statement 1: Unknown none\n",
    ),
    // A book that is not guarded is told last.
    (
        "template f() = f();; template g() = other();;",
        "refused in statement 2: Unknown other\n",
    ),
];

#[test]
fn names_of_a_book_stand_once_and_its_parts_are_typed(rt: HostRuntime) -> Result<(), Fail> {
    for (text, line) in &BOOKS {
        refused(&rt, rt.alloc(), text, line)?;
    }
    Ok(())
}

// A book without a fault.
const BOOK: &str =
    "agents ann, bob;; kinds USD;; template f(n: Int) = transmit(a, b, r, t | true). f(n);;
report q(n: Int): Int = fold sum = 0 with (a, b, r, t) in sum;; clerk;; ";

// Each command, behind the book, makes a session, or is refused for this cause.
const COMMANDS: [(&str, &str); 21] = [
    ("register ann = f(1)", ""),
    ("register c = f(n)", "Unknown n"),
    ("register c = none(ann)", "Unknown none"),
    ("register c = f()", "WrongCount f: wanted 1, found 0"),
    ("register c = f(1, 1)", "WrongCount f: wanted 1, found 2"),
    ("register c = f(USD)", "WrongType: wanted Int, found Kind"),
    (
        "register c = transmit(a, b, r, t | none). Success",
        "Unknown none",
    ),
    (
        "register c = transmit(a, b, r, t | t). Success",
        "WrongType: wanted Bool, found Day",
    ),
    (
        "register c = transmit(ann, b, r, t | true). Success",
        "Twice ann",
    ),
    (
        "register c = transmit(f, b, r, t | true). Success",
        "Twice f",
    ),
    (
        "register c = transmit(q, b, r, t | true). Success",
        "Twice q",
    ),
    (
        "register c = transmit(t, b, r, t | true). Success",
        "Twice t",
    ),
    ("transmit c ann ann 1 USD @2006-05-03", ""),
    ("transmit c none ann 1 USD @2006-05-03", "Unknown none"),
    (
        "transmit c ann USD 1 USD @2006-05-03",
        "WrongType: wanted Agent, found Kind",
    ),
    (
        "transmit c ann ann 1 ann @2006-05-03",
        "WrongType: wanted Kind, found Agent",
    ),
    ("void none 0", ""),
    ("tally q(1)", ""),
    ("tally f(1)", "Unknown f"),
    ("portfolio q() over c", "WrongCount q: wanted 1, found 0"),
    ("watch q(ann)", "WrongType: wanted Int, found Agent"),
];

// The line of a session whose sixth statement is refused for this cause, and no bytes where it is not refused.
fn line(alloc: Global, cause: &str) -> Result<String, Memory> {
    if cause.is_empty() {
        return Ok(String::new(alloc));
    }
    Ok(format!(in alloc; "refused in statement 6: {cause}\n")?)
}

#[test]
fn commands_are_typed(rt: HostRuntime) -> Result<(), Fail> {
    for (command, cause) in &COMMANDS {
        let text = format!(in rt.alloc(); "{BOOK}{command};;")?;
        let line = line(rt.alloc(), cause)?;
        refused(&rt, rt.alloc(), text.as_str(), line.as_str())?;
    }
    Ok(())
}
