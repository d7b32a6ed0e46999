//! Texts of a journal, read as calls of a book.

use poets_recover::{RecoverFault, stored_calls};
use poets_session::{Form, Session, read};
use poets_value::{LONGEST_TEXT, List, Memory, push};
use std::alloc::Global;
use std::process::Abort;
use std::test::Fail;

const BOOK: &[u8] = b"agents ann, bob;; kinds USD;; template f(n: Int) = Success;;";

// The bytes as a list.
fn list_of(alloc: Global, bytes: &[u8]) -> Result<List<u8>, Memory> {
    let mut list = List::new(alloc);
    for byte in bytes {
        push(&mut list, *byte)?;
    }
    Ok(list)
}

// Each line as a text.
fn texts_of(alloc: Global, lines: &str) -> Result<List<List<u8>>, Memory> {
    let mut texts = List::new(alloc);
    for line in lines.lines() {
        push(&mut texts, list_of(alloc, line.as_bytes())?)?;
    }
    Ok(texts)
}

// How many calls the texts are, or which of them is none.
fn count_in(
    alloc: Global,
    session: &mut Session,
    texts: &[List<u8>],
) -> Result<usize, RecoverFault> {
    if session.names.len() as usize > LONGEST_TEXT {
        return Err(RecoverFault::Memory);
    }
    let calls = stored_calls(alloc, &mut session.names, &session.rules, texts)?;
    Ok(calls.len())
}

// How many calls of the book the lines are, or which of them is none.
fn count_of(alloc: Global, lines: &str) -> Result<usize, RecoverFault> {
    let Ok(mut session) = read(alloc, BOOK, Form::Book) else {
        return Err(RecoverFault::Memory);
    };
    let texts = texts_of(alloc, lines)?;
    count_in(alloc, &mut session, texts.as_slice())
}

// Each line is a call.
const CALLS: [(&str, usize); 8] = [
    ("", 0),
    ("1: register a = Success", 1),
    // The names of contracts need not be declared, and tables grow.
    ("64: show new", 1),
    ("  7 :register a=f( 2 ) # and so on", 1),
    ("1: register a = f(1)\n2: register b = f(2)\n1: end a", 3),
    ("1: transmit a ann bob 1 USD @2006-05-03", 1),
    ("1: read 1", 1),
    ("1: void a 1", 1),
];

#[test]
fn texts_of_calls_are_read(rt: HostRuntime) -> Result<(), Fail> {
    for (lines, count) in &CALLS {
        let found = count_of(rt.alloc(), lines);
        assert!(rt; found == Ok(*count), "{lines}");
    }
    Ok(())
}

// The line with the number is the first that is no call.
const NO_CALLS: [(&str, u64); 18] = [
    ("0: show a", 1),
    ("65: show a", 1),
    ("18446744073709551617: show a", 1),
    ("show a", 1),
    ("1 show a", 1),
    ("\n", 1),
    ("# 1: show a", 1),
    ("1: show a;;", 1),
    ("1: show a;; 1: show b", 1),
    ("1: clerk", 1),
    ("agents cat", 1),
    ("1: transmit a ann bob 1 USD @2006-02-29", 1),
    ("1: transmit a ann cat 1 USD @2006-05-03", 1),
    ("1: register a = g(1)", 1),
    ("1: register a = f(true)", 1),
    ("1: show a\n2: show ?", 2),
    // A line that is not typed is told before a later one that cannot be read.
    ("1: show a\n1: register a = g(1)\n0: show a", 2),
    ("1: show a\n0: show a\n1: register a = g(1)", 2),
];

#[test]
fn a_text_that_is_no_call_is_told_by_its_number(rt: HostRuntime) -> Result<(), Fail> {
    for (lines, number) in &NO_CALLS {
        let found = count_of(rt.alloc(), lines);
        assert!(rt;
            found == Err(RecoverFault::Text { number: *number }),
            "{lines}"
        );
    }
    Ok(())
}
