//! `poets_bench_exchange`: a document is read from standard input, and read back as a book, its reports and a history.
//! `poets_bench_exchange N`: the same with a document of N entries, each of which shows what is owed on a contract.
//!
//! Printed are the number of its entries, and whether the document of what was read has the same bytes.
#![tactic(auto)]

use poets_import::{ImportFault, import};
use poets_io::{StdSource, read_up_to};
use poets_json::export_text;
use poets_lex::Names;
use poets_value::Memory;
use std::alloc::Global;
use std::env;
use std::process::ExitCode;

// The most bytes of a document that is read.
const MOST_BYTES: usize = 1 << 30;

// What a document that is made begins with: a book, and a contract that is registered.
const BOOK: &str = concat!(
    r#"{"book":["agents ann, bob","kinds Oil, USD","template any() = Success + transmit(a, b, r, t | true)."#,
    r#" any()"],"format":"poets 1","history":[{"clerk":1,"command":"register c = any()","reply":{"id":1,"ki"#,
    r#"nd":"registered"}}"#,
);

// Each other entry.
const SHOWN: &str = concat!(
    r#",{"clerk":1,"command":"show c","reply":{"count":0,"ended":false,"kind":"shown","may_end":true,"#,
    r#""residual":"any()"}}"#,
);

fn main(rt: HostRuntime) -> ExitCode {
    let Some(count) = asked(&rt) else {
        let _ = eprintln!(rt; "usage: poets_bench_exchange [N] < DOCUMENT");
        return ExitCode::from(2);
    };
    let (entries, same) = match told(&rt, count) {
        Ok(told) => told,
        Err(fault) => {
            let _ = eprintln!(rt; "poets_bench_exchange: {fault}");
            return ExitCode::from(3);
        }
    };
    let told = if same { "the same" } else { "another" };
    match println!(rt; "{entries} entries, {told} document") {
        Ok(()) => ExitCode::SUCCESS,
        Err(_) => ExitCode::from(5),
    }
}

// The number on the command line, if there is one; nothing where there are other words.
fn asked(rt: &HostRuntime) -> Option<Option<u32>> {
    let mut words = env::args(rt).ok()?.skip(1);
    let Some(word) = words.next() else {
        return Some(None);
    };
    let count = word.parse().ok()?;
    if words.next().is_some() {
        return None;
    }
    Some(Some(count))
}

// What is told of the document that is made or read.
fn told(rt: &HostRuntime, count: Option<u32>) -> Result<(usize, bool), ImportFault> {
    let alloc = rt.alloc();
    match count {
        Some(count) => {
            let Ok(text) = made(alloc, count) else {
                return Err(ImportFault::Memory);
            };
            read_back(alloc, text.as_bytes())
        }
        None => {
            let mut source = StdSource::new(rt.reader());
            let Ok(text) = read_up_to(alloc, &mut source, MOST_BYTES) else {
                return Err(ImportFault::NoJson);
            };
            read_back(alloc, text.as_slice())
        }
    }
}

// A document of so many entries, and of one at least.
fn made(alloc: Global, count: u32) -> Result<String, Memory> {
    let mut text = String::new(alloc);
    text.push_str(BOOK)?;
    for _ in 1..count {
        text.push_str(SHOWN)?;
    }
    text.push_str("]}")?;
    Ok(text)
}

// The number of the document's entries, and whether the document of what was read has the same bytes.
fn read_back(alloc: Global, text: &[u8]) -> Result<(usize, bool), ImportFault> {
    if text.len() > MOST_BYTES {
        return Err(ImportFault::Memory);
    }
    let mut names = Names::new(alloc);
    let exported = import(alloc, text, &mut names)?;
    let Ok(again) = export_text(alloc, &names, &exported) else {
        return Err(ImportFault::Memory);
    };
    Ok((exported.history.len(), again.as_bytes() == text))
}
