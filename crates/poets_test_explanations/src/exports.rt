//! Journals that are exported.

use crate::books::{ANY, HEAD};
use crate::program::{Edges, SOUND, answers, joined};
use std::alloc::Global;
use std::process::Abort;
use std::sync::Wait;
use std::test::Fail;
use std::thread::Threads;

const FIRST: &str = "journal;; 1: register a = Success;; 1: end a;;";

// The document of `FIRST`, and a line feed.
const FIRST_LINE: &str =
    "{\"book\":[\"agents ann, bob\",\"kinds Oil, USD\"],\"format\":\"poets 1\",\"history\":[{\"clerk\":1,\"command\":\"register a = Success\",\"reply\":{\"id\":1,\"kind\":\"registered\"}},{\"clerk\":1,\"command\":\"end a\",\"reply\":{\"kind\":\"ended now\"}}]}\n";

#[test]
fn a_journal_is_exported(rt: HostRuntime) -> Result<(), Fail> {
    let alloc = rt.alloc();
    let text = joined(alloc, &[HEAD, FIRST])?;
    let holds = answers(
        &rt,
        alloc,
        &["export"],
        text.as_str(),
        &SOUND,
        (0, 2, FIRST_LINE),
    )?;
    assert!(rt; holds);
    Ok(())
}

const REPORTS: &str = "report sum(): Int = fold x = 0 with (s, v, r, t) in x + amount(r);;
report moved(): Int = fold x = 0 with (s, v, r, t) in x + amount(r) by kind(r);;
report last(): Int = fold x = 0 with (s, v, r, t) in x / 0;;
";

// Calls with all kinds of replies but `too large`.
const CALLS: &str = "journal;;
1: register c = any();;
2: register c = Success;;
1: register d = Failure;;
1: transmit c ann bob 5 Oil @2006-01-02;;
1: transmit c ann bob 5 Oil @2006-01-01;;
64: tally sum();;
1: tally moved();;
1: tally last();;
1: portfolio sum() over c;;
1: portfolio last() over c;;
1: portfolio moved() over c;;
1: watch sum();;
1: read 2;;
1: void c 2;;
1: void c 1;;
1: register e = Success;;
1: show e;;
1: transmit e ann bob 1 Oil @2006-01-01;;
1: end e;;
1: end e;;
1: transmit e ann bob 1 Oil @2006-01-01;;
1: end f;;
1: register g = transmit(a, b, r, t | true). Success;;
1: end g;;
";

// What the document begins with, up to its entries.
const BOOK: &str =
    "{\"book\":[\"agents ann, bob\",\"kinds Oil, USD\",\"template any() = Success + transmit(a, b, r, t | true). any()\",\"report sum(): Int = fold x = 0 with (s, v, r, t) in x + amount(r)\",\"report moved(): Int = fold x = 0 with (s, v, r, t) in x + amount(r) by kind(r)\",\"report last(): Int = fold x = 0 with (s, v, r, t) in x / 0\"],\"format\":\"poets 1\",\"history\":[";

// The entries of the calls.
const ENTRIES: [&str; 24] = [
    "{\"clerk\":1,\"command\":\"register c = any()\",\"reply\":{\"id\":1,\"kind\":\"registered\"}}",
    "{\"clerk\":2,\"command\":\"register c = Success\",\"reply\":{\"id\":1,\"kind\":\"name taken\"}}",
    "{\"clerk\":1,\"command\":\"register d = Failure\",\"reply\":{\"kind\":\"hopeless\"}}",
    "{\"clerk\":1,\"command\":\"transmit c ann bob 5 Oil @2006-01-02\",\"reply\":{\"count\":1,\"kind\":\"recorded\",\"may_end\":true}}",
    "{\"clerk\":1,\"command\":\"transmit c ann bob 5 Oil @2006-01-01\",\"reply\":{\"day\":\"2006-01-02\",\"kind\":\"late\"}}",
    "{\"clerk\":64,\"command\":\"tally sum()\",\"reply\":{\"answer\":{\"value\":\"5\"},\"kind\":\"answered\"}}",
    "{\"clerk\":1,\"command\":\"tally moved()\",\"reply\":{\"answer\":{\"rows\":[[\"Oil\",\"5\"]]},\"kind\":\"answered\"}}",
    "{\"clerk\":1,\"command\":\"tally last()\",\"reply\":{\"answer\":{\"value\":null},\"kind\":\"answered\"}}",
    "{\"clerk\":1,\"command\":\"portfolio sum() over c\",\"reply\":{\"kind\":\"portfolio\",\"rows\":[[\"c\",{\"value\":\"5\"}]],\"total\":\"5\"}}",
    "{\"clerk\":1,\"command\":\"portfolio last() over c\",\"reply\":{\"kind\":\"portfolio\",\"rows\":[[\"c\",{\"value\":null}]],\"total\":null}}",
    "{\"clerk\":1,\"command\":\"portfolio moved() over c\",\"reply\":{\"kind\":\"portfolio\",\"rows\":[[\"c\",{\"rows\":[[\"Oil\",\"5\"]]}]]}}",
    "{\"clerk\":1,\"command\":\"watch sum()\",\"reply\":{\"kind\":\"watching\",\"number\":1}}",
    "{\"clerk\":1,\"command\":\"read 2\",\"reply\":{\"kind\":\"no watch\",\"number\":2}}",
    "{\"clerk\":1,\"command\":\"void c 2\",\"reply\":{\"kind\":\"no event\",\"number\":2}}",
    "{\"clerk\":1,\"command\":\"void c 1\",\"reply\":{\"count\":0,\"kind\":\"voided\",\"may_end\":true}}",
    "{\"clerk\":1,\"command\":\"register e = Success\",\"reply\":{\"id\":2,\"kind\":\"registered\"}}",
    "{\"clerk\":1,\"command\":\"show e\",\"reply\":{\"count\":0,\"ended\":false,\"kind\":\"shown\",\"may_end\":true,\"residual\":\"Success\"}}",
    "{\"clerk\":1,\"command\":\"transmit e ann bob 1 Oil @2006-01-01\",\"reply\":{\"kind\":\"unmatched\"}}",
    "{\"clerk\":1,\"command\":\"end e\",\"reply\":{\"kind\":\"ended now\"}}",
    "{\"clerk\":1,\"command\":\"end e\",\"reply\":{\"kind\":\"already ended\"}}",
    "{\"clerk\":1,\"command\":\"transmit e ann bob 1 Oil @2006-01-01\",\"reply\":{\"kind\":\"ended\"}}",
    "{\"clerk\":1,\"command\":\"end f\",\"reply\":{\"kind\":\"no contract\",\"name\":\"f\"}}",
    "{\"clerk\":1,\"command\":\"register g = transmit(a, b, r, t | true). Success\",\"reply\":{\"id\":3,\"kind\":\"registered\"}}",
    "{\"clerk\":1,\"command\":\"end g\",\"reply\":{\"kind\":\"not performed\"}}",
];

#[test]
fn each_reply_is_exported(rt: HostRuntime) -> Result<(), Fail> {
    let alloc = rt.alloc();
    let text = joined(alloc, &[HEAD, ANY, REPORTS, CALLS])?;
    let mut line = joined(alloc, &[BOOK])?;
    for (place, entry) in ENTRIES.iter().enumerate() {
        line.push_str(if place == 0 { "" } else { "," })?;
        line.push_str(entry)?;
    }
    line.push_str("]}\n")?;
    let holds = answers(
        &rt,
        alloc,
        &["export"],
        text.as_str(),
        &SOUND,
        (0, ENTRIES.len(), line.as_str()),
    )?;
    assert!(rt; holds);
    Ok(())
}

// A template with a parameter of each type, and what is owed after an event.
const TYPES: &str = "template six(n: Int, b: Bool, a: Agent, k: Kind, r: Resource, d: Day) =
  Success
  + transmit(x, y, s, t | b and x = a and amount(s) = n and kind(s) = k and s = r and t = d).
    six(n - 1, b, y, k, [4 Oil], d + 1);;
journal;;
1: register c = six(5, true, ann, Oil, [5 Oil], @2006-05-03);;
1: transmit c ann bob 5 Oil @2006-05-03;;
1: show c;;
";

// The document of `TYPES`, and a line feed.
const TYPES_LINE: &str =
    "{\"book\":[\"agents ann, bob\",\"kinds Oil, USD\",\"template six(n: Int, b: Bool, a: Agent, k: Kind, r: Resource, d: Day) = Success + transmit(x, y, s, t | b and x = a and amount(s) = n and kind(s) = k and s = r and t = d). six(n - 1, b, y, k, [4 Oil], d + 1)\"],\"format\":\"poets 1\",\"history\":[{\"clerk\":1,\"command\":\"register c = six(5, true, ann, Oil, [5 Oil], @2006-05-03)\",\"reply\":{\"id\":1,\"kind\":\"registered\"}},{\"clerk\":1,\"command\":\"transmit c ann bob 5 Oil @2006-05-03\",\"reply\":{\"count\":1,\"kind\":\"recorded\",\"may_end\":true}},{\"clerk\":1,\"command\":\"show c\",\"reply\":{\"count\":1,\"ended\":false,\"kind\":\"shown\",\"may_end\":true,\"residual\":\"six(4, true, bob, Oil, [4 Oil], @2006-05-04)\"}}]}\n";

#[test]
fn a_template_with_each_type_of_parameter(rt: HostRuntime) -> Result<(), Fail> {
    let alloc = rt.alloc();
    let text = joined(alloc, &[HEAD, TYPES])?;
    let holds = answers(
        &rt,
        alloc,
        &["export"],
        text.as_str(),
        &SOUND,
        (0, 3, TYPES_LINE),
    )?;
    assert!(rt; holds);
    Ok(())
}

#[test]
fn an_empty_journal_is_exported(rt: HostRuntime) -> Result<(), Fail> {
    let line = "{\"book\":[],\"format\":\"poets 1\",\"history\":[]}\n";
    let holds = answers(
        &rt,
        rt.alloc(),
        &["export"],
        "journal;;",
        &SOUND,
        (0, 0, line),
    )?;
    assert!(rt; holds);
    Ok(())
}

// Texts that are no journals, with the line of the first fault.
const NO_JOURNALS: [(&str, &str); 3] = [
    (
        "clerk;; register c = Success;;",
        "refused in statement 1: Misplaced\n",
    ),
    (
        "journal;; 1: register c = d();;",
        "refused in statement 2: Unknown d\n",
    ),
    ("journal;; ?", "refused at byte 10: BadByte\n"),
];

#[test]
fn other_texts_are_not_exported(rt: HostRuntime) -> Result<(), Fail> {
    let alloc = rt.alloc();
    for (text, line) in NO_JOURNALS {
        let holds = answers(&rt, alloc, &["export"], text, &SOUND, (1, 0, line))?;
        assert!(rt; holds, "{text}");
    }
    let holds = answers(
        &rt,
        alloc,
        &["export", "c"],
        "journal;;",
        &SOUND,
        (2, 0, ""),
    )?;
    assert!(rt; holds);
    Ok(())
}

// The first journal is answered so over this source and sink.
fn answered<R: Abort + Threads + Wait + Sync>(
    rt: &R,
    alloc: Global,
    edges: &Edges,
    wanted: (u8, usize, &str),
) -> Result<(), Fail> {
    let text = joined(alloc, &[HEAD, FIRST])?;
    let holds = answers(rt, alloc, &["export"], text.as_str(), edges, wanted)?;
    assert!(rt; holds, "status {}", wanted.0);
    Ok(())
}

#[test]
fn reads_and_writes_of_a_document_are_short_or_fail(rt: HostRuntime) -> Result<(), Fail> {
    let alloc = rt.alloc();
    let short = Edges { step: 7, ..SOUND };
    let unread = Edges {
        reads: &[2],
        ..short
    };
    let unwritten = Edges {
        writes: &[1],
        ..SOUND
    };
    answered(&rt, alloc, &short, (0, 2, FIRST_LINE))?;
    answered(&rt, alloc, &unread, (4, 0, ""))?;
    answered(&rt, alloc, &unwritten, (5, 2, ""))
}
