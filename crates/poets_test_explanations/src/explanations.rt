//! Journals of which a contract is explained.

use crate::books::{ANY, HEAD};
use crate::program::{Edges, SOUND, answers, joined, repeated};
use std::alloc::Global;
use std::process::Abort;
use std::sync::Wait;
use std::test::Fail;
use std::thread::Threads;

// What a journal shows, its calls, how many they are, and what explains `c` after them.
type Journal<'a> = (&'a str, &'a str, usize, &'a str);

const BESIDE: Journal = (
    "the events of two contracts side by side are told apart",
    "1: register c = transmit(a, b, r, t | kind(r) = Oil). Success || transmit(a, b, r, t | kind(r) = USD). Success;;
1: transmit c ann bob 1 USD @2006-01-01;; 1: transmit c ann bob 1 Oil @2006-01-01;;",
    3,
    "contract c: events 2, may end yes
way both RL (take done) (take done)
",
);

const OWED: Journal = (
    "what is owed is open for two transmissions, and is not yet performed",
    "1: register c = transmit(a, b, r, t | kind(r) = Oil). Success
  || transmit(a, b, r, t | kind(r) = Oil). transmit(a, b, r, t | kind(r) = USD). Success;;
1: transmit c ann bob 1 Oil @2006-01-01;;",
    2,
    "contract c: events 1, may end no
next transmit(a, b, r, t | kind(r) = Oil)
next transmit(a, b, r, t | kind(r) = USD)
way none
",
);

const AFTER: Journal = (
    "one contract comes after another, and the second may be passed over",
    "1: register c = transmit(a, b, r, t | kind(r) = Oil). Success ; (Success + transmit(x, y, s, w | true). Success);;
2: transmit c ann bob 1 Oil @2006-01-01;;",
    2,
    "contract c: events 1, may end yes
next transmit(x, y, s, w | true)
way then 1 (take done) (left done)
",
);

const NO_EVENT: Journal = (
    "a contract may be performed by the empty trace",
    "1: register c = Success || Success;;",
    1,
    "contract c: events 0, may end yes
way both - (done) (done)
",
);

const ENDED: Journal = (
    "an ended contract is explained as any other",
    "1: register c = any();; 1: transmit c ann bob 1 Oil @2006-01-01;; 1: end c;;
1: transmit c ann bob 2 Oil @2006-01-01;;",
    4,
    "contract c: events 1, may end yes
next transmit(a, b, r, t | true)
way enter right take enter left done
",
);

const WITHDRAWN: Journal = (
    "a withdrawn event and a late one do not count",
    "1: register c = any();; 1: transmit c ann bob 1 Oil @2006-01-02;; 1: transmit c ann bob 2 Oil @2006-01-03;;
2: void c 1;; 2: transmit c ann bob 3 Oil @2006-01-01;;",
    5,
    "contract c: events 1, may end yes
next transmit(a, b, r, t | true)
way enter right take enter left done
",
);

const REFUSED: Journal = (
    "calls that are refused leave no trace",
    "1: register c = transmit(a, b, r, t | kind(r) = Oil). Success;; 1: transmit c ann bob 1 USD @2006-01-01;;
1: transmit d ann bob 1 Oil @2006-01-01;; 1: end c;; 1: void c 1;; 1: register c = Success;;",
    6,
    "contract c: events 0, may end no
next transmit(a, b, r, t | kind(r) = Oil)
way none
",
);

const OTHERS: Journal = (
    "the events of other contracts do not count, nor do calls that record none",
    "1: register c = any();; 1: register d = any();; 2: transmit d ann bob 1 Oil @2006-01-01;; 1: show c;; 1: end d;;
3: transmit c bob ann 7 USD @2006-01-02;; 1: void d 1;; 1: show d;;",
    8,
    "contract c: events 1, may end yes
next transmit(a, b, r, t | true)
way enter right take enter left done
",
);

const FINISHED: Journal = (
    "what is wholly performed takes nothing more",
    "1: register c = transmit(a, b, r, t | kind(r) = Oil). Success + Failure || any();;
1: transmit c ann bob 1 Oil @2006-01-01;;",
    2,
    "contract c: events 1, may end yes
way left take done
",
);

const UNKNOWN: Journal = ("no call names a contract", "", 0, "no contract c\n");

const UNREGISTERED: Journal = (
    "a refused registration leaves no contract",
    "1: register c = Failure;; 1: register d = Success;; 1: end c;;",
    3,
    "no contract c\n",
);

// The program explains the journal's contract so.
fn explained<R: Abort + Threads + Wait + Sync>(
    rt: &R,
    alloc: Global,
    (about, calls, entries, lines): Journal,
) -> Result<(), Fail> {
    let text = joined(alloc, &[HEAD, ANY, "journal;;\n", calls])?;
    let holds = answers(
        rt,
        alloc,
        &["explain", "c"],
        text.as_str(),
        &SOUND,
        (0, entries, lines),
    )?;
    assert!(rt; holds, "{about}");
    Ok(())
}

#[test]
fn contracts_are_explained(rt: HostRuntime) -> Result<(), Fail> {
    let alloc = rt.alloc();
    explained(&rt, alloc, BESIDE)?;
    explained(&rt, alloc, OWED)?;
    explained(&rt, alloc, AFTER)?;
    explained(&rt, alloc, NO_EVENT)?;
    explained(&rt, alloc, ENDED)?;
    explained(&rt, alloc, WITHDRAWN)?;
    explained(&rt, alloc, REFUSED)?;
    explained(&rt, alloc, OTHERS)?;
    explained(&rt, alloc, FINISHED)?;
    explained(&rt, alloc, UNKNOWN)?;
    explained(&rt, alloc, UNREGISTERED)
}

const TEMPLATES: &str = "template oil() = transmit(a, b, r, t | kind(r) = Oil). Success;;
template usd() = transmit(a, b, r, t | kind(r) = USD). Success;;
template tail() = Success + transmit(a, b, r, t | kind(r) = Oil). (tail() ; Success);;
template nest() = Success + transmit(a, b, r, t | kind(r) = Oil). (nest() || usd());;
journal;; ";

// A contract, the kinds of what is delivered on it, how many calls that makes, and what explains it then. No way but
// the one is there.
type Delivered<'a> = (&'a str, &'a [&'a str], usize, &'a str);

const DELIVERED: [Delivered; 8] = [
    (
        "oil()",
        &[],
        1,
        "contract c: events 0, may end no
next transmit(a, b, r, t | kind(r) = Oil)
way none
",
    ),
    (
        "oil()",
        &["Oil"],
        2,
        "contract c: events 1, may end yes
way enter take done
",
    ),
    (
        "usd() + oil() || usd()",
        &["USD", "Oil"],
        3,
        "contract c: events 2, may end yes
way right both RL (enter take done) (enter take done)
",
    ),
    (
        "oil() ; usd()",
        &["Oil", "USD"],
        3,
        "contract c: events 2, may end yes
way then 1 (enter take done) (enter take done)
",
    ),
    (
        "tail()",
        &["Oil", "Oil"],
        3,
        "contract c: events 2, may end yes
next transmit(a, b, r, t | kind(r) = Oil)
way enter right take then 1 (enter right take then 0 (enter left done) (done)) (done)
",
    ),
    (
        "nest()",
        &["Oil", "USD"],
        3,
        "contract c: events 2, may end yes
next transmit(a, b, r, t | kind(r) = Oil)
way enter right take both R (enter left done) (enter take done)
",
    ),
    (
        "((Success + oil()) ; (usd() + Success)) || oil()",
        &["Oil", "USD", "Oil"],
        4,
        "contract c: events 3, may end yes
way both LLR (then 1 (right enter take done) (left enter take done)) (enter take done)
",
    ),
    (
        "((Success + oil()) ; (usd() + Success)) || oil()",
        &["USD", "Oil"],
        3,
        "contract c: events 2, may end yes
way both LR (then 0 (left done) (left enter take done)) (enter take done)
",
    ),
];

// The calls that register the contract, and deliver one of each kind on it.
fn deliveries(alloc: Global, contract: &str, kinds: &[&str]) -> Result<String, Fail> {
    let mut calls = joined(alloc, &["1: register c = ", contract, ";;"])?;
    for kind in kinds {
        let call = joined(
            alloc,
            &[" 1: transmit c ann bob 1 ", *kind, " @2006-01-01;;"],
        )?;
        calls.push_str(call.as_str())?;
    }
    Ok(calls)
}

#[test]
fn deliveries_are_explained(rt: HostRuntime) -> Result<(), Fail> {
    let alloc = rt.alloc();
    for (contract, kinds, entries, lines) in DELIVERED {
        let calls = deliveries(alloc, contract, kinds)?;
        let text = joined(alloc, &[HEAD, TEMPLATES, calls.as_str()])?;
        let holds = answers(
            &rt,
            alloc,
            &["explain", "c"],
            text.as_str(),
            &SOUND,
            (0, entries, lines),
        )?;
        assert!(rt; holds, "{contract}");
    }
    Ok(())
}

#[test]
fn a_name_of_an_agent_is_no_contracts(rt: HostRuntime) -> Result<(), Fail> {
    let alloc = rt.alloc();
    let text = joined(alloc, &[HEAD, "journal;; 1: register c = Success;;"])?;
    let holds = answers(
        &rt,
        alloc,
        &["explain", "ann"],
        text.as_str(),
        &SOUND,
        (0, 1, "no contract ann\n"),
    )?;
    assert!(rt; holds);
    Ok(())
}

#[test]
fn many_events_are_explained(rt: HostRuntime) -> Result<(), Fail> {
    let alloc = rt.alloc();
    let event = "1: transmit c ann bob 1 Oil @2006-01-01;;";
    let events = repeated(alloc, event, 600)?;
    let calls = joined(alloc, &["1: register c = any();;", events.as_str()])?;
    let moves = repeated(alloc, "enter right take ", 600)?;
    let lines = [
        "contract c: events 600, may end yes\nnext transmit(a, b, r, t | true)\nway ",
        moves.as_str(),
        "enter left done\n",
    ];
    let lines = joined(alloc, &lines)?;
    let row = ("600 events", calls.as_str(), 601, lines.as_str());
    explained(&rt, alloc, row)
}

// Texts that are no journals, and what is told of them, as where they are to be replayed.
const NO_JOURNALS: [(&str, &str); 5] = [
    ("", "refused in statement 1: Misplaced\n"),
    ("agents ann;;", "refused in statement 2: Misplaced\n"),
    (
        "clerk;; register c = Success;;",
        "refused in statement 1: Misplaced\n",
    ),
    (
        "journal;; 1: register c = h();;",
        "refused in statement 2: Unknown h\n",
    ),
    (
        "journal;; 1: register c = Success;; ?",
        "refused at byte 36: BadByte\n",
    ),
];

#[test]
fn other_texts_are_told(rt: HostRuntime) -> Result<(), Fail> {
    let alloc = rt.alloc();
    for (text, line) in NO_JOURNALS {
        let holds = answers(&rt, alloc, &["explain", "c"], text, &SOUND, (1, 0, line))?;
        assert!(rt; holds, "explain c: {text}");
        let holds = answers(&rt, alloc, &["replay"], text, &SOUND, (1, 0, line))?;
        assert!(rt; holds, "replay: {text}");
    }
    Ok(())
}

// The journal of one contract is answered so over this source and sink.
fn answered<R: Abort + Threads + Wait + Sync>(
    rt: &R,
    alloc: Global,
    edges: &Edges,
    wanted: (u8, usize, &str),
) -> Result<(), Fail> {
    let text = joined(alloc, &[HEAD, "journal;; 1: register c = Success;;"])?;
    let holds = answers(rt, alloc, &["explain", "c"], text.as_str(), edges, wanted)?;
    assert!(rt; holds, "status {}", wanted.0);
    Ok(())
}

#[test]
fn reads_and_writes_of_an_explanation_are_short_or_fail(rt: HostRuntime) -> Result<(), Fail> {
    let alloc = rt.alloc();
    let short = Edges { step: 7, ..SOUND };
    let unread = Edges {
        reads: &[2],
        ..short
    };
    let unwritten = Edges {
        writes: &[1],
        ..SOUND
    };
    let lines = "contract c: events 0, may end yes\nway done\n";
    answered(&rt, alloc, &short, (0, 1, lines))?;
    answered(&rt, alloc, &unread, (4, 0, ""))?;
    answered(&rt, alloc, &unwritten, (5, 1, ""))
}
