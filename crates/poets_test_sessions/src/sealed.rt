//! Portfolios over long pasts, which are made once their turn is over.

use crate::books::{ANY, HEAD, SUM};
use crate::past::{commands, replies};
use crate::program::{Edges, SOUND, answered, answers, joined};
use poets_table::PIECE_LENGTH;
use std::alloc::Global;
use std::test::Fail;

const OF_C: &str = "transmit c ann bob 1 Oil @2006-01-01";

const OF_D: &str = "transmit d ann bob 2 Oil @2006-01-01";

// A contract with 600 events, and a portfolio of it.
#[test]
fn a_portfolio_goes_over_a_long_past(rt: HostRuntime) -> Result<(), Fail> {
    let alloc = rt.alloc();
    let events = commands(alloc, OF_C, 600)?;
    let registered = "clerk;;\nregister c = any();;\n";
    let asked = "portfolio sum() over c;;\n";
    let text = joined(alloc, &[HEAD, ANY, SUM, registered, events.as_str(), asked])?;
    let recorded = replies(alloc, OF_C, (1, 600), ("recorded ", ", may end yes"))?;
    let first = "1 1: register c = any() => registered 1\n";
    let last = "602 1: portfolio sum() over c => portfolio c 600, total 600\n";
    let lines = joined(alloc, &[first, recorded.as_str(), last])?;
    let row = ("a portfolio goes over a long past", text.as_str());
    answered(&rt, alloc, row, (0, 602, lines.as_str()))
}

// Two contracts, 600 events on the first, 512 on the second, and a portfolio of both.
fn long_pasts(alloc: Global) -> Result<String, Fail> {
    let on_first = commands(alloc, OF_C, 600)?;
    let on_second = commands(alloc, OF_D, 512)?;
    let pieces = [
        HEAD,
        ANY,
        SUM,
        "clerk;;\nregister c = any();;\nregister d = any();;\n",
        on_first.as_str(),
        on_second.as_str(),
        "portfolio sum() over c, d;;\n",
    ];
    joined(alloc, &pieces)
}

// The history of these commands.
fn lines_of_long_pasts(alloc: Global) -> Result<String, Fail> {
    let of_first = replies(alloc, OF_C, (2, 600), ("recorded ", ", may end yes"))?;
    let of_second = replies(alloc, OF_D, (602, 512), ("recorded ", ", may end yes"))?;
    let pieces = [
        "1 1: register c = any() => registered 1\n2 1: register d = any() => registered 2\n",
        of_first.as_str(),
        of_second.as_str(),
        "1115 1: portfolio sum() over c, d => portfolio c 600, d 1024, total 1624\n",
    ];
    joined(alloc, &pieces)
}

#[test]
fn a_portfolio_goes_over_all_pieces(rt: HostRuntime) -> Result<(), Fail> {
    let alloc = rt.alloc();
    assert_eq!(rt; PIECE_LENGTH, 256);
    let text = long_pasts(alloc)?;
    let lines = lines_of_long_pasts(alloc)?;
    let row = ("a portfolio goes over all pieces", text.as_str());
    answered(&rt, alloc, row, (0, 1_115, lines.as_str()))
}

// A portfolio, and another clerk's transmission.
const BESIDE: &str = "clerk;; register c = any();; portfolio sum() over c;;
clerk;; transmit c ann bob 5 Oil @2006-01-01;;\n";

// The transmission stands behind the portfolio, which knows nothing of it.
const BEHIND: &str = "1 1: register c = any() => registered 1
2 1: portfolio sum() over c => portfolio c 0, total 0
3 2: transmit c ann bob 5 Oil @2006-01-01 => recorded 1, may end yes
";

#[test]
fn a_portfolio_is_made_while_others_work(rt: HostRuntime) -> Result<(), Fail> {
    let alloc = rt.alloc();
    let text = joined(alloc, &[HEAD, ANY, SUM, BESIDE])?;
    // The second clerk waits until the portfolio's turn is over, and the portfolio is made once he has his answer.
    let edges = Edges {
        held_behind: &[((2, 1), (1, 2))],
        held_outside: &[((1, 2), (2, 1))],
        ..SOUND
    };
    let asked: (&[&str], &str) = (&["run"], text.as_str());
    let holds = answers(&rt, alloc, asked, &edges, (0, 3, BEHIND))?;
    assert!(rt; holds);
    Ok(())
}
