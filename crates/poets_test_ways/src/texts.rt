//! How ways are written.

use crate::made::{deep_way, long_way, way};
use poets_value::Memory;
use poets_way::{Way, way_text};
use std::alloc::Global;

// A way without its brackets, and as it is written.
const TEXTS: [(&str, &str); 10] = [
    ("done", "done"),
    ("take done", "take done"),
    ("left take done", "left take done"),
    ("right done", "right done"),
    ("take take done", "take take done"),
    (
        "enter right take enter left done",
        "enter right take enter left done",
    ),
    (
        "both RL take done take done",
        "both RL (take done) (take done)",
    ),
    (
        "both L take done take done",
        "both L (take done) (take done)",
    ),
    ("both - done done", "both - (done) (done)"),
    (
        "then 2 take done take done",
        "then 2 (take done) (take done)",
    ),
];

// Whether the way is written so.
fn is_written(alloc: Global, moves: &str, wanted: &str) -> Result<bool, Memory> {
    let text = way_text(alloc, &way(alloc, moves)?)?;
    Ok(text.as_str() == wanted)
}

#[test]
fn ways_are_written(rt: HostRuntime) -> Result<(), Memory> {
    for (moves, wanted) in &TEXTS {
        assert!(rt; is_written(rt.alloc(), moves, wanted)?, "{wanted}");
    }
    Ok(())
}

// How many bytes the text of the way has.
fn text_length(alloc: Global, way: &Way) -> Result<usize, Memory> {
    Ok(way_text(alloc, way)?.len())
}

#[test]
fn no_way_is_too_deep(rt: HostRuntime) -> Result<(), Memory> {
    let alloc = rt.alloc();
    let long = text_length(alloc, &long_way(alloc, 70_000)?)?;
    let deep = text_length(alloc, &deep_way(alloc, 200_000)?)?;
    assert!(rt; long == 70_000 * 17 + 15, "{long}");
    assert!(rt; deep == 200_000 * 16 + 4, "{deep}");
    Ok(())
}
