//! Values that are no document, and bytes that are no value.

use crate::documents::{TWO, is_no_json, is_shape};
use poets_value::Memory;
use std::alloc::Global;

#[test]
fn bytes_that_are_no_json(rt: HostRuntime) {
    let alloc = rt.alloc();
    assert!(rt; is_no_json(alloc, b"{"));
    assert!(rt; is_no_json(alloc, b""));
    assert!(rt; is_no_json(alloc, b"\"\xff\""));
    assert!(rt;
        is_no_json(
            alloc,
            br#"{"book":["\ud800"],"format":"poets 1","history":[]}"#
        )
    );
}

#[test]
fn texts_that_are_cut_are_no_json(rt: HostRuntime) {
    for length in 0..TWO.len() {
        assert!(rt;
            is_no_json(rt.alloc(), &TWO.as_bytes()[..length]),
            "{length}"
        );
    }
}

#[test]
fn other_values(rt: HostRuntime) {
    for text in ["{}", "[]", "null", "1.5", "\"\"", "true"] {
        assert!(rt; is_shape(rt.alloc(), text), "{text}");
    }
}

// Members that are missing, that are one too many, and that have other values.
const OBJECTS: [&str; 12] = [
    r#"{"book":[],"format":"poets 2","history":[]}"#,
    r#"{"book":[],"format":1,"history":[]}"#,
    r#"{"book":[],"format":"poets 1"}"#,
    r#"{"book":[],"history":[]}"#,
    r#"{"format":"poets 1","history":[]}"#,
    r#"{"a":1,"book":[],"format":"poets 1","history":[]}"#,
    r#"{"book":[],"format":"poets 1","history":[],"more":[]}"#,
    r#"{"book":[],"format":"poets 1","history":{}}"#,
    r#"{"book":[],"format":"poets 1","history":[{}]}"#,
    r#"{"book":[],"format":"poets 1","history":[[]]}"#,
    r#"{"book":[],"format":"poets 1","history":[{"clerk":1,"command":"read 1"}]}"#,
    r#"{"book":[],"format":"poets 1","history":[{"clerk":1,"reply":{"kind":"hopeless"}}]}"#,
];

#[test]
fn other_objects(rt: HostRuntime) {
    for text in OBJECTS {
        assert!(rt; is_shape(rt.alloc(), text), "{text}");
    }
}

// An entry with a member too many.
const MORE: &str = concat!(
    r#"{"book":[],"format":"poets 1","history":[{"clerk":1,"command":"read 1","#,
    r#""reply":{"kind":"hopeless"},"more":1}]}"#,
);

#[test]
fn no_member_is_passed_over(rt: HostRuntime) {
    assert!(rt; is_shape(rt.alloc(), MORE));
}

// The last of two members with one name counts.
#[test]
fn the_last_of_two_members_is_no_history(rt: HostRuntime) {
    let text = r#"{"book":[],"format":"poets 1","history":[],"history":1}"#;
    assert!(rt; is_shape(rt.alloc(), text));
}

// Arrays in arrays.
fn nested(alloc: Global, depth: usize) -> Result<String, Memory> {
    let mut text = String::new(alloc);
    for _ in 0..depth {
        text.push_str("[")?;
    }
    for _ in 0..depth {
        text.push_str("]")?;
    }
    Ok(text)
}

#[test]
fn values_nest_at_most_127_deep(rt: HostRuntime) -> Result<(), Memory> {
    let alloc = rt.alloc();
    assert!(rt; is_shape(alloc, nested(alloc, 127)?.as_str()));
    assert!(rt; is_no_json(alloc, nested(alloc, 128)?.as_str().as_bytes()));
    Ok(())
}
