//! Books worked by hand, each studied once with memory.

use crate::contracts::studied;
use crate::sentences::{F, G, H};
use poets_guard::GuardFault;
use poets_meaning::Mark;
use poets_value::Name;
use std::alloc::Global;

// Whether the study finds this cycle.
fn has_cycle(alloc: Global, texts: &[&str], names: &[Name]) -> bool {
    match studied(alloc, texts) {
        Err(GuardFault::Unguarded { cycle }) => cycle.as_slice() == names,
        _ => false,
    }
}

// Whether the study finds two templates with these marks.
fn has_marks(alloc: Global, texts: &[&str], marks: &[Mark]) -> bool {
    match studied(alloc, texts) {
        Ok(studied) => studied.book().templates.len() == 2 && studied.marks() == marks,
        Err(_) => false,
    }
}

const BESIDE_ITSELF: [&str; 1] = ["template f() = f() || Success"];

// What comes after a part that is not nullable is guarded.
const AHEAD_OF_ITSELF: [&str; 2] = ["template f() = g() ; f()", "template g() = g() || Success"];

// The cycle begins with its first declared template.
const CIRCLING: [&str; 3] = [
    "template f() = h() + g()",
    "template g() = h() || Success",
    "template h() = g() || Success",
];

#[test]
fn templates_that_unfold_for_ever_are_a_cycle(rt: HostRuntime) {
    assert!(rt; has_cycle(rt.alloc(), &BESIDE_ITSELF, &[F]));
    assert!(rt; has_cycle(rt.alloc(), &AHEAD_OF_ITSELF, &[G]));
    assert!(rt; has_cycle(rt.alloc(), &CIRCLING, &[G, H]));
}

// A transmission guards what follows it.
const SENDING: [&str; 2] = [
    "template f() = transmit(a, b, r, t | true). f() + Success",
    "template g() = f() ; f()",
];

// of f: +, transmit, true, the application, Success; of g: `;` and twice the application with the five of f
const MARKS_OF_SENDING: [Mark; 2] = [
    Mark {
        nullable: true,
        hopeful: true,
        wide: 5,
    },
    Mark {
        nullable: true,
        hopeful: true,
        wide: 13,
    },
];

// A template without an end is hopeless.
const ENDLESS: [&str; 2] = [
    "template f() = transmit(a, b, r, t | true). f()",
    "template g() = f() ; g()",
];

// of f: transmit, true, the application; of g: `;`, the application with the three of f, and the other by itself
const MARKS_OF_ENDLESS: [Mark; 2] = [
    Mark {
        nullable: false,
        hopeful: false,
        wide: 3,
    },
    Mark {
        nullable: false,
        hopeful: false,
        wide: 6,
    },
];

#[test]
fn the_templates_of_a_guarded_book_have_marks(rt: HostRuntime) {
    assert!(rt; has_marks(rt.alloc(), &SENDING, &MARKS_OF_SENDING));
    assert!(rt; has_marks(rt.alloc(), &ENDLESS, &MARKS_OF_ENDLESS));
}
