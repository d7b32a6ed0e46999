//! Books that have changed since yesterday.

use crate::program::{ask, file_of, holding, leaves, stays};
use std::alloc::Global;
use std::test::Fail;

// The journal of a book with the template `owed`, of two calls.
fn owed_file(alloc: Global) -> Result<Vec<u8>, Fail> {
    file_of(
        alloc,
        &[
            "1: register d = owed(ann, bob, 7)",
            "1: transmit d bob ann 7 USD @2006-01-02",
        ],
    )
}

// The same book with an agent, a template and a report more at its end.
const LONGER: &str = "agents ann, bob;; kinds Oil, USD;;
template owed(a: Agent, b: Agent, n: Int) =
  transmit(x, y, r, t | x = b and y = a and r = res(n, USD)). Success;;
agents carl;;
template twice(a: Agent, b: Agent, n: Int) = owed(a, b, n) ; owed(a, b, n);;
report count(): Int = fold x = 0 with (s, v, r, t) in x + 1;;
clerk;; tally count();; end d;; register e = twice(carl, bob, 1);;";

#[test]
fn a_book_may_grow_at_its_end(rt: HostRuntime) -> Result<(), Fail> {
    let alloc = rt.alloc();
    let file = owed_file(alloc)?;
    let lines = "3 1: tally count() => value 1
4 1: end d => ended now
5 1: register e = twice(carl, bob, 1) => registered 2
";
    leaves(
        &rt,
        alloc,
        ("resume", LONGER),
        file.as_slice(),
        (0, 3, 3, lines),
    )?;
    Ok(())
}

// Without a template that the journal's first call applies, it is no call of the book.
const SHORTER: &str = "agents ann, bob;; kinds Oil, USD;; clerk;; end d;;";

// Without an agent that its second call names, that one is none.
const OTHER: &str = "agents ann, carl;; kinds Oil, USD;;
template owed(a: Agent, b: Agent, n: Int) =
  transmit(x, y, r, t | x = b and y = a and r = res(n, USD)). Success;;
clerk;; end d;;";

#[test]
fn a_call_that_the_book_does_not_type_is_told(rt: HostRuntime) -> Result<(), Fail> {
    let alloc = rt.alloc();
    let file = owed_file(alloc)?;
    for book in [SHORTER, OTHER] {
        let line = "refused: journal damaged at record 1\n";
        stays(
            &rt,
            alloc,
            ("resume", book),
            file.as_slice(),
            (9, 0, 0, line),
        )?;
    }
    Ok(())
}

// The same template with another meaning: the calls are typed, and the second is answered by `unmatched`, and not by
// `recorded`, as it was yesterday. So the contract is still open.
const CHANGED: &str = "agents ann, bob;; kinds Oil, USD;;
template owed(a: Agent, b: Agent, n: Int) =
  transmit(x, y, r, t | x = b and y = a and r = res(n, Oil)). Success;;
clerk;; end d;; show d;;";

#[test]
fn a_changed_template_gives_calls_another_meaning(rt: HostRuntime) -> Result<(), Fail> {
    let alloc = rt.alloc();
    let file = owed_file(alloc)?;
    let day = ask(&rt, alloc, &["resume"], CHANGED, &holding(file.as_slice()))?;
    let lines = "3 1: end d => not performed\n4 1: show d => events 0, ";
    let holds = day.written().starts_with(lines.as_bytes());
    drop((file, day));
    assert!(rt; holds);
    Ok(())
}
