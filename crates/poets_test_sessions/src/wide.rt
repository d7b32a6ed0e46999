//! Contracts of many parts at once, some of which spread too far to be kept.

use crate::books::HEAD;
use crate::table::Line::{self, Row, Steps, Text};
use crate::table::{Call, each_row};
use std::test::Fail;

// The body of d(k) is 9 * 2^k - 3 wide: that of d8() 2,301, and that of d9() 4,605.
pub(crate) const DOUBLES: &str = "template d0() = transmit(a, b, r, t | kind(r) = USD). Success;;
template d1() = d0() || d0();;
template d2() = d1() || d1();;
template d3() = d2() || d2();;
template d4() = d3() || d3();;
template d5() = d4() || d4();;
template d6() = d5() || d5();;
template d7() = d6() || d6();;
template d8() = d7() || d7();;
template d9() = d8() || d8();;
";

const WIDE: [Line; 6] = [
    Row("parts at once spread too far"),
    Text(DOUBLES),
    Steps(
        "register a = d4() => registered 1
register b = d5() => registered 2
register e = d7() => registered 3
transmit a ann bob 1 USD @2006-01-01 => recorded 1, may end no
transmit b ann bob 1 USD @2006-01-01 => recorded 1, may end no
show b => events 1, may end no, ended no, residual d0() || d1() || d2() || d3() || d4()
register p = d8() => registered 4
register q = d9() => too large
",
    ),
    // d8() and its body are 2,302, d7() 1,150, d6() 574, d2() 34, d1() 16, the transmission with its continuation 5,
    // and five `||` 3 each: 4,096 in all. Each further node of the predicate is one more.
    Row("a part that is repeated counts once, and a spread of 4,096 is kept"),
    Text(DOUBLES),
    Steps(
        "register a = d8() || d8() || d8() => registered 1
register b = d8() || d7() || d6() || d2() || d1() || transmit(a, b, r, t | not true). Success => registered 2
register c = d8() || d7() || d6() || d2() || d1() || transmit(a, b, r, t | not not true). Success => too large
register d = transmit(a, b, r, t | true). d9() => registered 3
transmit d ann bob 1 USD @2006-01-01 => too large
show d => events 0, may end no, ended no, residual transmit(a, b, r, t | true). d9()
",
    ),
];

const STEPS: Call = Call {
    word: "run",
    head: HEAD,
    status: 0,
};

#[test]
fn wide_contracts_are_too_large(rt: HostRuntime) -> Result<(), Fail> {
    each_row(&rt, rt.alloc(), &STEPS, &WIDE)
}
