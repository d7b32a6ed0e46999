//! Sessions with templates.

use crate::books::{QUOTIENT, SALE};
use crate::table::Line::{self, Row, Steps, Text};

const NEVER: &str = "template never() = transmit(a, b, r, t | true). never();;\n";

pub(crate) const CALLED: [Line; 21] = [
    Row("a sale is paid within thirty days"),
    Text(SALE),
    Steps(
        "register deal = sale(ann, bob, 7) => registered 1
transmit deal ann bob 7 Oil @2006-05-03 => recorded 1, may end no
show deal => events 1, may end no, ended no, residual transmit(u, v, p, w | u = bob and v = ann and kind(p) = USD and w <= @2006-05-03 + 30). Success
transmit deal bob ann 500 USD @2006-06-02 => recorded 2, may end yes
",
    ),
    Row("a sale is not paid after thirty days"),
    Text(SALE),
    Steps(
        "register deal = sale(ann, bob, 7) => registered 1
transmit deal ann bob 7 Oil @2006-05-03 => recorded 1, may end no
transmit deal bob ann 500 USD @2006-06-03 => unmatched
transmit deal bob ann 500 USD @2006-06-02 => recorded 2, may end yes
",
    ),
    Row("a sale is not paid before its delivery"),
    Text(SALE),
    Steps(
        "register deal = sale(ann, bob, 7) => registered 1
transmit deal ann bob 7 Oil @2006-05-03 => recorded 1, may end no
transmit deal bob ann 500 USD @2006-05-02 => late 2006-05-03
transmit deal bob ann 500 USD @2006-05-03 => recorded 2, may end yes
",
    ),
    Row("an argument is undefined after one step"),
    Text(QUOTIENT),
    Steps(
        "register c = f(3) => registered 1
transmit c ann bob 3 Oil @2006-01-01 => recorded 1, may end yes
show c => events 1, may end yes, ended no, residual f(undefined Int)
transmit c ann bob 3 Oil @2006-01-01 => unmatched
",
    ),
    Row("an argument that is too large a sum is undefined"),
    Text(QUOTIENT),
    Steps(
        "register c = f(9223372036854775807 + 1) => registered 1
show c => events 0, may end yes, ended no, residual f(undefined Int)
transmit c ann bob 3 Oil @2006-01-01 => unmatched
",
    ),
    Row("an argument has its value"),
    Text(QUOTIENT),
    Steps(
        "register c = f(-(5) - -3) => registered 1
show c => events 0, may end yes, ended no, residual f(-2)
transmit c ann bob 2 Oil @2006-01-01 => unmatched
",
    ),
    Row("a template without an end is no alternative"),
    Text(NEVER),
    Steps(
        "register c = never() => hopeless
register c = never() + Success => registered 1
",
    ),
];
