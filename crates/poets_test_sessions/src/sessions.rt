//! Contracts, performed event by event.

use crate::table::Line::{self, Row, Steps};

pub(crate) const PERFORMED: [Line; 16] = [
    Row("a contract takes what performs it"),
    Steps(
        "register c = transmit(a, b, r, t | kind(r) = Oil and amount(r) = 7). Success + Success => registered 1
transmit c ann bob 7 Oil @2006-05-03 => recorded 1, may end yes
transmit c ann bob 7 Oil @2006-05-03 => unmatched
",
    ),
    Row("a contract without an end is not registered"),
    Steps(
        "register d = transmit(a, b, r, t | true). Failure => hopeless
show d => no contract d
transmit d ann bob 1 Oil @2006-01-01 => no contract d
",
    ),
    Row("a binder hides an outer one"),
    Steps(
        "register c = transmit(a, b, r, t | true). transmit(a, c, q, w | a = bob). Success => registered 1
transmit c ann bob 1 Oil @2006-01-01 => recorded 1, may end no
show c => events 1, may end no, ended no, residual transmit(a, c, q, w | a = bob). Success
transmit c ann bob 1 Oil @2006-01-01 => unmatched
transmit c bob ann 1 Oil @2006-01-01 => recorded 2, may end yes
",
    ),
    Row("an event leaves both parts open, and oil comes next"),
    Steps(
        "register c = transmit(a, b, r, t | kind(r) = Oil). Success || transmit(a, b, r, t | kind(r) = Oil). transmit(a, b, r, t | kind(r) = USD). Success => registered 1
transmit c ann bob 1 Oil @2006-01-01 => recorded 1, may end no
show c => events 1, may end no, ended no, residual transmit(a, b, r, t | kind(r) = Oil). transmit(a, b, r, t | kind(r) = USD). Success + transmit(a, b, r, t | kind(r) = Oil). Success || transmit(a, b, r, t | kind(r) = USD). Success
transmit c ann bob 1 Oil @2006-01-01 => recorded 2, may end no
show c => events 2, may end no, ended no, residual transmit(a, b, r, t | kind(r) = USD). Success
",
    ),
    Row("an event leaves both parts open, and dollars come next"),
    Steps(
        "register c = transmit(a, b, r, t | kind(r) = Oil). Success || transmit(a, b, r, t | kind(r) = Oil). transmit(a, b, r, t | kind(r) = USD). Success => registered 1
transmit c ann bob 1 Oil @2006-01-01 => recorded 1, may end no
show c => events 1, may end no, ended no, residual transmit(a, b, r, t | kind(r) = Oil). transmit(a, b, r, t | kind(r) = USD). Success + transmit(a, b, r, t | kind(r) = Oil). Success || transmit(a, b, r, t | kind(r) = USD). Success
transmit c ann bob 1 USD @2006-01-01 => recorded 2, may end no
show c => events 2, may end no, ended no, residual transmit(a, b, r, t | kind(r) = Oil). Success
",
    ),
    Row("parallel parts are grouped to the left, in the order in which they are written"),
    Steps(
        "register c = transmit(a, b, r, t | kind(r) = Oil). Success || (transmit(a, b, r, t | kind(r) = USD). Success || transmit(a, b, r, t | kind(r) = Oil). Success) => registered 1
show c => events 0, may end no, ended no, residual transmit(a, b, r, t | kind(r) = Oil). Success || transmit(a, b, r, t | kind(r) = USD). Success || transmit(a, b, r, t | kind(r) = Oil). Success
transmit c ann bob 1 Oil @2006-01-01 => recorded 1, may end no
show c => events 1, may end no, ended no, residual transmit(a, b, r, t | kind(r) = USD). Success || transmit(a, b, r, t | kind(r) = Oil). Success
",
    ),
    Row("of alternatives that differ in the order of parallel parts the first is kept"),
    Steps(
        "register c = transmit(a, b, r, t | kind(r) = Oil). Success || transmit(a, b, r, t | kind(r) = USD). Success + transmit(a, b, r, t | kind(r) = USD). Success || transmit(a, b, r, t | kind(r) = Oil). Success => registered 1
show c => events 0, may end no, ended no, residual transmit(a, b, r, t | kind(r) = Oil). Success || transmit(a, b, r, t | kind(r) = USD). Success
transmit c ann bob 1 USD @2006-01-01 => recorded 1, may end no
show c => events 1, may end no, ended no, residual transmit(a, b, r, t | kind(r) = Oil). Success
transmit c ann bob 1 Oil @2006-01-01 => recorded 2, may end yes
",
    ),
    Row("a part that may end is passed over"),
    Steps(
        "register c = (Success + transmit(a, b, r, t | kind(r) = Oil). Success) ; transmit(a, b, r, t | kind(r) = USD). Success => registered 1
transmit c ann bob 1 USD @2006-01-01 => recorded 1, may end yes
show c => events 1, may end yes, ended no, residual Success
",
    ),
];
