//! Whole sessions, as they are written, and the histories that are written of them.

use crate::books::HEAD;
use crate::table::Line::{self, Entries, Held, Or, Row, Text};

// A sale with other white space than it is printed with, and brackets that its tree does not ask for.
const SALE: &str = "agents ann, bob;; kinds Oil, USD;; clerk;;
register sale=((transmit(a,b,r,t|(a = ann)and b = bob and r = [007 Oil]).
  transmit(c, d, p, w | c = b and d = a and p = [500 USD] and w <= t + 30). # within thirty days
  Success)+Success);;
transmit sale ann bob 07 Oil @2006-05-03;; transmit sale ann bob 500 USD @2006-05-04;;
transmit sale bob ann 500 USD @2006-05-02;; transmit sale bob ann 500 USD @2006-06-03;;
transmit sale bob ann 500 USD @2006-06-02;;";

const TWICE: &str =
    "agents ann, bob;; kinds Oil, USD;; clerk;; register z = Success;; clerk;; register z = Success;;";

// The first clerk registers the name.
const BY_FIRST: &str = "1 1: register z = Success => registered 1
2 2: register z = Success => name taken by 1
";

// The second clerk registers it.
const BY_SECOND: &str = "1 2: register z = Success => registered 1
2 1: register z = Success => name taken by 1
";

// Four clerks with the same script.
const FOUR_TIMES: &str = "
clerk;; register z = Success;; clerk;; register z = Success;;
clerk;; register z = Success;; clerk;; register z = Success;;";

const ORDER: &str = "agents ann, bob;; kinds Oil, USD;;
clerk;; register c = (transmit(a, b, r, t | r = [7 Oil]). Success || transmit(a, b, r, t | r = [3 Oil]). Success) ; transmit(c, d, p, w | p = [500 USD]). Success;;
transmit c ann bob 3 Oil @2006-05-03;; transmit c bob ann 500 USD @2006-05-04;;
clerk;; transmit c ann bob 7 Oil @2006-05-09;; transmit c bob ann 500 USD @2006-06-02;;";

// Zoe stands before ann, since she comes first in the text.
const ZOE_FIRST: &str = "
template any() = Success + transmit(a, b, r, t | b = zoe or b = ann). any();;
report received(): Int = fold x = 0 with (s, v, r, t) in x + amount(r) by v;;
agents ann, zoe;; kinds Oil;;
clerk;; register c = any();; transmit c zoe ann 2 Oil @2006-01-01;;
transmit c ann zoe 5 Oil @2006-01-01;; tally received();;";

// A flat: the key, the rents in order, and the key back, or what is left of them.
const LEASE: &str = "agents owner, renter;; kinds Key, USD;;
template lease(rent: Int, months: Int, start: Day) =
  transmit(a, b, r, t | a = owner and b = renter and r = [1 Key] and t = start).
  payments(rent, months, start + 30);;
template payments(rent: Int, left: Int, due: Day) =
  transmit(a, b, r, t | left > 0 and a = renter and b = owner and r = res(rent, USD) and t <= due).
  payments(rent, left - 1, due + 30)
  + transmit(a, b, r, t | left = 0 and a = renter and b = owner and r = [1 Key]). Success;;
clerk;; register flat = lease(700, 2, @2006-01-01);;
transmit flat owner renter 1 Key @2006-01-01;; transmit flat renter owner 700 USD @2006-01-31;;
transmit flat renter owner 1 Key @2006-02-01;;
clerk;; transmit flat renter owner 700 USD @2006-03-03;; transmit flat renter owner 700 USD @2006-03-02;;
transmit flat renter owner 700 USD @2006-03-02;; transmit flat renter owner 1 Key @2006-03-31;;";

pub(crate) const RUN: [Line; 44] = [
    Row("an empty text is a session"),
    Text(""),
    Row("a session may have a book and no command"),
    Text("report sum(): Int = fold x = 0 with (s, v, r, t) in x + amount(r);;"),
    Row("a clerk may have no command"),
    Text("agents ann;; clerk;; # a remark"),
    Row("a sale goes step by step"),
    Text(SALE),
    Entries(
        "1 1: register sale = transmit(a, b, r, t | a = ann and b = bob and r = [7 Oil]). transmit(c, d, p, w | c = b and d = a and p = [500 USD] and w <= t + 30). Success + Success => registered 1
2 1: transmit sale ann bob 7 Oil @2006-05-03 => recorded 1, may end no
3 1: transmit sale ann bob 500 USD @2006-05-04 => unmatched
4 1: transmit sale bob ann 500 USD @2006-05-02 => late 2006-05-03
5 1: transmit sale bob ann 500 USD @2006-06-03 => unmatched
6 1: transmit sale bob ann 500 USD @2006-06-02 => recorded 2, may end yes
",
    ),
    Row("two clerks register one name"),
    Text(TWICE),
    Entries(BY_FIRST),
    Or(BY_SECOND),
    Row("the second clerk comes first"),
    Text(TWICE),
    Held((1, 1), (2, 1)),
    Entries(BY_SECOND),
    Row("the first clerk comes first"),
    Text(TWICE),
    Held((2, 1), (1, 1)),
    Entries(BY_FIRST),
    Row("eight clerks come in turn from the last"),
    Text(HEAD),
    Text(FOUR_TIMES),
    Text(FOUR_TIMES),
    Held((1, 1), (2, 1)),
    Held((2, 1), (3, 1)),
    Held((3, 1), (4, 1)),
    Held((4, 1), (5, 1)),
    Held((5, 1), (6, 1)),
    Held((6, 1), (7, 1)),
    Held((7, 1), (8, 1)),
    Entries(
        "1 8: register z = Success => registered 1
2 7: register z = Success => name taken by 1
3 6: register z = Success => name taken by 1
4 5: register z = Success => name taken by 1
5 4: register z = Success => name taken by 1
6 3: register z = Success => name taken by 1
7 2: register z = Success => name taken by 1
8 1: register z = Success => name taken by 1
",
    ),
    Row("two clerks share an order"),
    Text(ORDER),
    Held((2, 1), (1, 3)),
    Entries(
        "1 1: register c = (transmit(a, b, r, t | r = [7 Oil]). Success || transmit(a, b, r, t | r = [3 Oil]). Success) ; transmit(c, d, p, w | p = [500 USD]). Success => registered 1
2 1: transmit c ann bob 3 Oil @2006-05-03 => recorded 1, may end no
3 1: transmit c bob ann 500 USD @2006-05-04 => unmatched
4 2: transmit c ann bob 7 Oil @2006-05-09 => recorded 2, may end no
5 2: transmit c bob ann 500 USD @2006-06-02 => recorded 3, may end yes
",
    ),
    Row("agents stand in the order of the text"),
    Text(ZOE_FIRST),
    Entries(
        "1 1: register c = any() => registered 1
2 1: transmit c zoe ann 2 Oil @2006-01-01 => recorded 1, may end yes
3 1: transmit c ann zoe 5 Oil @2006-01-01 => recorded 2, may end yes
4 1: tally received() => rows {zoe: 5, ann: 2}
",
    ),
    Row("a lease is paid month by month"),
    Text(LEASE),
    Held((2, 1), (1, 4)),
    Entries(
        "1 1: register flat = lease(700, 2, @2006-01-01) => registered 1
2 1: transmit flat owner renter 1 Key @2006-01-01 => recorded 1, may end no
3 1: transmit flat renter owner 700 USD @2006-01-31 => recorded 2, may end no
4 1: transmit flat renter owner 1 Key @2006-02-01 => unmatched
5 2: transmit flat renter owner 700 USD @2006-03-03 => unmatched
6 2: transmit flat renter owner 700 USD @2006-03-02 => recorded 3, may end no
7 2: transmit flat renter owner 700 USD @2006-03-02 => unmatched
8 2: transmit flat renter owner 1 Key @2006-03-31 => recorded 4, may end yes
",
    ),
];
