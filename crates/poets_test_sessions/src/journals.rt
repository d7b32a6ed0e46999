//! Journals, replayed.

use crate::books::{ANY, HEAD, MOVED, SUM};
use crate::table::Line::{self, Entries, Row, Text};

const SECOND_FIRST: &str =
    "agents ann, bob;; kinds Oil, USD;; journal;; 2: register z = Success;; 1: register z = Success;;";

const FIRST_FIRST: &str =
    "agents ann, bob;; kinds Oil, USD;; journal;; 01: register z = Success;; 2: register z = Success;;";

const PRINTED: &str =
    "agents ann, bob;; kinds Oil, USD;; journal;; 1: register z = Success;; 2: register z = Success;;";

const DELIVERY: &str = "agents ann, bob;; kinds Oil, USD;; journal;;
64: register c = transmit(a, b, r, t | r = [7 Oil]). Success;; 3: end c;;
3: transmit c ann bob 7 Oil @2006-05-03;; 64: end c;; 1: show c;;";

const REPORTED: &str = "journal;;
1: register c = any();; 2: transmit c ann bob 5 Oil @2006-01-01;; 3: tally moved();;
1: watch sum();; 2: transmit c ann bob 2 USD @2006-01-01;; 2: portfolio sum() over c;; 64: read 1;;";

const WITHDRAWN: &str = "journal;;
1: register c = any();; 2: transmit c ann bob 5 Oil @2006-01-01;; 3: void c 01;; 2: void c 1;;
2: transmit c ann bob 4 Oil @2005-01-01;; 3: tally sum();;";

pub(crate) const REPLAYED: [Line; 27] = [
    Row("calls are made in the order of the journal, the second clerk first"),
    Text(SECOND_FIRST),
    Entries(
        "1 2: register z = Success => registered 1
2 1: register z = Success => name taken by 1
",
    ),
    Row("calls are made in the order of the journal, the first clerk first"),
    Text(FIRST_FIRST),
    Entries(
        "1 1: register z = Success => registered 1
2 2: register z = Success => name taken by 1
",
    ),
    Row("calls are made in the order of the journal, with clerks as they are printed"),
    Text(PRINTED),
    Entries(
        "1 1: register z = Success => registered 1
2 2: register z = Success => name taken by 1
",
    ),
    Row("a journal may have no call"),
    Text("journal;;"),
    Row("a journal names any clerk"),
    Text(DELIVERY),
    Entries(
        "1 64: register c = transmit(a, b, r, t | r = [7 Oil]). Success => registered 1
2 3: end c => not performed
3 3: transmit c ann bob 7 Oil @2006-05-03 => recorded 1, may end yes
4 64: end c => ended now
5 1: show c => events 1, may end yes, ended yes, residual Success
",
    ),
    Row("a journal asks for reports"),
    Text(HEAD),
    Text(ANY),
    Text(MOVED),
    Text(SUM),
    Text(REPORTED),
    Entries(
        "1 1: register c = any() => registered 1
2 2: transmit c ann bob 5 Oil @2006-01-01 => recorded 1, may end yes
3 3: tally moved() => rows {Oil: 5}
4 1: watch sum() => watching 1
5 2: transmit c ann bob 2 USD @2006-01-01 => recorded 2, may end yes
6 2: portfolio sum() over c => portfolio c 7, total 7
7 64: read 1 => value 7
",
    ),
    Row("one clerk withdraws what another recorded"),
    Text(HEAD),
    Text(ANY),
    Text(SUM),
    Text(WITHDRAWN),
    Entries(
        "1 1: register c = any() => registered 1
2 2: transmit c ann bob 5 Oil @2006-01-01 => recorded 1, may end yes
3 3: void c 1 => voided, events 0, may end yes
4 2: void c 1 => no event 1
5 2: transmit c ann bob 4 Oil @2005-01-01 => recorded 1, may end yes
6 3: tally sum() => value 4
",
    ),
];
