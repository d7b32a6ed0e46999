//! Watches: reports that are kept live.

use crate::books::{ANY, MOVED, SUM};
use crate::table::Line::{self, Row, Steps, Text};

const ABOVE: &str = "report above(n: Int): Int = fold x = 0 with (s, v, r, t) in
  if amount(r) > n then x + amount(r) else x end;;\n";

pub(crate) const WATCHED: [Line; 14] = [
    Row("a watch sees events before and after it"),
    Text(ANY),
    Text(MOVED),
    Steps(
        "register c = any() => registered 1
transmit c ann bob 5 Oil @2006-01-01 => recorded 1, may end yes
watch moved() => watching 1
transmit c ann bob 2 Oil @2006-01-02 => recorded 2, may end yes
read 1 => rows {Oil: 7}
read 2 => no watch 2
",
    ),
    Row("watches keep apart"),
    Text(ANY),
    Text(SUM),
    Text(MOVED),
    Text(ABOVE),
    Steps(
        "read 1 => no watch 1
watch sum() => watching 1
read 0 => no watch 0
read 1 => value 0
register c = any() => registered 1
transmit c ann bob 5 Oil @2006-01-02 => recorded 1, may end yes
read 1 => value 5
watch moved() => watching 2
watch above(4) => watching 3
watch above(1 / 0) => watching 4
transmit c ann bob 9 Oil @2006-01-01 => late 2006-01-02
transmit c bob ann 2 USD @2006-01-02 => recorded 2, may end yes
read 1 => value 7
read 2 => rows {Oil: 5, USD: 2}
read 3 => value 5
read 4 => value undefined
read 5 => no watch 5
watch sum() => watching 5
read 5 => value 7
",
    ),
    Row("a watch may have no event"),
    Text(MOVED),
    Text(ABOVE),
    Steps(
        "watch above(1 / 0) => watching 1
watch moved() => watching 2
read 1 => value 0
read 2 => rows {}
",
    ),
];
