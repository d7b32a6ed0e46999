//! Portfolios: a report over the events of each of several contracts.

use crate::books::{ANY, MOVED, SUM};
use crate::table::Line::{self, Row, Steps, Text};

const OTHERS: &str = "
report newest(): Day = fold x = @2006-01-01 with (s, v, r, t) in t;;
report share(): Int = fold x = 100 with (s, v, r, t) in x / amount(r);;
report above(n: Int): Int = fold x = 0 with (s, v, r, t) in if amount(r) > n then x + 1 else x end;;
report parted(): Int = fold x = 0 with (s, v, r, t) in x + amount(r) by 12 / amount(r);;
";

// What somebody received, less what he gave.
const NET: &str = "report net(a: Agent): Int = fold x = 0 with (s, v, r, t) in
  if v = a then x + amount(r) else x - amount(r) end;;\n";

pub(crate) const SUMMED: [Line; 14] = [
    Row("each contract has a row"),
    Text(ANY),
    Text(SUM),
    Steps(
        "register c = any() => registered 1
register d = any() => registered 2
transmit c ann bob 5 Oil @2006-01-01 => recorded 1, may end yes
portfolio sum() over c, d => portfolio c 5, d 0, total 5
portfolio sum() over c, q => no contract q
tally sum() => value 5
",
    ),
    Row("a total is that of whole numbers without a key"),
    Text(ANY),
    Text(SUM),
    Text(MOVED),
    Text(OTHERS),
    Steps(
        "register c = any() => registered 1
register d = any() => registered 2
transmit d ann bob 5 Oil @2006-02-01 => recorded 1, may end yes
transmit c bob ann 0 USD @2006-01-05 => recorded 1, may end yes
register e = any() => registered 3
portfolio moved() over c, d, e => portfolio c {USD: 0}, d {Oil: 5}, e {}
portfolio parted() over c, d, e => portfolio c {undefined: 0}, d {2: 5}, e {}
portfolio newest() over d, c, e => portfolio d @2006-02-01, c @2006-01-05, e @2006-01-01
portfolio share() over d, e => portfolio d 20, e 100, total 120
portfolio share() over d, c, e => portfolio d 20, c undefined, e 100, total undefined
portfolio sum() over d, c, d, e, d => portfolio d 5, c 0, d 5, e 0, d 5, total 15
portfolio above(1 / 0) over e, d => portfolio e 0, d undefined, total undefined
portfolio sum() over p, c, q => no contract p
portfolio sum() over c, q, p => no contract q
",
    ),
    Row("a total is exact or undefined"),
    Text(ANY),
    Text(NET),
    Steps(
        "register c = any() => registered 1
register d = any() => registered 2
register e = any() => registered 3
transmit c ann bob 9223372036854775807 Oil @2006-01-01 => recorded 1, may end yes
transmit d ann bob 1 Oil @2006-01-01 => recorded 1, may end yes
transmit e bob ann 3 Oil @2006-01-01 => recorded 1, may end yes
portfolio net(bob) over c, d => portfolio c 9223372036854775807, d 1, total undefined
portfolio net(bob) over c, d, e => portfolio c 9223372036854775807, d 1, e -3, total 9223372036854775805
portfolio net(ann) over c, d => portfolio c -9223372036854775807, d -1, total undefined
portfolio net(ann) over c, d, e => portfolio c -9223372036854775807, d -1, e 3, total -9223372036854775805
",
    ),
];
