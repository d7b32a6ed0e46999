//! Withdrawals: an event is taken out of a contract's trace.

use crate::books::{ANY, MOVED, SALE, SUM};
use crate::table::Line::{self, Row, Steps, Text};
use crate::wide::DOUBLES;

// A first amount of 2 leaves `d9()`, which spreads too far, beside an oil of 3. After a first amount of 1 and then 2
// anything may come.
const STAGES: &str = "template first() = transmit(a, b, r, t | amount(r) = 1). second()
  + transmit(a, b, r, t | amount(r) = 2). (d9() + transmit(c, d, p, w | p = [3 Oil]). Success);;
template second() = transmit(a, b, r, t | amount(r) = 2). any();;
";

// After a first amount of 1 a second one of 3 leaves nothing but `d9()`.
const BRANCHES: &str =
    "template branches() = transmit(a, b, r, t | amount(r) = 1). (transmit(c, d, p, w | amount(p) = 2). any()
  + transmit(c, d, p, w | amount(p) = 3). d9());;
";

const REPORTS: &str = "
report parted(): Int = fold x = 0 with (s, v, r, t) in x + 1 by 12 / amount(r);;
report last(): Int = fold x = 0 with (s, v, r, t) in amount(r);;
report above(n: Int): Int = fold x = 0 with (s, v, r, t) in if amount(r) > n then x + amount(r) else x end;;
";

pub(crate) const WITHDRAWN: [Line; 39] = [
    Row("a withdrawn event is in no report"),
    Text(ANY),
    Text(SUM),
    Steps(
        "register c = any() => registered 1
watch sum() => watching 1
transmit c ann bob 5 Oil @2006-01-01 => recorded 1, may end yes
transmit c ann bob 7 Oil @2006-01-03 => recorded 2, may end yes
void c 2 => voided, events 1, may end yes
read 1 => value 5
transmit c ann bob 1 Oil @2006-01-02 => recorded 2, may end yes
void c 3 => no event 3
tally sum() => value 6
",
    ),
    Row("an event on which a later one rests is not withdrawn"),
    Text(SALE),
    Steps(
        "register deal = sale(ann, bob, 7) => registered 1
transmit deal ann bob 7 Oil @2006-05-03 => recorded 1, may end no
show deal => events 1, may end no, ended no, residual transmit(u, v, p, w | u = bob and v = ann and kind(p) = USD and w <= @2006-05-03 + 30). Success
transmit deal bob ann 500 USD @2006-06-02 => recorded 2, may end yes
void deal 1 => unmatched
void deal 2 => voided, events 1, may end no
show deal => events 1, may end no, ended no, residual transmit(u, v, p, w | u = bob and v = ann and kind(p) = USD and w <= @2006-05-03 + 30). Success
",
    ),
    Row("a contract whose events are all withdrawn begins anew"),
    Text(SALE),
    Steps(
        "register deal = sale(ann, bob, 7) => registered 1
transmit deal ann bob 7 Oil @2006-05-03 => recorded 1, may end no
transmit deal bob ann 500 USD @2006-06-02 => recorded 2, may end yes
void deal 2 => voided, events 1, may end no
end deal => not performed
void deal 1 => voided, events 0, may end no
show deal => events 0, may end no, ended no, residual sale(ann, bob, 7)
transmit deal ann bob 7 Oil @2006-05-01 => recorded 1, may end no
transmit deal bob ann 500 USD @2006-06-01 => unmatched
transmit deal bob ann 500 USD @2006-05-31 => recorded 2, may end yes
void deal 1 => unmatched
end deal => ended now
void deal 1 => ended
",
    ),
    Row("there is a contract, it is not ended, and it has the place"),
    Text(ANY),
    Steps(
        "void c 0 => no contract c
register c = any() => registered 1
void c 0 => no event 0
void c 1 => no event 1
transmit c ann bob 5 Oil @2006-01-01 => recorded 1, may end yes
void c 0 => no event 0
void c 2 => no event 2
void c 9223372036854775807 => no event 9223372036854775807
void d 1 => no contract d
end c => ended now
void c 0 => ended
void c 1 => ended
void c 2 => ended
void d 1 => no contract d
show c => events 1, may end yes, ended yes, residual any()
",
    ),
    // Without its first event the contract goes by `d9()`. It does so too where later events leave little, or nothing.
    Row("what is too large on the way is told ahead of what is unmatched"),
    Text(ANY),
    Text(DOUBLES),
    Text(STAGES),
    Text(SUM),
    Steps(
        "register c = first() => registered 1
watch sum() => watching 1
transmit c ann bob 1 Oil @2006-01-01 => recorded 1, may end no
transmit c ann bob 2 Oil @2006-01-02 => recorded 2, may end yes
void c 1 => too large
transmit c ann bob 3 Oil @2006-01-03 => recorded 3, may end yes
void c 1 => too large
transmit c ann bob 4 Oil @2006-01-04 => recorded 4, may end yes
void c 1 => too large
void c 2 => unmatched
show c => events 4, may end yes, ended no, residual any()
read 1 => value 10
tally sum() => value 10
transmit c ann bob 5 Oil @2006-01-03 => late 2006-01-04
void c 4 => voided, events 3, may end yes
void c 3 => voided, events 2, may end yes
void c 2 => voided, events 1, may end no
show c => events 1, may end no, ended no, residual second()
read 1 => value 1
",
    ),
    Row("one withdrawal is unmatched, and another of the same contract too large"),
    Text(ANY),
    Text(DOUBLES),
    Text(BRANCHES),
    Steps(
        "register c = branches() => registered 1
transmit c ann bob 1 Oil @2006-01-01 => recorded 1, may end no
transmit c ann bob 2 Oil @2006-01-01 => recorded 2, may end yes
transmit c ann bob 3 Oil @2006-01-01 => recorded 3, may end yes
void c 1 => unmatched
void c 2 => too large
void c 3 => voided, events 2, may end yes
",
    ),
    Row("a place is one of the contract's trace"),
    Text(ANY),
    Text(SUM),
    Text(MOVED),
    Steps(
        "register c = any() => registered 1
register d = any() => registered 2
watch sum() => watching 1
watch moved() => watching 2
transmit d ann bob 1 Oil @2006-01-01 => recorded 1, may end yes
transmit c ann bob 10 USD @2006-01-01 => recorded 1, may end yes
transmit d ann bob 100 Oil @2006-01-01 => recorded 2, may end yes
transmit c ann bob 1000 Oil @2006-01-01 => recorded 2, may end yes
void c 1 => voided, events 1, may end yes
read 1 => value 1101
read 2 => rows {Oil: 1101}
portfolio sum() over c, d => portfolio c 1000, d 101, total 1101
void c 2 => no event 2
void d 2 => voided, events 1, may end yes
read 1 => value 1001
portfolio moved() over c, d => portfolio c {Oil: 1000}, d {Oil: 1}
void d 1 => voided, events 0, may end yes
portfolio moved() over c, d => portfolio c {Oil: 1000}, d {}
tally sum() => value 1000
",
    ),
    Row("a key whose events are all withdrawn has no row"),
    Text(ANY),
    Text(MOVED),
    Text(REPORTS),
    Steps(
        "register c = any() => registered 1
transmit c ann bob 5 Oil @2006-01-01 => recorded 1, may end yes
watch moved() => watching 1
watch parted() => watching 2
transmit c bob ann 3 USD @2006-01-01 => recorded 2, may end yes
transmit c ann bob 0 Oil @2006-01-01 => recorded 3, may end yes
read 1 => rows {Oil: 5, USD: 3}
read 2 => rows {2: 1, 4: 1, undefined: 1}
void c 3 => voided, events 2, may end yes
read 2 => rows {2: 1, 4: 1}
void c 1 => voided, events 1, may end yes
read 1 => rows {USD: 3}
tally moved() => rows {USD: 3}
portfolio parted() over c => portfolio c {4: 1}
void c 1 => voided, events 0, may end yes
read 1 => rows {}
read 2 => rows {}
transmit c ann bob 2 Oil @2005-01-01 => recorded 1, may end yes
read 1 => rows {Oil: 2}
",
    ),
    Row("what was undefined by an event is defined without it"),
    Text(ANY),
    Text(SUM),
    Text(REPORTS),
    Steps(
        "register c = any() => registered 1
watch sum() => watching 1
watch last() => watching 2
watch above(1 / 0) => watching 3
transmit c ann bob 9223372036854775807 Oil @2006-01-01 => recorded 1, may end yes
transmit c ann bob 4 Oil @2006-01-01 => recorded 2, may end yes
transmit c ann bob 6 Oil @2006-01-01 => recorded 3, may end yes
read 1 => value undefined
void c 1 => voided, events 2, may end yes
read 1 => value 10
read 2 => value 6
read 3 => value undefined
portfolio sum() over c => portfolio c 10, total 10
void c 2 => voided, events 1, may end yes
read 2 => value 4
void c 1 => voided, events 0, may end yes
read 1 => value 0
read 2 => value 0
read 3 => value 0
",
    ),
];
