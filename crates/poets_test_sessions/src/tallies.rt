//! Tallies: reports over all recorded events.

use crate::books::{ANY, MOVED, SUM};
use crate::table::Line::{self, Row, Steps, Text};

// The key of the first event is undefined in `known` and in `large`.
const KEYS: &str = "
report received(): Int = fold x = 0 with (s, v, r, t) in x + amount(r) by v;;
report known(): Int = fold x = 0 with (s, v, r, t) in x + amount(r)
  by if amount(r) > 2 then v else undefined Agent end;;
report large(): Int = fold x = 0 with (s, v, r, t) in x + 1 by 12 / (amount(r) - 2) > 3;;
report by_number(): Int = fold x = 0 with (s, v, r, t) in x + 1 by amount(r) - 4;;
report by_day(): Int = fold x = 0 with (s, v, r, t) in x + amount(r) by t;;
report by_resource(): Int = fold x = 0 with (s, v, r, t) in x + 1 by r;;
";

const LAST: &str = "report last(): Int = fold x = 0 with (s, v, r, t) in amount(r);;\n";

const ARGUMENTS: &str = "
report above(n: Int): Int = fold x = 0 with (s, v, r, t) in if amount(r) > n then x + amount(r) else x end;;
report counted_from(n: Int): Int = fold x = n with (s, v, r, t) in x + amount(r);;
";

const STARTS: &str = "
report lost(): Int = fold x = 1 / 0 with (s, v, r, t) in x + amount(r);;
report lost_by_kind(): Int = fold x = 1 / 0 with (s, v, r, t) in x + amount(r) by kind(r);;
report newest(): Int = fold x = undefined Int with (s, v, r, t) in amount(r);;
";

// The fold name hides the parameter in the step, and not in the key.
const SINCE: &str =
    "report since(x: Day): Int = fold x = 0 with (s, v, r, t) in x + amount(r) by t >= x;;\n";

const TYPES: &str = "
report paid(): Bool = fold x = false with (s, v, r, t) in x or kind(r) = USD;;
report taker(): Agent = fold x = ann with (s, v, r, t) in v;;
report newest_kind(): Kind = fold x = Oil with (s, v, r, t) in kind(r);;
report largest(): Resource = fold x = [-1 Oil] with (s, v, r, t) in if amount(r) > amount(x) then r else x end;;
report newest_day(): Day = fold x = @0001-01-01 with (s, v, r, t) in t;;
";

pub(crate) const TALLIED: [Line; 30] = [
    Row("a sum past the whole numbers is undefined"),
    Text(ANY),
    Text(MOVED),
    Steps(
        "tally moved() => rows {}
register c = any() => registered 1
transmit c ann bob 9223372036854775807 Oil @2006-01-01 => recorded 1, may end yes
tally moved() => rows {Oil: 9223372036854775807}
transmit c ann bob 1 Oil @2006-01-01 => recorded 2, may end yes
tally moved() => rows {Oil: undefined}
",
    ),
    Row("rows stand in the order of their keys"),
    Text(ANY),
    Text(KEYS),
    Steps(
        "register c = any() => registered 1
transmit c bob ann 2 USD @2006-01-01 => recorded 1, may end yes
transmit c ann bob 5 Oil @2006-01-01 => recorded 2, may end yes
transmit c bob ann 4 USD @2006-01-03 => recorded 3, may end yes
transmit c ann bob 8 Oil @2006-01-03 => recorded 4, may end yes
tally received() => rows {ann: 6, bob: 13}
tally known() => rows {ann: 4, bob: 13, undefined: 2}
tally large() => rows {false: 1, true: 2, undefined: 1}
tally by_number() => rows {-2: 1, 0: 1, 1: 1, 4: 1}
tally by_day() => rows {@2006-01-01: 7, @2006-01-03: 12}
tally by_resource() => rows {[5 Oil]: 1, [8 Oil]: 1, [2 USD]: 1, [4 USD]: 1}
",
    ),
    Row("events come in the order of recording"),
    Text(ANY),
    Text(LAST),
    Text(SUM),
    Text(MOVED),
    Steps(
        "register c = any() => registered 1
register d = any() => registered 2
transmit d ann bob 5 Oil @2006-03-01 => recorded 1, may end yes
end d => ended now
transmit c ann bob 2 USD @2006-01-01 => recorded 1, may end yes
transmit c ann bob 7 Oil @2005-12-31 => late 2006-01-01
tally last() => value 2
tally sum() => value 7
tally moved() => rows {Oil: 5, USD: 2}
",
    ),
    Row("an argument may be undefined"),
    Text(ANY),
    Text(ARGUMENTS),
    Steps(
        "register c = any() => registered 1
tally above(1 / 0) => value 0
tally counted_from(1 / 0) => value undefined
transmit c ann bob 5 Oil @2006-01-01 => recorded 1, may end yes
tally above(2) => value 5
tally above(1 / 0) => value undefined
tally above(undefined Int) => value undefined
tally counted_from(9223372036854775807 + 1) => value undefined
tally counted_from(-(7)) => value -2
",
    ),
    Row("a start may be undefined"),
    Text(ANY),
    Text(STARTS),
    Steps(
        "tally lost() => value undefined
tally lost_by_kind() => rows {}
tally newest() => value undefined
register c = any() => registered 1
transmit c ann bob 5 Oil @2006-01-01 => recorded 1, may end yes
tally lost() => value undefined
tally lost_by_kind() => rows {Oil: undefined}
tally newest() => value 5
",
    ),
    Row("a key does not see the fold name"),
    Text(ANY),
    Text(SINCE),
    Steps(
        "register c = any() => registered 1
transmit c ann bob 2 Oil @2006-01-01 => recorded 1, may end yes
transmit c ann bob 5 Oil @2006-01-02 => recorded 2, may end yes
transmit c ann bob 4 Oil @2006-01-03 => recorded 3, may end yes
tally since(@2006-01-02) => rows {false: 2, true: 9}
",
    ),
    Row("a report has a value of its type"),
    Text(ANY),
    Text(TYPES),
    Steps(
        "tally paid() => value false
tally taker() => value ann
tally newest_kind() => value Oil
tally largest() => value [-1 Oil]
tally newest_day() => value @0001-01-01
register c = any() => registered 1
transmit c ann bob 7 USD @2006-01-02 => recorded 1, may end yes
tally paid() => value true
tally taker() => value bob
tally newest_kind() => value USD
tally largest() => value [7 USD]
tally newest_day() => value @2006-01-02
",
    ),
];
