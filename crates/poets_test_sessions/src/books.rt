//! Books that `check` accepts, and the templates and reports that other rows share.

use crate::table::Line::{self, Row, Text, Written};

/// The agents and the kinds of most tests.
pub(crate) const HEAD: &str = "agents ann, bob;; kinds Oil, USD;;\n";

/// So much oil, and then dollars for it within thirty days.
pub(crate) const SALE: &str = "template sale(s: Agent, b: Agent, n: Int) =
  transmit(x, y, r, t | x = s and y = b and r = res(n, Oil)).
  transmit(u, v, p, w | u = b and v = s and kind(p) = USD and w <= t + 30). Success;;
";

/// The second amount is a quotient by 0: no event has it.
pub(crate) const QUOTIENT: &str =
    "template f(n: Int) = Success + transmit(a, b, r, t | amount(r) = n). f(n / 0);;\n";

/// Any events.
pub(crate) const ANY: &str = "template any() = Success + transmit(a, b, r, t | true). any();;\n";

/// The sum of all amounts.
pub(crate) const SUM: &str =
    "report sum(): Int = fold x = 0 with (s, v, r, t) in x + amount(r);;\n";

/// The sum of the amounts of each kind.
pub(crate) const MOVED: &str =
    "report moved(): Int = fold x = 0 with (s, v, r, t) in x + amount(r) by kind(r);;\n";

// Books that `check` accepts.
pub(crate) const BOOKS: [Line; 19] = [
    Row("a book is counted"),
    Text(HEAD),
    Text(SALE),
    Text(QUOTIENT),
    Text(ANY),
    Text(MOVED),
    Text(SUM),
    Written("book: templates 3, reports 2\n"),
    Row("a book sees what is declared after"),
    Text(SALE),
    Text(MOVED),
    Text(HEAD),
    Written("book: templates 1, reports 1\n"),
    Row("a small book is accepted"),
    Text("template h() = transmit(a, b, r, t | true). h() + Success;;"),
    Written("book: templates 1, reports 0\n"),
    Row("an empty book is accepted"),
    Text(""),
    Written("book: templates 0, reports 0\n"),
];
