//! The total of a portfolio.
ghost use Rattle.std.specs.Prelude.{◌≡◌, ◌^◌, ◌-◌, ◌+ℤ◌, ◌-ℤ◌, ◌≤ℤ◌, neg_ℤ, map, IfSome, pos};
ghost use Rattle.poets_expr.specs.Val as val;
ghost use Rattle.poets_report.specs.Reports.{report_of};
ghost use Rattle.poets_command.specs.Calls.{folio_row_of};
ghost use Rattle.poets_command.specs.Totals.{total_of};
ghost use Rattle.poets_folio.specs.code.Sums.{Adds, sum_of};

use poets_report::{Answer, Report};
use poets_value::{Name, Ty, Value};

/// The sum of the rows, for a report of whole numbers without a key.
pub(crate) fn total(report: &Report, rows: &[(Name, Answer)]) -> Option<Option<Value>>
    ensures { result ≡ total_of (report_of report.now) (map folio_row_of rows.now) }
{
    if report.key.is_some() {
        return None;
    }
    match report.ty {
        Ty::Int => Some(sum(rows)),
        _ => None,
    }
}

// The exact sum, none where a row is undefined or the sum is no whole number of the language.
fn sum(rows: &[(Name, Answer)]) -> Option<Value>
    ensures { result ≡ sum_of rows.now }
{
    let mut sum: i128 = 0;
    for row in rows {
        sum = plus(sum, number(&row.1)?);
    }
    whole(sum)
}

// The sum with one number more.
fn plus(sum: i128, number: i64) -> i128
    requires { (neg_ℤ (pos (2 ^ 126)) ≤ℤ sum) × (sum ≤ℤ pos (2 ^ 126)) }
    ensures sum { result ≡ sum +ℤ number }
    ensures least { (sum -ℤ pos (2 ^ 63)) ≤ℤ result }
    ensures greatest { result ≤ℤ (sum +ℤ pos (2 ^ 63)) }
{
    sum + number as i128
}

// The answer's whole number.
fn number(answer: &Answer) -> Option<i64>
    ensures adds { Adds answer.now result }
    ensures range { IfSome result (λ n. (neg_ℤ (pos (2 ^ 63)) ≤ℤ n) × (n ≤ℤ pos (2 ^ 63 - 1))) }
{
    match answer {
        Answer::Single(Some(Value::Int(number))) => Some(*number),
        _ => None,
    }
}

// The value, where the number is a whole number of the language.
fn whole(number: i128) -> Option<Value>
    ensures { result ≡ val.whole number }
{
    if number < -(i64::MAX as i128) {
        return None;
    }
    match i64::try_from(number) {
        Ok(number) => Some(Value::Int(number)),
        Err(_) => None,
    }
}
