//! The operators on values.
ghost use Rattle.std.specs.Prelude.{◌≡◌, pos, ◌+ℤ◌, ◌-ℤ◌, ◌*ℤ◌, neg_ℤ, int_div, int_rem, int_lt, int_le, ◌≢◌};
ghost use Rattle.poets_expr.specs.Val.{day_at, sum, difference, product, divided, equal, resource_of, ordered, if_equal, bool_eq};
ghost use Rattle.poets_expr.specs.Val as val;
ghost use Rattle.poets_expr.specs.Env.{same_name};

use crate::expr::Op;
use poets_value::{Day, Name, Resource, Value};

// The whole number, or none for the least `i64`.
fn whole(n: i64) -> Option<Value>
    ensures { result ≡ val.whole n }
{
    if n == i64::MIN {
        None
    } else {
        Some(Value::Int(n))
    }
}

// The day so many days before a day.
fn days_before(day: Day, count: i64) -> Option<Value>
    ensures { result ≡ day_at (day -ℤ count) }
{
    let number = day.number().checked_sub(count)?;
    Some(Value::Day(Day::from_number(number)?))
}

fn add(x: Value, y: Value) -> Option<Value>
    ensures { result ≡ sum x y }
{
    match (&x, &y) {
        (Value::Int(x), Value::Int(y)) => whole(x.checked_add(*y)?),
        (Value::Day(x), Value::Int(y)) => Some(Value::Day(x.plus_days(*y)?)),
        _ => None,
    }
}

fn subtract(x: Value, y: Value) -> Option<Value>
    ensures { result ≡ difference x y }
{
    match (&x, &y) {
        (Value::Int(x), Value::Int(y)) => whole(x.checked_sub(*y)?),
        (Value::Day(x), Value::Int(y)) => days_before(*x, *y),
        (Value::Day(x), Value::Day(y)) => whole(x.number() - y.number()),
        _ => None,
    }
}

fn multiply(x: Value, y: Value) -> Option<Value>
    ensures { result ≡ product x y }
{
    match (x, y) {
        (Value::Int(x), Value::Int(y)) => whole(x.checked_mul(y)?),
        _ => None,
    }
}

fn divide(x: Value, y: Value) -> Option<Value>
    ensures { result ≡ divided int_div x y }
{
    match (x, y) {
        (Value::Int(x), Value::Int(y)) => whole(x.checked_div(y)?),
        _ => None,
    }
}

// A remainder is never the least `i64`, but the division that goes with it can be out of range.
fn remainder(x: Value, y: Value) -> Option<Value>
    ensures { result ≡ divided int_rem x y }
{
    match (x, y) {
        (Value::Int(_), Value::Int(0)) => None,
        (Value::Int(_), Value::Int(-1)) => Some(Value::Int(0)),
        (Value::Int(x), Value::Int(y)) => Some(Value::Int(x % y)),
        _ => None,
    }
}

// Whether two values of one type are equal.
fn equals(x: Value, y: Value) -> Option<bool>
    ensures { result ≡ equal x y }
{
    match (&x, &y) {
        (Value::Int(x), Value::Int(y)) => Some(x == y),
        (Value::Bool(x), Value::Bool(y)) => Some(x == y),
        (Value::Agent(x), Value::Agent(y)) => Some(x == y),
        (Value::Kind(x), Value::Kind(y)) => Some(x == y),
        (Value::Resource(x), Value::Resource(y)) => Some(x == y),
        (Value::Day(x), Value::Day(y)) => Some(x == y),
        _ => None,
    }
}

// Whether the answer to "are they equal" is the wanted one.
fn when_equal(x: Value, y: Value, wanted: bool) -> Option<Value>
    ensures { result ≡ if_equal (λ b. bool_eq b wanted) (equal x y) }
{
    Some(Value::Bool(equals(x, y)? == wanted))
}

fn less(x: Value, y: Value) -> Option<Value>
    ensures { result ≡ ordered int_lt x y }
{
    match (&x, &y) {
        (Value::Int(x), Value::Int(y)) => Some(Value::Bool(x < y)),
        (Value::Day(x), Value::Day(y)) => Some(Value::Bool(x < y)),
        _ => None,
    }
}

fn at_most(x: Value, y: Value) -> Option<Value>
    ensures { result ≡ ordered int_le x y }
{
    match (&x, &y) {
        (Value::Int(x), Value::Int(y)) => Some(Value::Bool(x <= y)),
        (Value::Day(x), Value::Day(y)) => Some(Value::Bool(x <= y)),
        _ => None,
    }
}

// The value of an operator other than `and` and `or` at its operands' values.
pub(crate) fn binary(op: Op, x: Value, y: Value) -> Option<Value>
    requires and { op ≢ Op.And }
    requires or { op ≢ Op.Or }
    ensures { result ≡ val.binary op (Some x) (Some y) }
{
    match op {
        Op::Add => add(x, y),
        Op::Sub => subtract(x, y),
        Op::Mul => multiply(x, y),
        Op::Div => divide(x, y),
        Op::Rem => remainder(x, y),
        Op::Eq => when_equal(x, y, true),
        Op::Ne => when_equal(x, y, false),
        Op::Lt => less(x, y),
        Op::Le => at_most(x, y),
        Op::Gt => less(y, x),
        Op::Ge => at_most(y, x),
        Op::And | Op::Or => unreachable!(),
    }
}

// The truth value, or none for a value of another type.
pub(crate) fn truth_value(x: Value) -> Option<Value>
    ensures { result ≡ val.truth_value (Some x) }
{
    match x {
        Value::Bool(b) => Some(Value::Bool(b)),
        _ => None,
    }
}

// The resource of an amount and a kind.
pub(crate) fn make(x: Value, y: Value) -> Option<Value>
    ensures { result ≡ resource_of x y }
{
    match (x, y) {
        (Value::Int(amount), Value::Kind(kind)) => {
            Some(Value::Resource(Resource { amount, kind }))
        }
        _ => None,
    }
}
