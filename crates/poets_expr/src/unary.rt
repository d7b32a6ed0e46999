//! The operators of one operand.
ghost use Rattle.std.specs.Prelude.{◌≡◌};
ghost use Rattle.poets_expr.specs.Expression.{Minus, Not, AmountOf, KindOf};
ghost use Rattle.poets_expr.specs.Val.{unary as unary_value};

use poets_value::Value;

pub(crate) fn negation(x: Value) -> Option<Value>
    ensures { result ≡ unary_value Minus (Some x) }
{
    match x {
        Value::Int(n) if n != i64::MIN => Some(Value::Int(-n)),
        _ => None,
    }
}

pub(crate) fn inverse(x: Value) -> Option<Value>
    ensures { result ≡ unary_value Not (Some x) }
{
    match x {
        Value::Bool(b) => Some(Value::Bool(!b)),
        _ => None,
    }
}

pub(crate) fn amount(x: Value) -> Option<Value>
    ensures { result ≡ unary_value AmountOf (Some x) }
{
    match x {
        Value::Resource(r) => Some(Value::Int(r.amount)),
        _ => None,
    }
}

pub(crate) fn kind(x: Value) -> Option<Value>
    ensures { result ≡ unary_value KindOf (Some x) }
{
    match x {
        Value::Resource(r) => Some(Value::Kind(r.kind)),
        _ => None,
    }
}
