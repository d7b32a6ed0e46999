//! The value of an expression.
ghost use Rattle.std.specs.Prelude.{◌≡◌, ◌≤◌};
ghost use Rattle.poets_expr.specs.Asked.{one_more};
ghost use Rattle.poets_expr.specs.OfExpr.{value_of_expr};

use crate::arith::{binary, make, truth_value};
use crate::env::{Asks, Env};
use crate::expr::{Expr, Op};
use crate::unary;
use poets_value::Value;

/// The value of an expression, or none where it is undefined. It counts as one evaluation.
pub fn eval<L>(env: &Env, e: &Expr, asks: &mut Asks<L>) -> Option<Value>
    ensures value { result ≡ value_of_expr env.now e.now }
    ensures asks { asks.new ≡ one_more asks.old }
    ensures rises { asks.old ≤ asks.new }
{
    asks.one_more();
    value_of(env, e)
}

fn value_of(env: &Env, e: &Expr) -> Option<Value>
    ensures { result ≡ value_of_expr env.now e.now }
{
    match e {
        Expr::Int(n) => Some(Value::Int(*n)),
        Expr::Bool(b) => Some(Value::Bool(*b)),
        Expr::Day(day) => Some(Value::Day(*day)),
        Expr::Res(resource) => Some(Value::Resource(*resource)),
        Expr::Undefined(_) => None,
        Expr::Name(name) => env.value(*name),
        Expr::Neg(a) => unary::negation(value_of(env, a)?),
        Expr::Not(a) => unary::inverse(value_of(env, a)?),
        Expr::Amount(a) => unary::amount(value_of(env, a)?),
        Expr::KindOf(a) => unary::kind(value_of(env, a)?),
        Expr::Make(a, b) => make(value_of(env, a)?, value_of(env, b)?),
        Expr::Op(Op::And, a, b) => match value_of(env, a)? {
            Value::Bool(true) => truth_value(value_of(env, b)?),
            first => truth_value(first),
        },
        Expr::Op(Op::Or, a, b) => match value_of(env, a)? {
            Value::Bool(false) => truth_value(value_of(env, b)?),
            first => truth_value(first),
        },
        Expr::Op(op, a, b) => binary(*op, value_of(env, a)?, value_of(env, b)?),
        Expr::If(a, b, c) => match value_of(env, a)? {
            Value::Bool(true) => value_of(env, b),
            Value::Bool(false) => value_of(env, c),
            _ => None,
        },
    }
}
