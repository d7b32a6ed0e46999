//! Expressions.

use poets_value::{Day, Name, Resource, Ty, Value};

/// An operator of two operands.
#[derive(Debug, Clone, Copy, PartialEq, Eq)]
pub enum Op {
    /// `x + y`
    Add,
    /// `x - y`
    Sub,
    /// `x * y`
    Mul,
    /// `x / y`, towards zero
    Div,
    /// `x % y`, with the sign of `x`
    Rem,
    /// `x = y`
    Eq,
    /// `x <> y`
    Ne,
    /// `x < y`
    Lt,
    /// `x <= y`
    Le,
    /// `x > y`
    Gt,
    /// `x >= y`
    Ge,
    /// `x and y`
    And,
    /// `x or y`
    Or,
}

/// An expression of `docs/LANGUAGE.md`, "Values".
#[derive(Debug, PartialEq, Eq, Drop)]
pub enum Expr {
    /// A number.
    Int(i64),
    /// `true` or `false`
    Bool(bool),
    /// A day, `@2006-05-03`.
    Day(Day),
    /// A resource, `[5 USD]`.
    Res(Resource),
    /// `undefined T`
    Undefined(Ty),
    /// A name. That of a declared agent or kind is its literal.
    Name(Name),
    /// `-x`
    Neg(Box<Expr>),
    /// `not x`
    Not(Box<Expr>),
    /// `amount(x)`
    Amount(Box<Expr>),
    /// `kind(x)`
    KindOf(Box<Expr>),
    /// `res(x, y)`
    Make(Box<Expr>, Box<Expr>),
    /// Two operands under an operator, from left to right.
    Op(Op, Box<Expr>, Box<Expr>),
    /// `if x then y else z end`
    If(Box<Expr>, Box<Expr>, Box<Expr>),
}

/// A value, or "undefined", of a known type.
#[derive(Debug, Clone, Copy, PartialEq, Eq)]
pub struct Given {
    pub value: Option<Value>,
    pub ty: Ty,
}
