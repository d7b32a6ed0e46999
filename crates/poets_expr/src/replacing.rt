//! Literals of values, and expressions with names replaced by literals.
ghost use Rattle.std.specs.Prelude.{◌≡◌, IfOk, reverse};
ghost use Rattle.poets_expr.specs.Expression.{expression_of};
ghost use Rattle.poets_expr.specs.OfExpr.{subst_expr};
ghost use Rattle.poets_expr.specs.Subst as spec;

use crate::build::boxed;
use crate::expr::{Expr, Given};
use poets_value::{Memory, Name, Value};
use std::alloc::Global;

/// The literal of a value; of an undefined one `Undefined` of its type. An agent or a kind is its name.
pub fn literal(given: &Given) -> Expr
    ensures { expression_of result ≡ spec.literal given.now }
{
    match given.value {
        None => Expr::Undefined(given.ty),
        Some(Value::Int(n)) => Expr::Int(n),
        Some(Value::Bool(b)) => Expr::Bool(b),
        Some(Value::Agent(name)) => Expr::Name(name),
        Some(Value::Kind(name)) => Expr::Name(name),
        Some(Value::Resource(resource)) => Expr::Res(resource),
        Some(Value::Day(day)) => Expr::Day(day),
    }
}

// What a name is replaced by.
fn replaced(pairs: &[(Name, Given)], name: Name) -> Expr
    ensures { expression_of result ≡ spec.replaced (reverse pairs.now) name }
{
    let mut found = Expr::Name(name);
    for pair in pairs {
        if pair.0 == name {
            found = literal(&pair.1);
        }
    }
    found
}

/// The expression with its names replaced by literals. A later pair hides an earlier one, and a name without a pair stays.
#[cycle(subst)]
pub fn subst(alloc: Global, e: &Expr, pairs: &[(Name, Given)]) -> Result<Expr, Memory>
    ensures { IfOk result (λ r. expression_of r ≡ subst_expr pairs.now e.now) }
{
    match e {
        Expr::Int(n) => Ok(Expr::Int(*n)),
        Expr::Bool(b) => Ok(Expr::Bool(*b)),
        Expr::Day(day) => Ok(Expr::Day(*day)),
        Expr::Res(resource) => Ok(Expr::Res(*resource)),
        Expr::Undefined(ty) => Ok(Expr::Undefined(*ty)),
        Expr::Name(name) => Ok(replaced(pairs, *name)),
        Expr::Neg(a) => Ok(Expr::Neg(boxed_subst(alloc, a, pairs)?)),
        Expr::Not(a) => Ok(Expr::Not(boxed_subst(alloc, a, pairs)?)),
        Expr::Amount(a) => Ok(Expr::Amount(boxed_subst(alloc, a, pairs)?)),
        Expr::KindOf(a) => Ok(Expr::KindOf(boxed_subst(alloc, a, pairs)?)),
        Expr::Make(a, b) => {
            let a = boxed_subst(alloc, a, pairs)?;
            let b = boxed_subst(alloc, b, pairs)?;
            Ok(Expr::Make(a, b))
        }
        Expr::Op(op, a, b) => {
            let a = boxed_subst(alloc, a, pairs)?;
            let b = boxed_subst(alloc, b, pairs)?;
            Ok(Expr::Op(*op, a, b))
        }
        Expr::If(a, b, c) => {
            let a = boxed_subst(alloc, a, pairs)?;
            let b = boxed_subst(alloc, b, pairs)?;
            let c = boxed_subst(alloc, c, pairs)?;
            Ok(Expr::If(a, b, c))
        }
    }
}

// Such an expression in a box of its own.
#[cycle(subst)]
fn boxed_subst(alloc: Global, e: &Expr, pairs: &[(Name, Given)]) -> Result<Box<Expr>, Memory>
    ensures { IfOk result (λ r. expression_of r.value ≡ subst_expr pairs.now e.now) }
{
    boxed(alloc, subst(alloc, e, pairs)?)
}
