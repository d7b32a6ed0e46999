//! Types of expressions.
ghost use Rattle.std.specs.Prelude.{◌≡◌};
ghost use Rattle.poets_expr.specs.Env.{declared_of};
ghost use Rattle.poets_expr.specs.Expression.{expression_of};
ghost use Rattle.poets_syntax.specs.TypeOf as spec;
ghost use Rattle.poets_syntax.specs.Typed as typed;
ghost use Rattle.poets_types.specs.code.Answers.{answer_of};
ghost use Rattle.poets_types.specs.code.Checks.{under};

use crate::TypeCause;
use crate::scope::Scope;
use poets_expr::{Decls, Expr, Op};
use poets_value::{Name, Ty};

// What is found is of the wanted type.
pub(crate) fn must_be(wanted: Ty, found: Ty) -> Result<(), TypeCause>
    ensures { result ≡ answer_of (spec.must_be wanted found) }
{
    if wanted == found {
        Ok(())
    } else {
        Err(TypeCause::WrongType { wanted, found })
    }
}

// What is found is a number or a day.
fn must_be_number_or_day(found: Ty) -> Result<(), TypeCause>
    ensures { result ≡ answer_of (spec.must_be_number_or_day found) }
{
    match found {
        Ty::Int | Ty::Day => Ok(()),
        _ => Err(TypeCause::WrongType {
            wanted: Ty::Int,
            found,
        }),
    }
}

// The type of a node whose one part is of the wanted type.
fn of_one(wanted: Ty, x: Ty, node: Ty) -> Result<Ty, TypeCause>
    ensures { result ≡ answer_of (spec.of_one wanted x node) }
{
    must_be(wanted, x)?;
    Ok(node)
}

// The type of a node whose two parts are of the wanted type.
fn of_two(wanted: Ty, x: Ty, y: Ty, node: Ty) -> Result<Ty, TypeCause>
    ensures { result ≡ answer_of (spec.of_two wanted x y node) }
{
    must_be(wanted, x)?;
    must_be(wanted, y)?;
    Ok(node)
}

// The type of a number or a day with a number added or taken away.
fn sum_type(x: Ty, y: Ty) -> Result<Ty, TypeCause>
    ensures { result ≡ answer_of (spec.sum_type x y) }
{
    must_be_number_or_day(x)?;
    must_be(Ty::Int, y)?;
    Ok(x)
}

// The type of a difference: of two days it is a number.
fn difference_type(x: Ty, y: Ty) -> Result<Ty, TypeCause>
    ensures { result ≡ answer_of (spec.difference_type x y) }
{
    match (&x, &y) {
        (Ty::Day, Ty::Day) => Ok(Ty::Int),
        _ => sum_type(x, y),
    }
}

// The type of an equation of two parts of one type.
fn equal_type(x: Ty, y: Ty) -> Result<Ty, TypeCause>
    ensures { result ≡ answer_of (spec.equal_type x y) }
{
    must_be(x, y)?;
    Ok(Ty::Bool)
}

// The type of a comparison of two numbers or two days.
fn order_type(x: Ty, y: Ty) -> Result<Ty, TypeCause>
    ensures { result ≡ answer_of (spec.order_type x y) }
{
    must_be_number_or_day(x)?;
    equal_type(x, y)
}

// The type of a node of two operands.
fn binary_type(op: Op, x: Ty, y: Ty) -> Result<Ty, TypeCause>
    ensures { result ≡ answer_of (spec.binary_type op x y) }
{
    match op {
        Op::Add => sum_type(x, y),
        Op::Sub => difference_type(x, y),
        Op::Mul | Op::Div | Op::Rem => of_two(Ty::Int, x, y, Ty::Int),
        Op::Eq | Op::Ne => equal_type(x, y),
        Op::Lt | Op::Le | Op::Gt | Op::Ge => order_type(x, y),
        Op::And | Op::Or => of_two(Ty::Bool, x, y, Ty::Bool),
    }
}

// The type of a resource made of a number and a kind.
fn make_type(x: Ty, y: Ty) -> Result<Ty, TypeCause>
    ensures { result ≡ answer_of (spec.make_type x y) }
{
    must_be(Ty::Int, x)?;
    must_be(Ty::Kind, y)?;
    Ok(Ty::Resource)
}

// The type of a choice of two parts of one type.
fn if_type(x: Ty, y: Ty, z: Ty) -> Result<Ty, TypeCause>
    ensures { result ≡ answer_of (spec.if_type x y z) }
{
    must_be(Ty::Bool, x)?;
    must_be(y, z)?;
    Ok(y)
}

// The type that was found for a name.
pub(crate) fn name_type(name: Name, ty: Option<Ty>) -> Result<Ty, TypeCause>
    ensures { result ≡ answer_of (spec.name_type name ty) }
{
    ty.ok_or(TypeCause::Unknown { name })
}

// The type of a resource literal, whose kind is declared as one.
fn resource_type(decls: &Decls, kind: Name) -> Result<Ty, TypeCause>
    ensures { result ≡ answer_of (spec.resource_type kind (declared_of decls.now.names kind)) }
{
    match decls.names.get(&kind) {
        None => Err(TypeCause::Unknown { name: kind }),
        Some(ty) => of_one(Ty::Kind, *ty, Ty::Resource),
    }
}

// The type of an expression.
pub(crate) fn type_of(decls: &Decls, scope: &Scope, e: &Expr) -> Result<Ty, TypeCause>
    ensures { result ≡ answer_of (under decls.now scope.now spec.type_of (expression_of e.now)) }
{
    match e {
        Expr::Int(_) => Ok(Ty::Int),
        Expr::Bool(_) => Ok(Ty::Bool),
        Expr::Day(_) => Ok(Ty::Day),
        Expr::Res(resource) => resource_type(decls, resource.kind),
        Expr::Undefined(ty) => Ok(*ty),
        Expr::Name(name) => name_type(*name, scope.type_of(decls, *name)),
        Expr::Neg(a) => of_one(Ty::Int, type_of(decls, scope, a)?, Ty::Int),
        Expr::Not(a) => of_one(Ty::Bool, type_of(decls, scope, a)?, Ty::Bool),
        Expr::Amount(a) => of_one(Ty::Resource, type_of(decls, scope, a)?, Ty::Int),
        Expr::KindOf(a) => of_one(Ty::Resource, type_of(decls, scope, a)?, Ty::Kind),
        Expr::Make(a, b) => make_type(type_of(decls, scope, a)?, type_of(decls, scope, b)?),
        Expr::Op(op, a, b) => {
            binary_type(*op, type_of(decls, scope, a)?, type_of(decls, scope, b)?)
        }
        Expr::If(a, b, c) => if_type(
            type_of(decls, scope, a)?,
            type_of(decls, scope, b)?,
            type_of(decls, scope, c)?,
        ),
    }
}

// The expression is of the wanted type.
pub(crate) fn check_type(
    decls: &Decls,
    scope: &Scope,
    wanted: Ty,
    e: &Expr,
) -> Result<(), TypeCause>
    ensures { result ≡ answer_of (under decls.now scope.now typed.check_type wanted (expression_of e.now)) }
{
    must_be(wanted, type_of(decls, scope, e)?)
}
