//! Expressions and commands made of their parts.
ghost use Rattle.std.specs.Prelude.{◌≡◌, IfOk};
ghost use Rattle.poets_expr.specs.Expression.{expression_of, Make, Binary, If};
ghost use Rattle.poets_syntax.specs.Contract.{contract_of};
ghost use Rattle.poets_command.specs.Calls.{command_of};
ghost use Rattle.poets_command.specs.Plain as plain;
ghost use Rattle.poets_parse.specs.code.Gives.{Makes};

use poets_command::Command;
use poets_expr::build::boxed;
use poets_expr::{Expr, Op};
use poets_syntax::Term;
use poets_value::{Memory, Name};
use std::alloc::Global;
use std::sync::Arc;

// Two operands under an operator.
pub(crate) fn binary(alloc: Global, op: Op, left: Expr, right: Expr) -> Result<Expr, Memory>
    ensures { Makes result (Binary op (expression_of left) (expression_of right)) }
{
    let left = boxed(alloc, left)?;
    let right = boxed(alloc, right)?;
    Ok(Expr::Op(op, left, right))
}

// The resource of an amount and a kind.
pub(crate) fn made(alloc: Global, amount: Expr, kind: Expr) -> Result<Expr, Memory>
    ensures { Makes result (Make (expression_of amount) (expression_of kind)) }
{
    let amount = boxed(alloc, amount)?;
    let kind = boxed(alloc, kind)?;
    Ok(Expr::Make(amount, kind))
}

// One of two expressions, by a condition.
pub(crate) fn conditional(
    alloc: Global,
    condition: Expr,
    yes: Expr,
    no: Expr,
) -> Result<Expr, Memory>
    ensures { Makes result (If (expression_of condition) (expression_of yes) (expression_of no)) }
{
    let condition = boxed(alloc, condition)?;
    let yes = boxed(alloc, yes)?;
    let no = boxed(alloc, no)?;
    Ok(Expr::If(condition, yes, no))
}

// The registration of a contract under a name.
pub(crate) fn registration(alloc: Global, name: Name, term: Term) -> Result<Command, Memory>
    ensures { IfOk result (λ c. command_of c ≡ plain.Command.Register name (contract_of term)) }
{
    let term = Arc::new(alloc, term)?;
    Ok(Command::Register { name, term })
}
