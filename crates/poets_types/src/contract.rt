//! Types of contracts.
ghost use Rattle.std.specs.Prelude.{◌≡◌, map};
ghost use Rattle.poets_expr.specs.Expression.{expression_of};
ghost use Rattle.poets_syntax.specs.Contract.{contract_of};
ghost use Rattle.poets_syntax.specs.Typed as typed;
ghost use Rattle.poets_types.specs.code.Answers.{answer_of};
ghost use Rattle.poets_types.specs.code.Checks.{in_book, under};
ghost use Rattle.poets_types.specs.code.Scopes.{names_in};

use crate::TypeCause;
use crate::binder::{check_new, types_bound};
use crate::expression::check_type;
use crate::index::Index;
use crate::scope::Scope;
use poets_expr::{Decls, Expr};
use poets_syntax::{Param, Term};
use poets_value::{Name, Ty};

// Each argument is of its parameter's type.
fn check_args(
    decls: &Decls,
    scope: &Scope,
    params: &[Param],
    args: &[Expr],
) -> Result<(), TypeCause>
    ensures { result ≡ answer_of (under decls.now scope.now typed.check_args params.now (map expression_of args.now)) }
{
    for (param, arg) in params.iter().zip(args) {
        check_type(decls, scope, param.ty, arg)?;
    }
    Ok(())
}

// There are as many arguments as parameters, and each is of its parameter's type.
pub(crate) fn check_arguments(
    decls: &Decls,
    scope: &Scope,
    name: Name,
    params: &[Param],
    args: &[Expr],
) -> Result<(), TypeCause>
    ensures { result ≡ answer_of (under decls.now scope.now typed.check_arguments name params.now
        (map expression_of args.now)) }
{
    if params.len() != args.len() {
        return Err(TypeCause::WrongCount {
            name,
            wanted: params.len() as u64,
            found: args.len() as u64,
        });
    }
    check_args(decls, scope, params, args)
}

// The contract is typed in the scope.
pub(crate) fn check_contract(index: &Index, scope: &Scope, term: &Term) -> Result<(), TypeCause>
    ensures { result ≡ answer_of (in_book index.now typed.check_contract (names_in scope.now) (contract_of term.now)) }
{
    let decls = &index.book.decls;
    match term {
        Term::Success | Term::Failure => Ok(()),
        Term::Transmit {
            binders,
            when,
            then,
        } => {
            let names = [binders.sender, binders.receiver, binders.what, binders.day];
            check_new(index, &names)?;
            let bound = types_bound(binders);
            let inner = Scope::Inner(&bound, &*scope);
            check_type(decls, &inner, Ty::Bool, when)?;
            check_contract(index, &inner, then)
        }
        Term::Plus(a, b) | Term::Par(a, b) | Term::Seq(a, b) => {
            check_contract(index, scope, a)?;
            check_contract(index, scope, b)
        }
        Term::App { name, args } => match index.template(*name) {
            None => Err(TypeCause::Unknown { name: *name }),
            Some(template) => check_arguments(
                decls,
                scope,
                *name,
                template.params.as_slice(),
                args.as_slice(),
            ),
        },
    }
}
