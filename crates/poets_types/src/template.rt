//! Types of templates and reports.
ghost use Rattle.std.specs.Prelude.{◌≡◌, option_map};
ghost use Rattle.poets_expr.specs.Expression.{expression_of};
ghost use Rattle.poets_syntax.specs.Book.{template_of};
ghost use Rattle.poets_report.specs.Reports.{report_of};
ghost use Rattle.poets_command.specs.TypedStatements as spec;
ghost use Rattle.poets_types.specs.code.Answers.{answer_of, IsAnswerOf};
ghost use Rattle.poets_types.specs.code.Checks.{in_book, step_verdict, under};
ghost use Rattle.poets_types.specs.code.Scopes.{names_in};

use crate::TypeCause;
use crate::binder::{check_new, types_bound};
use crate::contract::check_contract;
use crate::expression::{check_type, type_of};
use crate::index::Index;
use crate::params::Params;
use crate::scope::Scope;
use poets_expr::{Decls, Expr};
use poets_report::Report;
use poets_syntax::{Param, Template};
use std::alloc::Global;

// The parameters are new, and the body is typed under them.
pub(crate) fn check_template(
    alloc: Global,
    index: &Index,
    template: &Template,
) -> Result<(), TypeCause>
    ensures { IsAnswerOf (in_book index.now spec.check_template (template_of template.now)) result }
{
    let params = Params::new(alloc, index, template.params.as_slice())?;
    check_contract(index, &Scope::Params(&params), &template.body)
}

// The key has a type, if there is one.
fn check_key(decls: &Decls, scope: &Scope, key: &Option<Expr>) -> Result<(), TypeCause>
    ensures { result ≡ answer_of (under decls.now scope.now spec.check_key (option_map expression_of key.now)) }
{
    if let Some(key) = key {
        type_of(decls, scope, key)?;
    }
    Ok(())
}

// The step is of the report's type, under the binders and the name of what is carried.
fn check_step(decls: &Decls, scope: &Scope, report: &Report) -> Result<(), TypeCause>
    ensures { result ≡ answer_of (under decls.now scope.now step_verdict (report_of report.now)) }
{
    let carried = [Param {
        name: report.carry,
        ty: report.ty,
    }];
    let bound = types_bound(&report.binders);
    let outer = Scope::Inner(&carried, &*scope);
    let inner = Scope::Inner(&bound, &outer);
    check_type(decls, &inner, report.ty, &report.step)
}

// The start, the names, the step and the key pass, under the parameters.
fn check_fold(index: &Index, scope: &Scope, report: &Report) -> Result<(), TypeCause>
    ensures { result ≡ answer_of (in_book index.now spec.check_fold (names_in scope.now) (report_of report.now)) }
{
    let decls = &index.book.decls;
    check_type(decls, scope, report.ty, &report.start)?;
    let binders = &report.binders;
    let names = [
        report.carry,
        binders.sender,
        binders.receiver,
        binders.what,
        binders.day,
    ];
    check_new(index, &names)?;
    check_step(decls, scope, report)?;
    let bound = types_bound(binders);
    check_key(decls, &Scope::Inner(&bound, &*scope), &report.key)
}

// The parameters are new, and the rest passes under them.
pub(crate) fn check_report(alloc: Global, index: &Index, report: &Report) -> Result<(), TypeCause>
    ensures { IsAnswerOf (in_book index.now spec.check_report (report_of report.now)) result }
{
    let params = Params::new(alloc, index, report.params.as_slice())?;
    check_fold(index, &Scope::Params(&params), report)
}
