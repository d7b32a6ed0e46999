//! The texts of templates and of reports.
ghost use Rattle.std.specs.Prelude.{IfOk, option_map};
ghost use Rattle.poets_expr.specs.Expression.{expression_of};
ghost use Rattle.poets_syntax.specs.Book.{template_of};
ghost use Rattle.poets_print.specs.Texts.{IsText};
ghost use Rattle.poets_books.specs.Statements as statements;
ghost use Rattle.poets_books.specs.code.Putting.{fold_text_of, report_text_of};

use crate::lists::parameters_text;
use crate::parts::{binders_text, expression_text};
use poets_expr::Expr;
use poets_lex::Names;
use poets_print::{name_text, term_text, type_text};
use poets_report::Report;
use poets_syntax::Template;
use poets_value::Memory;
use std::alloc::Global;

/// The text of a template.
pub(crate) fn template_text(
    alloc: Global,
    names: &Names,
    template: &Template,
) -> Result<String, Memory>
    ensures { IfOk result (IsText (statements.template_text names.now (template_of template.now))) }
{
    let name = name_text(names, template.name);
    let params = parameters_text(alloc, names, template.params.as_slice())?;
    let body = term_text(alloc, names, &template.body)?;
    Ok(format!(in alloc; "template {name}{params} = {body}")?)
}

// The key of a report, behind `by`, and nothing where it has none.
fn key_text(alloc: Global, names: &Names, key: &Option<Expr>) -> Result<String, Memory>
    ensures { IfOk result (IsText (statements.key_text names.now (option_map expression_of key.now))) }
{
    let Some(key) = key else {
        return Ok(String::new(alloc));
    };
    let key = expression_text(alloc, names, key)?;
    Ok(format!(in alloc; " by {key}")?)
}

// What a report is folded from, and how.
fn fold_text(alloc: Global, names: &Names, report: &Report) -> Result<String, Memory>
    ensures { IfOk result (IsText (fold_text_of names.now report.now)) }
{
    let carry = name_text(names, report.carry);
    let start = expression_text(alloc, names, &report.start)?;
    let binders = binders_text(alloc, names, &report.binders)?;
    let step = expression_text(alloc, names, &report.step)?;
    let key = key_text(alloc, names, &report.key)?;
    Ok(format!(in alloc; "fold {carry} = {start} with ({binders}) in {step}{key}")?)
}

/// The text of a report.
pub(crate) fn report_text(alloc: Global, names: &Names, report: &Report) -> Result<String, Memory>
    ensures { IfOk result (IsText (report_text_of names.now report.now)) }
{
    let name = name_text(names, report.name);
    let params = parameters_text(alloc, names, report.params.as_slice())?;
    let ty = type_text(report.ty);
    let fold = fold_text(alloc, names, report)?;
    Ok(format!(in alloc; "report {name}{params}: {ty} = {fold}")?)
}
