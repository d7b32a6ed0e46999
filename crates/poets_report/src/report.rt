//! Reports and their answers.
ghost use Rattle.std.specs.Prelude.{◌≡◌, IfOk, option_map};
ghost use Rattle.poets_expr.specs.Expression.{expression_of};
ghost use Rattle.poets_report.specs.Reports.{report_of};

use poets_expr::{Expr, build};
use poets_syntax::build::copy_params;
use poets_syntax::{Binders, Param};
use poets_value::{List, Memory, Name, Ty, Value};
use std::alloc::Global;

/// A report: a fold of events, in one piece or by a key.
#[derive(Debug, PartialEq, Eq, Drop)]
pub struct Report {
    pub name: Name,
    pub params: List<Param>,
    /// The type of the value that is carried from event to event.
    pub ty: Ty,
    /// What is carried to the first event.
    pub start: Expr,
    /// The name of what is carried.
    pub carry: Name,
    /// The names of the parts of the event, in the step and in the key.
    pub binders: Binders,
    pub step: Expr,
    /// The key of an event; the events of each key are folded by themselves.
    pub key: Option<Expr>,
}

/// What a report answers, where `None` is "undefined". A row is a key and a value.
#[derive(Debug, PartialEq, Eq, Drop)]
pub enum Answer {
    Single(Option<Value>),
    Rows(List<(Option<Value>, Option<Value>)>),
}

/// The same report.
pub fn copy(alloc: Global, report: &Report) -> Result<Report, Memory>
    ensures { IfOk result (λ r. report_of r ≡ report_of report.now) }
{
    let params = copy_params(alloc, &report.params)?;
    let start = build::copy(alloc, &report.start)?;
    let step = build::copy(alloc, &report.step)?;
    let key = copy_key(alloc, &report.key)?;
    Ok(Report {
        name: report.name,
        params,
        ty: report.ty,
        start,
        carry: report.carry,
        binders: report.binders,
        step,
        key,
    })
}

// The same key, if there is one.
fn copy_key(alloc: Global, key: &Option<Expr>) -> Result<Option<Expr>, Memory>
    ensures { IfOk result (λ r. option_map expression_of r ≡ option_map expression_of key.now) }
{
    match key {
        None => Ok(None),
        Some(key) => Ok(Some(build::copy(alloc, key)?)),
    }
}
