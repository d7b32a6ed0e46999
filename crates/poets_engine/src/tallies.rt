//! Tallies: reports over all events.
ghost use Rattle.std.specs.Prelude.{◌≡◌, ◌+◌, ◌*◌, ◌≤◌, length, map, Some, IfOk};
ghost use Rattle.poets_expr.specs.Expression.{expression_of};
ghost use Rattle.poets_report.specs.Reports.{report_of};
ghost use Rattle.poets_command.specs.Laws.{IsReportOf};
ghost use Rattle.poets_command.specs.Reports.{report_in};
ghost use Rattle.poets_rules.specs.Rules.{reports_of_rules};
ghost use Rattle.poets_engine.specs.Takes.{IsTakenBy};
ghost use Rattle.poets_engine.specs.code.Commands.{tally_of};
ghost use Rattle.poets_engine.specs.code.Makes.{MakesReply};

use crate::store::Store;
use poets_command::Reply;
use poets_expr::{Asks, Expr};
use poets_report::{Fold, Report, argument_values};
use poets_rules::Rules;
use poets_value::{Memory, Name};
use std::alloc::Global;

/// The report that a typed call names; it takes so many arguments.
pub(crate) fn report_called<'a>(rules: &'a Rules, name: Name, args: &[Expr]) -> &'a Report
    requires { IsReportOf (reports_of_rules rules.now) name (map expression_of args.now) }
    ensures report { report_in (reports_of_rules rules.now) name ≡ Some (report_of result.now) }
    ensures count { length args.now ≡ length result.now.params.items }
{
    match rules.report(name) {
        Some(report) => report,
        None => unreachable!(),
    }
}

/// The report over all events.
pub(crate) fn tally<T>(
    alloc: Global,
    rules: &Rules,
    store: &Store,
    name: Name,
    args: &[Expr],
    asks: &mut Asks<T>,
) -> Result<Reply, Memory>
    requires { IsTakenBy rules.now (tally_of name args.now) }
    ensures ok { IfOk result (MakesReply rules.now (tally_of name args.now) store.now store.now) }
    ensures asks { asks.new ≤ asks.old + (length args.now + 1 + 2 * length store.now.log) }
    ensures rises { asks.old ≤ asks.new }
{
    let report = report_called(rules, name, args);
    let decls = &rules.studied.book().decls;
    let values = argument_values(alloc, decls, args, asks)?;
    let start = Fold::start(alloc, decls, report, &values, asks)?;
    let fold = start.more_of_log(decls, report, store.log().as_slice(), asks)?;
    Ok(Reply::Answered(fold.answer()?))
}
