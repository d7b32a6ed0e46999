//! Watches: reports that are kept live.
ghost use Rattle.std.specs.Prelude.{◌≡◌, ◌+◌, ◌≤◌, length, IfOk, OnErr};
ghost use Rattle.poets_command.specs.Plain.{Command};
ghost use Rattle.poets_engine.specs.Takes.{IsTakenBy};
ghost use Rattle.poets_engine.specs.code.Commands.{watch_of};
ghost use Rattle.poets_engine.specs.code.Makes.{MakesReply, MakesUnderAll};

use crate::store::Store;
use crate::tallies::report_called;
use poets_command::Reply;
use poets_expr::{Asks, Expr};
use poets_report::{argument_values, copy};
use poets_rules::Rules;
use poets_value::{Memory, Name};
use std::alloc::Global;

/// Begins a watch of the report.
pub(crate) fn watch<T>(
    alloc: Global,
    rules: &Rules,
    store: &mut Store,
    name: Name,
    args: &[Expr],
    asks: &mut Asks<T>,
) -> Result<Reply, Memory>
    requires { IsTakenBy rules.now (watch_of name args.now) }
    ensures ok { IfOk result (MakesReply rules.now (watch_of name args.now) store.old store.new) }
    ensures err { OnErr result (store.new ≡ store.old) }
    ensures asks { asks.new ≤ asks.old + length args.now }
    ensures rises { asks.old ≤ asks.new }
{
    let report = report_called(rules, name, args);
    let decls = &rules.studied.book().decls;
    let values = argument_values(alloc, decls, args, asks)?;
    let report = copy(alloc, report)?;
    let number = store.watch(decls, report, values)?;
    Ok(Reply::Watching(number))
}

/// Reads the watch with a number.
pub(crate) fn read(store: &Store, number: u64) -> Result<Reply, Memory>
    ensures { IfOk result (MakesUnderAll (Command.Read number) store.now store.now) }
{
    if number == 0 || store.watch_count() < number {
        return Ok(Reply::NoWatch(number));
    }
    Ok(Reply::Answered(store.read(number)?))
}
