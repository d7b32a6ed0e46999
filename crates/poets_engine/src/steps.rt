//! What each command does with what an engine keeps.
ghost use Rattle.std.specs.Prelude.{◌≡◌, ◌+◌, ◌≤◌, IfOk, OnErr};
ghost use Rattle.poets_command.specs.Calls.{command_of};
ghost use Rattle.poets_engine.specs.Evaluations.{most_evaluations};
ghost use Rattle.poets_engine.specs.Copies.{AreCopies};
ghost use Rattle.poets_engine.specs.Takes.{IsTakenBy};
ghost use Rattle.poets_engine.specs.code.Makes.{MakesBody};
ghost use Rattle.poets_engine.specs.code.Withdrawals.{IsKeptStore};

use crate::copies::Copies;
use crate::ends::end;
use crate::kept::Body;
use crate::looks::show;
use crate::portfolios::portfolio;
use crate::registration::register;
use crate::store::Store;
use crate::tallies::tally;
use crate::transmission::transmit;
use crate::watching::{read, watch};
use crate::withdrawal::void;
use poets_command::Command;
use poets_expr::Asks;
use poets_rules::Rules;
use poets_value::Memory;
use std::alloc::Global;

/// Makes a command, and answers it as far as its turn does.
pub(crate) fn step<T>(
    alloc: Global,
    rules: &Rules,
    copies: &mut Copies,
    store: &mut Store,
    command: &Command,
    asks: &mut Asks<T>,
) -> Result<Body, Memory>
    requires taken { IsTakenBy rules.now (command_of command.now) }
    requires kept { IsKeptStore rules.now store.old }
    requires copies { AreCopies rules.now copies.old }
    ensures ok { IfOk result (MakesBody rules.now (command_of command.now) store.old store.new) }
    ensures copies { AreCopies rules.now copies.new }
    ensures err { OnErr result (store.new ≡ store.old) }
    ensures asks { asks.new ≤ asks.old + most_evaluations rules.now store.old (command_of command.now) }
    ensures rises { asks.old ≤ asks.new }
{
    match command {
        Command::Register { name, term } => {
            Ok(Body::Done(register(alloc, rules, store, *name, term, asks)?))
        }
        Command::Transmit { name, event } => {
            Ok(Body::Done(transmit(alloc, rules, store, *name, event, asks)?))
        }
        Command::Void { name, place } => {
            Ok(Body::Done(void(alloc, rules, store, *name, *place, asks)?))
        }
        Command::End { name } => Ok(Body::Done(end(rules, store, *name))),
        Command::Show { name } => Ok(Body::Done(show(alloc, rules, store, *name)?)),
        Command::Tally { report, args } => {
            let args = args.as_slice();
            Ok(Body::Done(tally(alloc, rules, store, *report, args, asks)?))
        }
        Command::Portfolio { report, args, over } => {
            let (args, over) = (args.as_slice(), over.as_slice());
            portfolio(alloc, rules, copies, store, *report, args, over, asks)
        }
        Command::Watch { report, args } => {
            let args = args.as_slice();
            Ok(Body::Done(watch(alloc, rules, store, *report, args, asks)?))
        }
        Command::Read { number } => Ok(Body::Done(read(store, *number)?)),
    }
}
