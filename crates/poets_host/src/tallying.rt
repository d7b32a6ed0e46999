//! Reports over all recorded events.
ghost use Rattle.std.specs.Prelude.{◌≡◌, [], OnErr, IfOk};
ghost use Rattle.poets_command.specs.Calls.{reply_of};
ghost use Rattle.poets_command.specs.Plain as plain;
ghost use Rattle.poets_host.specs.Calls.{HasCallMore, IsReplyAfter, KeepsAll};
ghost use Rattle.poets_host.specs.Tallies.{AsksTwiceAnEvent};

use crate::checked;
use poets_command::{Command, Reply};
use poets_engine::{Body, Engine};
use poets_expr::Asks;
use poets_types::TypeCause;
use poets_value::{List, Name};
use std::alloc::Global;
use std::thread::Threads;

/// Tallies the report of that name, which has no parameters, over all recorded events.
pub fn tally<T, R: Threads + Sync>(
    rt: &R,
    alloc: Global,
    engine: &mut Engine,
    clerk: u32,
    report: Name,
    asks: &mut Asks<T>,
) -> Result<Reply, TypeCause>
    ensures call { IfOk result (λ _. HasCallMore clerk (plain.Tally report []) engine.old engine.new) }
    ensures right { IfOk result (λ r. IsReplyAfter engine.old (plain.Tally report []) (reply_of r)) }
    ensures same { IfOk result (λ _. KeepsAll engine.old engine.new) }
    ensures fault { OnErr result (engine.new ≡ engine.old) }
    ensures asks { AsksTwiceAnEvent engine.old asks.old asks.new }
    ensures rules { engine.new.rules ≡ engine.old.rules }
{
    let args = List::new(alloc);
    let command = checked(alloc, engine, Command::Tally { report, args })?;
    let _before = engine.history();
    let kept = engine.apply(rt, alloc, clerk, &command, asks)?;
    match kept.body {
        Body::Done(reply) => Ok(reply),
        // A tally is no portfolio.
        Body::Folio(_) => unreachable!(),
    }
}
