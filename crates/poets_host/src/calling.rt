//! One call, and its reply.
ghost use Rattle.std.specs.Prelude.{◌≡◌, ◌+◌, ◌≤◌, false, IfOk, OnErr};
ghost use Rattle.std.specs.Arc.{arc_value};
ghost use Rattle.poets_command.specs.Calls.{command_of, reply_of};
ghost use Rattle.poets_history.specs.Ledger.{is_accepted};
ghost use Rattle.poets_engine.specs.Evaluations.{most_evaluations_in};
ghost use Rattle.poets_engine.specs.Takes.{IsTakenBy};
ghost use Rattle.poets_host.specs.Calls.{HasCallMore, IsReplyAfter, KeepsAll, MayHaveCallMore};

use poets_command::{Command, Reply};
use poets_engine::Engine;
use poets_expr::Asks;
use poets_value::Memory;
use std::alloc::Global;
use std::sync::Arc;
use std::thread::Threads;

/// Makes a call, and returns its reply. If memory runs out for the reply alone, the call is in the history.
pub fn call<T, R: Threads + Sync>(
    rt: &R,
    alloc: Global,
    engine: &mut Engine,
    clerk: u32,
    command: &Arc<Command>,
    asks: &mut Asks<T>,
) -> Result<Reply, Memory>
    requires taken { IsTakenBy engine.old.rules (command_of (arc_value command.now)) }
    ensures calls { IfOk result (λ _. HasCallMore clerk (command_of (arc_value command.now)) engine.old engine.new) }
    ensures right { IfOk result (λ r. IsReplyAfter engine.old (command_of (arc_value command.now)) (reply_of r)) }
    ensures refused { IfOk result (λ r. is_accepted (reply_of r) ≡ false → KeepsAll engine.old engine.new) }
    ensures asks { asks.new ≤ asks.old + most_evaluations_in engine.old command.now }
    ensures memory { OnErr result (MayHaveCallMore clerk (command_of (arc_value command.now)) engine.old engine.new) }
    ensures rules { engine.new.rules ≡ engine.old.rules }
{
    let kept = engine.apply(rt, alloc, clerk, command, asks)?;
    Engine::finish(rt, alloc, kept)
}

/// Whether something changed by a call with this reply.
pub fn is_accepted(reply: &Reply) -> bool
    ensures { result ≡ is_accepted (reply_of reply.now) }
{
    matches!(
        reply,
        Reply::Registered(_)
            | Reply::Recorded { .. }
            | Reply::Voided { .. }
            | Reply::EndedNow
            | Reply::Watching(_)
    )
}
