//! Deliveries.
ghost use Rattle.std.specs.Prelude.{◌≡◌, ◌+◌, ◌*◌, ◌≤◌, true, false, length, IfOk, OnErr};
ghost use Rattle.poets_value.specs.Whole.{IsWholeEvent};
ghost use Rattle.poets_engine.specs.Evaluations.{asked_owed};
ghost use Rattle.poets_command.specs.Plain.{Transmit};
ghost use Rattle.poets_host.specs.Calls.{HasCallMore, KeepsAll};
ghost use Rattle.poets_host.specs.Deliveries.{Records};

use crate::{checked, is_accepted};
use poets_command::Command;
use poets_engine::{Body, Engine};
use poets_expr::Asks;
use poets_types::TypeCause;
use poets_value::{Event, Name};
use std::alloc::Global;
use std::thread::Threads;

/// Reports a delivery to the engine. `Ok(false)` means that the contract does not take it.
pub fn deliver<T, R: Threads + Sync>(
    rt: &R,
    alloc: Global,
    engine: &mut Engine,
    clerk: u32,
    contract: Name,
    event: Event,
    asks: &mut Asks<T>,
) -> Result<bool, TypeCause>
    requires whole { IsWholeEvent event }
    ensures call { IfOk result (λ _. HasCallMore clerk (Transmit contract event) engine.old engine.new) }
    ensures recorded { IfOk result (λ taken. taken ≡ true → Records contract event engine.old engine.new) }
    ensures refused { IfOk result (λ taken. taken ≡ false → KeepsAll engine.old engine.new) }
    ensures fault { OnErr result (engine.new ≡ engine.old) }
    ensures asks { asks.new ≤ asks.old + asked_owed engine.old.rules.studied engine.old.store.rows contract
        + 2 * length engine.old.store.watches }
    ensures rules { engine.new.rules ≡ engine.old.rules }
{
    let name = contract;
    let command = checked(alloc, engine, Command::Transmit { name, event })?;
    // What the engine keeps is the ledger of its history, ahead of the call and behind it.
    let _before = engine.history();
    let kept = engine.apply(rt, alloc, clerk, &command, asks)?;
    let _after = engine.history();
    match kept.body {
        Body::Done(reply) => Ok(is_accepted(&reply)),
        // A delivery is no portfolio.
        Body::Folio(_) => unreachable!(),
    }
}
