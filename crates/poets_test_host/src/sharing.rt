//! Two clerks share the engine.
ghost use Rattle.std.specs.Prelude.{IfOk};
ghost use Rattle.std.specs.Arc.{arc_value};
ghost use Rattle.poets_command.specs.Calls.{command_of};
ghost use Rattle.poets_engine.specs.Takes.{IsTakenBy};

use crate::shop::{named, open_shop};
use poets_command::{Command, Reply};
use poets_host::{Host, checked, registration, share};
use poets_types::TypeCause;
use std::alloc::Global;
use std::sync::Arc;
use std::test::Fail;

// The registration of a sale of seven units.
fn sale(alloc: Global, shop: &Host) -> Result<Arc<Command>, TypeCause>
    ensures { IfOk result (λ c. IsTakenBy shop.now.engine.rules (command_of (arc_value c))) }
{
    let deal = named(&shop.names, "deal");
    let template = named(&shop.names, "sale");
    let command = registration(alloc, deal, template, 7)?;
    checked(alloc, &shop.engine, command)
}

// A look at it.
fn look(alloc: Global, shop: &Host) -> Result<Arc<Command>, TypeCause>
    ensures { IfOk result (λ c. IsTakenBy shop.now.engine.rules (command_of (arc_value c))) }
{
    let name = named(&shop.names, "deal");
    checked(alloc, &shop.engine, Command::Show { name })
}

// Whether the sale is registered, and seen before its first event.
fn are_told(replies: &(Reply, Reply)) -> bool {
    matches!(
        replies,
        (
            Reply::Registered(1),
            Reply::Shown {
                count: 0,
                may_end: false,
                ended: false,
                ..
            }
        )
    )
}

// Both calls.
fn calls(alloc: Global, shop: &Host) -> Result<(Arc<Command>, Arc<Command>), TypeCause>
    ensures first { IfOk result (λ c. IsTakenBy shop.now.engine.rules (command_of (arc_value c.0))) }
    ensures second { IfOk result (λ c. IsTakenBy shop.now.engine.rules (command_of (arc_value c.1))) }
{
    let first = sale(alloc, shop)?;
    Ok((first, look(alloc, shop)?))
}

// The first clerk registers the deal, and the second, who heard of it, looks at it.
#[test]
fn a_clerk_hears_of_the_call_of_another(rt: HostRuntime) -> Result<(), Fail> {
    let alloc = rt.alloc();
    let shop = open_shop(alloc)?;
    let (first, second) = calls(alloc, &shop)?;
    let Host { engine, .. } = shop;
    let (engine, replies) = share(&rt, alloc, engine, &first, &second);
    let count = engine.history().len();
    drop(engine);
    assert_eq!(rt; count, 2);
    assert!(rt; are_told(&replies?));
    Ok(())
}
