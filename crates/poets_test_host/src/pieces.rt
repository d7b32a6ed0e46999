//! A portfolio shares the pieces of a contract's events.
ghost use Rattle.std.specs.Prelude.{IfOk};
ghost use Rattle.std.specs.Arc.{arc_value};
ghost use Rattle.poets_command.specs.Calls.{command_of};
ghost use Rattle.poets_engine.specs.Takes.{IsTakenBy};

use crate::shop::{named, open_shop, register, report};
use poets_command::Command;
use poets_engine::{Body, Kept};
use poets_expr::Asks;
use poets_host::{Host, checked};
use poets_types::TypeCause;
use poets_value::{List, push};
use std::alloc::Global;
use std::sync::Arc;
use std::test::Fail;
use std::thread::Threads;

// A contract takes so many deliveries of one unit of oil. The answer is how many it took.
fn taken<R: Threads + Sync>(rt: &R, alloc: Global, shop: &mut Host, count: u32) -> u32 {
    for place in 0..count {
        if !matches!(report(rt, alloc, shop, "Oil", 1), Ok(true)) {
            return place;
        }
    }
    count
}

// The portfolio of the contract.
fn portfolio(alloc: Global, shop: &Host) -> Result<Arc<Command>, TypeCause>
    ensures { IfOk result (λ c. IsTakenBy shop.now.engine.rules (command_of (arc_value c))) }
{
    let report = named(&shop.names, "sum");
    let args = List::new(alloc);
    let mut over = List::new(alloc);
    push(&mut over, named(&shop.names, "deal"))?;
    checked(
        alloc,
        &shop.engine,
        Command::Portfolio { report, args, over },
    )
}

// What is kept of it until its rows are made.
fn kept_of<R: Threads + Sync>(rt: &R, alloc: Global, shop: &mut Host) -> Result<Kept, TypeCause> {
    let command = portfolio(alloc, shop)?;
    let mut asks = Asks::new(());
    let kept = shop.engine.apply(rt, alloc, 1, &command, &mut asks)?;
    Ok(kept)
}

// How many events a piece of the portfolio's first contract has.
fn piece_length(kept: &Kept, place: usize) -> Option<usize> {
    match &kept.body {
        Body::Folio(work) => Some(work.parts.get(0)?.events.piece(place)?.len()),
        Body::Done(_) => None,
    }
}

// Registers a contract that takes any event, and reports 600 deliveries. The answer is how many it took, and the
// lengths of the first four pieces of its portfolio.
fn filled<R: Threads + Sync>(
    rt: &R,
    alloc: Global,
    shop: &mut Host,
) -> Result<(u32, [Option<usize>; 4]), TypeCause> {
    let _registered = register(rt, alloc, shop, "any", 0)?;
    let count = taken(rt, alloc, shop, 600);
    let kept = kept_of(rt, alloc, shop)?;
    let lengths = [
        piece_length(&kept, 0),
        piece_length(&kept, 1),
        piece_length(&kept, 2),
        piece_length(&kept, 3),
    ];
    Ok((count, lengths))
}

#[test]
fn six_hundred_events_stand_in_three_pieces(rt: HostRuntime) -> Result<(), Fail> {
    let alloc = rt.alloc();
    let mut shop = open_shop(alloc)?;
    let filled = filled(&rt, alloc, &mut shop);
    drop(shop);
    let (count, lengths) = filled?;
    assert_eq!(rt; count, 600);
    assert_eq!(rt; lengths, [Some(256), Some(256), Some(88), None]);
    Ok(())
}
