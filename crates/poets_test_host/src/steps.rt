//! What the shop does, step by step, and what comes of it.

use crate::shop::{clerk_of, count, named, open_shop, register, report};
use poets_command::Reply;
use poets_host::Host;
use poets_session::SessionFault;
use poets_syntax::Term;
use poets_types::TypeCause;
use poets_value::Ty;
use std::alloc::Global;
use std::thread::Threads;

/// A step, and what comes of it.
#[derive(Clone, Copy)]
pub(crate) enum Step {
    /// The sale of so many units is registered, as the first contract.
    Registered(u32),
    /// The deal takes the delivery of so many units of oil.
    Taken(u32),
    /// It does not take the delivery.
    Refused(u32),
    /// Bob is no kind: so many units of him are a fault.
    Fault(u32),
    /// So many units were sold.
    Sold(i64),
    /// One event is recorded, and the contract ends with one transmission more.
    LastOwed,
    /// So many calls stand in the history.
    Calls(usize),
    /// The call at this place is that of this clerk.
    Clerk(usize, u32),
}

/// The place of the first step that goes otherwise in a new shop, counted from 0.
pub(crate) fn first_other<R: Threads + Sync>(
    rt: &R,
    alloc: Global,
    steps: &[Step],
) -> Result<Option<usize>, SessionFault> {
    let mut shop = open_shop(alloc)?;
    Ok(first_other_in(rt, alloc, &mut shop, steps))
}

fn first_other_in<R: Threads + Sync>(
    rt: &R,
    alloc: Global,
    shop: &mut Host,
    steps: &[Step],
) -> Option<usize> {
    for (place, step) in steps.iter().enumerate() {
        if !goes(rt, alloc, shop, *step) {
            return Some(place);
        }
    }
    None
}

// Whether the step goes so.
fn goes<R: Threads + Sync>(rt: &R, alloc: Global, shop: &mut Host, step: Step) -> bool {
    match step {
        Step::Registered(units) => is_first(&register(rt, alloc, shop, "sale", units)),
        Step::Taken(units) => matches!(report(rt, alloc, shop, "Oil", units), Ok(true)),
        Step::Refused(units) => matches!(report(rt, alloc, shop, "Oil", units), Ok(false)),
        Step::Fault(units) => is_no_kind(report(rt, alloc, shop, "bob", units)),
        Step::Sold(units) => count(rt, alloc, shop) == Some(units),
        Step::LastOwed => owes_last(alloc, shop),
        Step::Calls(number) => shop.engine.history().len() == number,
        Step::Clerk(place, clerk) => clerk_of(shop, place) == Some(clerk),
    }
}

fn is_first(reply: &Result<Reply, TypeCause>) -> bool {
    matches!(reply, Ok(Reply::Registered(1)))
}

// An agent stands where a kind is wanted.
fn is_no_kind(answer: Result<bool, TypeCause>) -> bool {
    let wanted = Ty::Kind;
    let found = Ty::Agent;
    answer == Err(TypeCause::WrongType { wanted, found })
}

// Whether the account of the deal has one event, and one transmission more ends the contract.
fn owes_last(alloc: Global, shop: &Host) -> bool {
    let deal = named(&shop.names, "deal");
    let Ok(Some(account)) = shop.engine.account(alloc, deal) else {
        return false;
    };
    let is_last = match &account.residual {
        Term::Transmit { then, .. } => matches!(**then, Term::Success),
        _ => false,
    };
    is_last && account.events.len() == 1 && !account.ended
}
