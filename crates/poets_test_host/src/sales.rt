//! A sale is registered, delivered and counted.
use crate::steps::Step::{self, Calls, Clerk, Fault, LastOwed, Refused, Registered, Sold, Taken};
use crate::steps::first_other;
use std::test::Fail;

const REGISTERED: [Step; 3] = [Registered(7), Calls(1), Clerk(0, 1)];

#[test]
fn a_sale_is_registered(rt: HostRuntime) -> Result<(), Fail> {
    assert_eq!(rt; first_other(&rt, rt.alloc(), &REGISTERED)?, None);
    Ok(())
}

// One unit too few is refused. The refused units are not counted, and their call stands in the history.
const DELIVERED: [Step; 7] = [
    Registered(7),
    Refused(6),
    Taken(7),
    Sold(7),
    Calls(4),
    Clerk(1, 2),
    Clerk(3, 3),
];

#[test]
fn only_what_was_agreed_is_recorded(rt: HostRuntime) -> Result<(), Fail> {
    assert_eq!(rt; first_other(&rt, rt.alloc(), &DELIVERED)?, None);
    Ok(())
}

// After the delivery the payment is owed.
const OWED: [Step; 3] = [Registered(7), Taken(7), LastOwed];

#[test]
fn the_account_tells_what_is_owed(rt: HostRuntime) -> Result<(), Fail> {
    assert_eq!(rt; first_other(&rt, rt.alloc(), &OWED)?, None);
    Ok(())
}

// The fault is no call.
const NO_KIND: [Step; 2] = [Fault(7), Calls(0)];

#[test]
fn an_event_of_no_kind_is_a_fault(rt: HostRuntime) -> Result<(), Fail> {
    assert_eq!(rt; first_other(&rt, rt.alloc(), &NO_KIND)?, None);
    Ok(())
}
