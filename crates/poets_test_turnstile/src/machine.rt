//! Turns of an adder, by themselves.

use poets_machine::Machine;
use poets_test_adder::Adder;
use std::sync::Arc;
use std::test::Fail;

#[test]
fn a_reply_is_finished_after_other_turns(rt: HostRuntime) -> Result<(), Fail> {
    let alloc = rt.alloc();
    let mut adder = Adder::new(alloc, 9);
    let five = Arc::new(alloc, 5)?;
    let one = adder.turn(&rt, alloc, 1, &five)?;
    let two = adder.turn(&rt, alloc, 2, &five)?;
    let places = (Adder::place(&one), Adder::place(&two));
    let second = Adder::finish(&rt, alloc, two)?;
    let first = Adder::finish(&rt, alloc, one)?;
    let made = (adder.sum(), adder.entries().len());
    drop(adder);
    assert_eq!(rt; places, (0, 1));
    assert_eq!(rt; (first, second), (5, 10));
    assert_eq!(rt; made, (10, 2));
    Ok(())
}
