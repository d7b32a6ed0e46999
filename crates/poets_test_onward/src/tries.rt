//! Adders that go on.
ghost use Rattle.std.specs.Prelude.{◌≡◌, [], IfOk};
ghost use Rattle.std.specs.Arc.{arc_value};
ghost use Rattle.std.specs.Thread.{IsSync};

use poets_machine::Machine;
use poets_onward::Onward;
use poets_test_adder::{Adder, Sum};
use poets_value::Memory;
use std::alloc::Global;
use std::sync::Arc;
use std::test::Fail;
use std::thread::Threads;

// An adder with memory for so many calls.
#[derive(Drop)]
struct Scarce {
    adder: Adder,
    room: u32,
}

impl Machine for Scarce {
    type Call = u64;

    type Reply = u64;

    type Kept = Sum;

    type Frame = u64;

    ghost history = { λ s. ⟦<Adder as Machine>⟧.history s.adder };

    ghost frame = { λ s. ⟦<Adder as Machine>⟧.frame s.adder };

    ghost takes = { ⟦<Adder as Machine>⟧.takes };

    ghost answers = { ⟦<Adder as Machine>⟧.answers };

    ghost owes = { ⟦<Adder as Machine>⟧.owes };

    fn turn<R: Threads + Sync>(
        &mut self,
        rt: &R,
        alloc: Global,
        clerk: u32,
        call: &Arc<u64>,
    ) -> Result<Sum, Memory> {
        if self.room == 0 {
            return Err(Memory);
        }
        self.room -= 1;
        self.adder.turn(rt, alloc, clerk, call)
    }

    fn place(kept: &Sum) -> u64 {
        Adder::place(kept)
    }

    fn finish<R: Threads + Sync>(rt: &R, alloc: Global, kept: Sum) -> Result<u64, Memory> {
        Adder::finish(rt, alloc, kept)
    }
}

// A machine that took a call from clerk 1 and from clerk 2, and goes on.
fn after_two<M: Machine, R: Threads + Sync>(
    rt: &R,
    alloc: Global,
    mut machine: M,
    call: &Arc<M::Call>,
) -> Result<Onward<M>, Memory>
    requires sync { IsSync R.row }
    requires new { M.history machine ≡ [] }
    requires takes { M.takes (M.frame machine) (arc_value call.now) }
    ensures frame { IfOk result (λ o. (⟦<Onward<M> as Machine>⟧.frame o).inner ≡ M.frame machine) }
    ensures history { IfOk result (λ o. ⟦<Onward<M> as Machine>⟧.history o ≡ []) }
{
    let _ = machine.turn(rt, alloc, 1, call)?;
    let _ = machine.turn(rt, alloc, 2, call)?;
    Ok(Onward::new(machine, 2))
}

// The place of the call, and the reply.
fn answered<M: Machine, R: Threads + Sync>(
    rt: &R,
    alloc: Global,
    kept: M::Kept,
) -> Result<(u64, M::Reply), Memory>
    requires sync { IsSync R.row }
{
    let place = M::place(&kept);
    Ok((place, M::finish(rt, alloc, kept)?))
}

#[test]
fn an_adder_goes_on(rt: HostRuntime) -> Result<(), Fail> {
    let alloc = rt.alloc();
    let five = Arc::new(alloc, 5)?;
    let mut machine = after_two(&rt, alloc, Adder::new(alloc, 9), &five)?;
    let one = machine.turn(&rt, alloc, 2, &five)?;
    let two = machine.turn(&rt, alloc, 1, &five)?;
    assert_eq!(rt; answered::<Onward<Adder>, _>(&rt, alloc, two)?, (1, 20));
    assert_eq!(rt; answered::<Onward<Adder>, _>(&rt, alloc, one)?, (0, 15));
    let adder = machine.end();
    assert_eq!(rt; adder.sum(), 20);
    let mut clerks = [0; 4];
    for (place, (clerk, _)) in adder.entries().iter().enumerate() {
        if let Some(found) = clerks.get_mut(place) {
            *found = *clerk;
        }
    }
    assert_eq!(rt; clerks, [1, 2, 2, 1]);
    Ok(())
}

#[test]
fn an_adder_goes_on_from_the_beginning(rt: HostRuntime) -> Result<(), Fail> {
    let alloc = rt.alloc();
    let five = Arc::new(alloc, 5)?;
    let mut machine = Onward::new(Adder::new(alloc, 9), 0);
    let kept = machine.turn(&rt, alloc, 1, &five)?;
    assert_eq!(rt; answered::<Onward<Adder>, _>(&rt, alloc, kept)?, (0, 5));
    assert_eq!(rt; machine.end().sum(), 5);
    Ok(())
}

// Places are counted from where it went on the last time.
#[test]
fn an_adder_goes_on_again(rt: HostRuntime) -> Result<(), Fail> {
    let alloc = rt.alloc();
    let five = Arc::new(alloc, 5)?;
    let mut machine = after_two(&rt, alloc, Adder::new(alloc, 9), &five)?;
    let _ = machine.turn(&rt, alloc, 1, &five)?;
    let mut again = Onward::new(machine, 1);
    let kept = again.turn(&rt, alloc, 1, &five)?;
    assert_eq!(rt;
        answered::<Onward<Onward<Adder>>, _>(&rt, alloc, kept)?,
        (0, 20)
    );
    assert_eq!(rt; again.end().end().sum(), 20);
    Ok(())
}

#[test]
fn a_turn_without_memory_changes_nothing(rt: HostRuntime) -> Result<(), Fail> {
    let alloc = rt.alloc();
    let five = Arc::new(alloc, 5)?;
    let scarce = Scarce {
        adder: Adder::new(alloc, 9),
        room: 3,
    };
    let mut machine = after_two(&rt, alloc, scarce, &five)?;
    let kept = machine.turn(&rt, alloc, 1, &five)?;
    assert_eq!(rt; answered::<Onward<Scarce>, _>(&rt, alloc, kept)?, (0, 15));
    assert!(rt; machine.turn(&rt, alloc, 1, &five).is_err());
    let scarce = machine.end();
    assert_eq!(rt; scarce.adder.sum(), 15);
    assert_eq!(rt; scarce.adder.entries().len(), 3);
    Ok(())
}
