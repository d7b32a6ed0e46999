//! Whose each event is, of contracts side by side.
ghost use Rattle.std.specs.Prelude.{◌≡◌, ◌-◌, ◌<◌, length, min, IfOk};
ghost use Rattle.poets_way.specs.Trails.{seconds, sides_at};
ghost use Rattle.poets_way.specs.code.Sides.{repeated};
ghost use Rattle.poets_route.specs.code.Making.{GivesSides};
ghost use Rattle.poets_route.specs.code.Grouping.{Regroups};

use poets_value::{List, Memory, push};
use poets_way::Trails;
use std::alloc::Global;

/// As many events as said, all of one side.
pub(crate) fn all_of(trails: &mut Trails, count: u64, side: bool) -> Result<usize, Memory>
    ensures { GivesSides trails.old trails.new result (λ s. s ≡ repeated count side) }
{
    let mut sides = trails.no_sides();
    for _event in 0..count {
        sides = trails.side(side, sides)?;
    }
    Ok(sides)
}

// The sides as a list of their own.
fn listed(alloc: Global, trails: &Trails, sides: usize) -> Result<List<bool>, Memory>
    requires { sides < length trails.now.sides }
    ensures { IfOk result (λ r. r.items ≡ sides_at trails.now sides) }
{
    let mut list = List::new(alloc);
    let mut rest = sides;
    while let Some((second, later)) = trails.side_at(rest) {
        push(&mut list, second)?;
        rest = later;
    }
    Ok(list)
}

/// Of three contracts, grouped to the left: whose each event is, of the first or of the other two, and whose each event
/// of these is.
pub(crate) fn regroup(
    alloc: Global,
    trails: &mut Trails,
    last: usize,
    second: usize,
) -> Result<(usize, usize), Memory>
    requires last { last < length trails.old.sides }
    requires second { second < length trails.old.sides }
    ensures { IfOk result (λ r. Regroups trails.old trails.new last second r.0 r.1) }
{
    let mut last = listed(alloc, trails, last)?;
    let mut second = listed(alloc, trails, second)?;
    let mut outer = trails.no_sides();
    let mut inner = outer;
    while let Some(is_last) = last.pop() {
        if is_last {
            outer = trails.side(true, outer)?;
            inner = trails.side(true, inner)?;
            continue;
        }
        let Some(is_second) = second.pop() else {
            break;
        };
        outer = trails.side(is_second, outer)?;
        if is_second {
            inner = trails.side(false, inner)?;
        }
    }
    Ok((outer, inner))
}

/// How many of so many events are the first one's, and how many the second one's.
pub(crate) fn shares(trails: &Trails, sides: usize, events: u64) -> (u64, u64)
    requires { sides < length trails.now.sides }
    ensures first { result.0 ≡ events - min (seconds (sides_at trails.now sides)) events }
    ensures second { result.1 ≡ min (seconds (sides_at trails.now sides)) events }
{
    let second = (trails.seconds(sides) as u64).min(events);
    (events - second, second)
}
