//! Ways of parallel parts, grouped otherwise.
ghost use Rattle.std.specs.Prelude.{◌<◌, length};
ghost use Rattle.poets_syntax.specs.Contract.{contract_of};
ghost use Rattle.poets_way.specs.Trails.{sides_at, way_at};
ghost use Rattle.poets_route.specs.code.Grouping.{IsGroupedRight, Takes};
ghost use Rattle.poets_route.specs.code.Making.{Gives};

use crate::reading::both_of;
use crate::sides::regroup;
use poets_syntax::Term;
use poets_value::Memory;
use poets_way::Trails;
use std::alloc::Global;

// A way of one contract and two others, which are side by side, by the sides and the ways of the three grouped to the
// left.
fn grouped(
    alloc: Global,
    trails: &mut Trails,
    last: usize,
    second: usize,
    a: usize,
    b: usize,
    c: usize,
) -> Result<usize, Memory>
    requires last { last < length trails.old.sides }
    requires second { second < length trails.old.sides }
    requires a { a < length trails.old.ways }
    requires b { b < length trails.old.ways }
    requires c { c < length trails.old.ways }
    ensures { let old = trails.old in Gives old trails.new result
        (IsGroupedRight (sides_at old last) (sides_at old second) (way_at old a) (way_at old b)
        (way_at old c)) }
{
    let (outer, inner) = regroup(alloc, trails, last, second)?;
    let others = trails.both(inner, b, c)?;
    trails.both(outer, a, others)
}

/// A way of a contract and a second one side by side, from a way of the contract with the parts of the second joined to
/// it. What is no such way stays as it is.
pub(crate) fn beside(
    alloc: Global,
    second: &Term,
    trails: &mut Trails,
    way: usize,
) -> Result<usize, Memory>
    requires { way < length trails.old.ways }
    ensures { Gives trails.old trails.new result (Takes (contract_of second.now) (way_at trails.old way)) }
{
    let Term::Par(a, b) = second else {
        return Ok(way);
    };
    let parted = beside(alloc, b, trails, way)?;
    let Some((last, first, third)) = both_of(trails, parted) else {
        return Ok(parted);
    };
    let front = beside(alloc, a, trails, first)?;
    let Some((sides, first, second)) = both_of(trails, front) else {
        return Ok(front);
    };
    grouped(alloc, trails, last, sides, first, second, third)
}
