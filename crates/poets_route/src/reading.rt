//! Ways as their heads are read.
ghost use Rattle.std.specs.Prelude.{◌≡◌, ◌<◌, ◌≤◌, length, IfSome, IfNone};
ghost use Rattle.poets_way.specs.Trails.{way_at};
ghost use Rattle.poets_route.specs.code.Reading.{IsBoth, IsBothAt, IsTake, IsTakeAt, IsThen, IsThenAt};

use poets_way::{Node, Trails};

/// The parts of the way of a transmit: that of its continuation.
pub(crate) fn take_of(trails: &Trails, way: usize) -> Option<usize>
    requires { way < length trails.now.ways }
    ensures some { IfSome result (IsTakeAt trails.now way) }
    ensures none { IfNone result (IsTake (way_at trails.now way) → ⊥) }
{
    match trails.node(way) {
        Node::Take(part) => Some(part),
        _ => None,
    }
}

/// The sides and the parts of the way of two contracts side by side.
pub(crate) fn both_of(trails: &Trails, way: usize) -> Option<(usize, usize, usize)>
    requires { way < length trails.now.ways }
    ensures some { IfSome result (λ p. IsBothAt trails.now way p.0 p.1 p.2) }
    ensures none { IfNone result (IsBoth (way_at trails.now way) → ⊥) }
{
    match trails.node(way) {
        Node::Both {
            sides,
            first,
            second,
        } => Some((sides, first, second)),
        _ => None,
    }
}

/// The count and the parts of the way of a sequence, whose first part has at most so many events.
pub(crate) fn then_of(trails: &Trails, way: usize, events: u64) -> Option<(u64, usize, usize)>
    requires { way < length trails.now.ways }
    ensures some { IfSome result (λ p. IsThenAt trails.now way p.0 p.1 p.2) }
    ensures count { IfSome result (λ p. p.0 ≤ events) }
    ensures none { IfNone result (IsThen events (way_at trails.now way) → ⊥) }
{
    match trails.node(way) {
        Node::Then {
            count,
            first,
            second,
        } if count <= events => Some((count, first, second)),
        _ => None,
    }
}
