//! Ways of choices, and the parts that contracts are joined from.
ghost use Rattle.std.specs.Prelude.{◌≡◌, ◌≢◌, ◌↔◌, ◌<◌, length, IfNone, IfSome, IsTrue};
ghost use Rattle.poets_syntax.specs.Contract.{contract_of, Failure, Seq, Success};
ghost use Rattle.poets_calculus.specs.Normal.{par};
ghost use Rattle.poets_norm.specs.Choices.{regrouped};
ghost use Rattle.poets_norm.specs.code.Grouping.{beside_parts};
ghost use Rattle.poets_way.specs.Trails.{way_at};
ghost use Rattle.poets_route.specs.code.Choices.{Chooses, Embeds, HasNoFront, HasNoStart, IsAlternative};
ghost use Rattle.poets_route.specs.code.Making.{Gives};

use poets_syntax::{Term, same};
use poets_value::Memory;
use poets_way::{Node, Trails};

/// Whether the contract is an alternative of the choice.
pub(crate) fn has(choice: &Term, term: &Term) -> bool
    ensures { IsTrue result ↔ IsAlternative (contract_of choice.now) (contract_of term.now) }
{
    match choice {
        Term::Failure => false,
        Term::Plus(front, last) => has(last, term) || has(front, term),
        other => same(other, term),
    }
}

/// The alternative that a way of a choice takes, and its way in that.
pub(crate) fn chosen<'a>(choice: &'a Term, trails: &Trails, way: usize) -> (&'a Term, usize)
    requires { way < length trails.now.ways }
    ensures within { result.1 < length trails.now.ways }
    ensures way { Chooses (contract_of choice.now) (contract_of result.0.now) (way_at trails.now way)
        (way_at trails.now result.1) }
{
    let Term::Plus(front, last) = choice else {
        return (choice, way);
    };
    match trails.node(way) {
        Node::Left(part) => chosen(front, trails, part),
        Node::Right(part) => chosen(last, trails, part),
        _ => (choice, way),
    }
}

/// A way of the choice, from one of an alternative.
pub(crate) fn embedded(
    choice: &Term,
    goal: &Term,
    trails: &mut Trails,
    way: usize,
) -> Result<usize, Memory>
    requires { way < length trails.old.ways }
    ensures { Gives trails.old trails.new result
        (Embeds (contract_of choice.now) (contract_of goal.now) (way_at trails.old way)) }
{
    let Term::Plus(front, last) = choice else {
        return Ok(way);
    };
    if has(last, goal) {
        let part = embedded(last, goal, trails, way)?;
        return trails.right(part);
    }
    let part = embedded(front, goal, trails, way)?;
    trails.left(part)
}

/// Whether nothing is left to do.
pub(crate) fn is_done(term: &Term) -> bool
    ensures { IsTrue result ↔ (contract_of term.now ≡ Success) }
{
    matches!(term, Term::Success)
}

/// The contract to which the parts of the second are joined by `||`.
pub(crate) fn front<'a>(term: &'a Term, second: &Term) -> Option<&'a Term>
    ensures some { IfSome result
        (λ x. contract_of term.now ≡ beside_parts (contract_of x.now) (contract_of second.now)) }
    ensures none { IfNone result (HasNoFront (contract_of term.now) (contract_of second.now)) }
{
    if let Term::Par(a, b) = second {
        let rest = front(term, b)?;
        return front(rest, a);
    }
    match term {
        Term::Par(a, b) if same(b, second) => Some(a),
        _ => None,
    }
}

/// The contract before the second, in sequence.
pub(crate) fn start<'a>(term: &'a Term, second: &Term) -> Option<&'a Term>
    ensures some { IfSome result (λ x. contract_of term.now ≡ Seq (contract_of x.now) (contract_of second.now)) }
    ensures none { IfNone result (HasNoStart (contract_of term.now) (contract_of second.now)) }
{
    match term {
        Term::Seq(a, b) if same(b, second) => Some(a),
        _ => None,
    }
}

// Whether nothing can follow.
fn is_failure(term: &Term) -> bool
    ensures { IsTrue result ↔ (contract_of term.now ≡ Failure) }
{
    matches!(term, Term::Failure)
}

// Whether the contract is the first with the parts of the second joined to it.
fn is_front(a: &Term, b: &Term, term: &Term) -> bool
    ensures { IsTrue result ↔ (contract_of term.now ≡ beside_parts (contract_of a.now) (contract_of b.now)) }
{
    let Some(rest) = front(term, b) else {
        return false;
    };
    same(rest, a)
}

/// Whether the contract is an alternative of two side by side, as their normal form joins them.
pub(crate) fn is_beside(a: &Term, b: &Term, term: &Term) -> bool
    requires grouped { regrouped (contract_of a.now) ≡ contract_of a.now }
    requires hopeful { contract_of a.now ≢ Failure }
    requires unfinished { contract_of a.now ≢ Success }
    ensures { IsTrue result ↔ IsAlternative (par (contract_of a.now) (contract_of b.now)) (contract_of term.now) }
{
    if is_failure(b) {
        return false;
    }
    if is_done(b) {
        return has(a, term);
    }
    is_front(a, b, term)
}
