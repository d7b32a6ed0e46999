//! The builders of normal forms in tables of rows. Alternatives are compared by their rows, or by the classes of these.
ghost use Rattle.std.specs.Prelude.{◌≡◌, ◌<◌, IfOk, IsTrue, length};
ghost use Rattle.poets_syntax.specs.Contract.{Failure};
ghost use Rattle.poets_calculus.specs.Normal as normal;
ghost use Rattle.poets_norm.specs.Choices.{IsDistinctChoice, regrouped};
ghost use Rattle.poets_norm.specs.Choices as spec;
ghost use Rattle.poets_norm.specs.Rows.{joined_at, Enters};
ghost use Rattle.poets_norm.specs.code.Alternatives.{added, is_alternative};
ghost use Rattle.poets_norm.specs.code.Grouping.{beside_parts, joined_parts};
ghost use Rattle.poets_cons.specs.Table.{contract_at, Extends};

use poets_cons::{Arena, Node};
use poets_value::Memory;

/// The row of `Failure`.
pub fn failure(arena: &mut Arena) -> Result<usize, Memory>
    ensures grows { Extends arena.old arena.new }
    ensures stands { Enters arena.new result Failure }
{
    arena.add(Node::Failure)
}

/// Both rows side by side: `Failure` where one is, and the other where one is `Success`. Otherwise
/// the parts of the first and then those of the second, grouped to the left.
pub fn par(arena: &mut Arena, a: usize, b: usize) -> Result<usize, Memory>
    requires first { a < length arena.old }
    requires second { b < length arena.old }
    ensures grows { Extends arena.old arena.new }
    ensures stands { Enters arena.new result (joined_at normal.par arena.old a b) }
{
    match (arena.node(a), arena.node(b)) {
        (Node::Failure, _) => Ok(a),
        (_, Node::Failure) => Ok(b),
        (Node::Success, _) => Ok(b),
        (_, Node::Success) => Ok(a),
        _ => beside(arena, a, b),
    }
}

// The parallel parts of two rows, grouped to the left.
fn beside(arena: &mut Arena, a: usize, b: usize) -> Result<usize, Memory>
    requires first { a < length arena.old }
    requires second { b < length arena.old }
    ensures grows { Extends arena.old arena.new }
    ensures stands { Enters arena.new result (joined_at joined_parts arena.old a b) }
{
    let first = grouped(arena, a)?;
    join(arena, first, b)
}

// The parallel parts of a row, grouped to the left.
fn grouped(arena: &mut Arena, place: usize) -> Result<usize, Memory>
    requires { place < length arena.old }
    ensures grows { Extends arena.old arena.new }
    ensures stands { Enters arena.new result (regrouped (contract_at arena.old place)) }
{
    if arena.is_grouped(place) {
        return Ok(place);
    }
    match arena.node(place) {
        Node::Par(a, b) => {
            let a = *a;
            let b = *b;
            let first = grouped(arena, a)?;
            join(arena, first, b)
        }
        _ => Ok(place),
    }
}

// A row beside the parallel parts of another, one after the other.
fn join(arena: &mut Arena, first: usize, place: usize) -> Result<usize, Memory>
    requires first { first < length arena.old }
    requires second { place < length arena.old }
    ensures grows { Extends arena.old arena.new }
    ensures stands { Enters arena.new result (joined_at beside_parts arena.old first place) }
{
    match arena.node(place) {
        Node::Par(a, b) => {
            let a = *a;
            let b = *b;
            let first = join(arena, first, a)?;
            join(arena, first, b)
        }
        _ => arena.add(Node::Par(first, place)),
    }
}

/// One row and then the other: `Failure` where one is, and the other where one is `Success`.
pub fn seq(arena: &mut Arena, a: usize, b: usize) -> Result<usize, Memory>
    requires first { a < length arena.old }
    requires second { b < length arena.old }
    ensures grows { Extends arena.old arena.new }
    ensures stands { Enters arena.new result (joined_at normal.seq arena.old a b) }
{
    match (arena.node(a), arena.node(b)) {
        (Node::Failure, _) => Ok(a),
        (_, Node::Failure) => Ok(b),
        (Node::Success, _) => Ok(b),
        (_, Node::Success) => Ok(a),
        _ => arena.add(Node::Seq(a, b)),
    }
}

// Whether the choice at one row has an alternative that is alike to another row. Alternatives stand no
// later than their choice, so a row that was added after it is none of them; and where no `||` stands
// in it, it is alike to itself alone, and nothing is compared.
fn has(arena: &mut Arena, choice: usize, place: usize) -> Result<bool, Memory>
    requires choice { choice < length arena.old }
    requires place { place < length arena.old }
    ensures same { arena.new ≡ arena.old }
    ensures has { IfOk result (λ r. r ≡ is_alternative arena.old choice place) }
{
    let node = arena.node(choice);
    if choice < place && !arena.has_parallel(place) {
        return Ok(false);
    }
    match node {
        Node::Failure => Ok(false),
        Node::Plus(front, last) => {
            let front = *front;
            let last = *last;
            if has(arena, last, place)? {
                return Ok(true);
            }
            has(arena, front, place)
        }
        _ => arena.alike(choice, place),
    }
}

// The choice with one more alternative at its end, unless it is known to have an alike one.
fn add(arena: &mut Arena, choice: usize, last: usize, is_known: bool) -> Result<usize, Memory>
    requires choice { choice < length arena.old }
    requires last { last < length arena.old }
    ensures grows { Extends arena.old arena.new }
    ensures stands { Enters arena.new result (joined_at (added is_known) arena.old choice last) }
{
    if is_known {
        return Ok(choice);
    }
    arena.add(Node::Plus(choice, last))
}

/// The choice of two choices of distinct alternatives: the first as it is, and after it those alternatives of the
/// second that are alike to none of its own.
pub fn merge(arena: &mut Arena, a: usize, b: usize) -> Result<usize, Memory>
    requires within_first { a < length arena.old }
    requires within_second { b < length arena.old }
    requires first { IsDistinctChoice (contract_at arena.old a) }
    requires second { IsDistinctChoice (contract_at arena.old b) }
    ensures grows { Extends arena.old arena.new }
    ensures stands { Enters arena.new result (joined_at normal.plus arena.old a b) }
{
    match (arena.node(a), arena.node(b)) {
        (Node::Failure, _) => Ok(b),
        (_, Node::Failure) => Ok(a),
        (_, Node::Plus(front, last)) => {
            let front = *front;
            let last = *last;
            let is_known = has(arena, a, last)?;
            let choice = merge(arena, a, front)?;
            add(arena, choice, last, is_known)
        }
        _ => {
            let is_known = has(arena, a, b)?;
            add(arena, a, b, is_known)
        }
    }
}

/// The choice of the distinct alternatives of a row.
pub fn distinct_choice(arena: &mut Arena, place: usize) -> Result<usize, Memory>
    requires { place < length arena.old }
    ensures grows { Extends arena.old arena.new }
    ensures stands { Enters arena.new result (spec.distinct_choice (contract_at arena.old place)) }
{
    match arena.node(place) {
        Node::Plus(a, b) => {
            let a = *a;
            let b = *b;
            let first = distinct_choice(arena, a)?;
            let second = distinct_choice(arena, b)?;
            merge(arena, first, second)
        }
        _ => Ok(place),
    }
}

// The choice of the distinct alternatives of a row, which may be known to be one.
fn as_choice(arena: &mut Arena, place: usize, is_known: bool) -> Result<usize, Memory>
    requires within { place < length arena.old }
    requires known { IsTrue is_known → IsDistinctChoice (contract_at arena.old place) }
    ensures grows { Extends arena.old arena.new }
    ensures stands { Enters arena.new result (spec.distinct_choice (contract_at arena.old place)) }
{
    if is_known {
        return Ok(place);
    }
    distinct_choice(arena, place)
}

/// The choice of two rows, which may be known to be choices of distinct alternatives.
pub fn either(
    arena: &mut Arena,
    a: usize,
    is_a_known: bool,
    b: usize,
    is_b_known: bool,
) -> Result<usize, Memory>
    requires within_first { a < length arena.old }
    requires within_second { b < length arena.old }
    requires first { IsTrue is_a_known → IsDistinctChoice (contract_at arena.old a) }
    requires second { IsTrue is_b_known → IsDistinctChoice (contract_at arena.old b) }
    ensures grows { Extends arena.old arena.new }
    ensures stands { Enters arena.new result (joined_at normal.plus arena.old a b) }
{
    let first = as_choice(arena, a, is_a_known)?;
    let second = as_choice(arena, b, is_b_known)?;
    merge(arena, first, second)
}
