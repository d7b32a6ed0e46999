//! Bags of classes: how many parallel parts have each.
ghost use Rattle.std.specs.Prelude.{◌≡◌, ◌≤◌, ◌+◌, ◌-◌, ◌∷◌, [], length, slice_get, IfOk, Some};
ghost use Rattle.poets_cons.specs.code.Bags.{forked_at, AreBags};
ghost use Rattle.poets_cons.specs.code.Bags.{IsBagOf, IsBagOfBoth, IsLonger};

use indexmap::IndexSet;
use poets_value::Memory;

/// A count for each class, as one row of a table. Number 0 is the empty bag, and number `k + 1` that of row `k`.
#[derive(Clone, Copy, PartialEq, Eq, Hash)]
pub(crate) struct Bag {
    /// The count for class 0.
    pub count: usize,
    /// The number of the bag that has for class `m` what this has for `2 * m + 1`.
    pub odd: usize,
    /// The number of the bag that has for class `m` what this has for `2 * m + 2`.
    pub even: usize,
}

// The number of the bag of this row, which is added where it is not there.
fn insert(bags: &mut IndexSet<Bag>, count: usize, odd: usize, even: usize) -> Result<usize, Memory>
    requires bags { AreBags bags.old.keys }
    requires odd { odd ≤ length bags.old.keys }
    requires even { even ≤ length bags.old.keys }
    requires some { 1 ≤ count + odd + even }
    ensures bags { AreBags bags.new.keys }
    ensures grows { IsLonger bags.old.keys bags.new.keys }
    ensures number { IfOk result (IsBagOf bags.new.keys (forked_at bags.old.keys count odd even)) }
{
    let Ok((row, _)) = bags.insert_full(Bag { count, odd, even }) else {
        return Err(Memory);
    };
    let Some(number) = row.checked_add(1) else {
        return Err(Memory);
    };
    Ok(number)
}

// The row of a bag that counts something.
fn row_at(bags: &IndexSet<Bag>, number: usize) -> Bag
    requires some { 1 ≤ number }
    requires within { number ≤ length bags.now.keys }
    ensures { slice_get bags.now.keys (number - 1) ≡ Some result }
{
    match bags.get_index(number - 1) {
        Some(bag) => *bag,
        None => unreachable!(),
    }
}

/// The number of the bag of one part.
pub(crate) fn unit(bags: &mut IndexSet<Bag>, class: usize) -> Result<usize, Memory>
    requires { AreBags bags.old.keys }
    ensures bags { AreBags bags.new.keys }
    ensures grows { IsLonger bags.old.keys bags.new.keys }
    ensures number { IfOk result (IsBagOf bags.new.keys (class ∷ [])) }
{
    if class == 0 {
        return insert(bags, 1, 0, 0);
    }
    let rest = unit(bags, (class - 1) / 2)?;
    if class % 2 == 1 {
        insert(bags, 0, rest, 0)
    } else {
        insert(bags, 0, 0, rest)
    }
}

/// The number of the bag of the parts of both. More parts of a class than fit a `usize` are refused as if memory
/// were out.
pub(crate) fn join(bags: &mut IndexSet<Bag>, a: usize, b: usize) -> Result<usize, Memory>
    requires bags { AreBags bags.old.keys }
    requires first { a ≤ length bags.old.keys }
    requires second { b ≤ length bags.old.keys }
    ensures bags { AreBags bags.new.keys }
    ensures grows { IsLonger bags.old.keys bags.new.keys }
    ensures number { IfOk result (IsBagOfBoth bags.old.keys a b bags.new.keys) }
{
    if a == 0 {
        return Ok(b);
    }
    if b == 0 {
        return Ok(a);
    }
    let first = row_at(bags, a);
    let second = row_at(bags, b);
    let Some(count) = first.count.checked_add(second.count) else {
        return Err(Memory);
    };
    let odd = join(bags, first.odd, second.odd)?;
    let even = join(bags, first.even, second.even)?;
    insert(bags, count, odd, even)
}
