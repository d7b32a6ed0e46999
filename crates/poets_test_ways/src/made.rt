//! Ways that are made by hand.
ghost use Rattle.std.specs.Prelude.{◌≡◌, ◌+◌, ◌<◌, ◌≤◌, length, IfOk, IfSome, IfNone, OnOk};

use poets_value::{List, Memory, push};
use poets_way::{Trails, Way};
use std::alloc::Global;

// Takes the number of the last part that was read, which may be at most that of the last way.
fn part(parts: &mut List<usize>, last: usize) -> Result<usize, Memory>
    ensures { IfOk result (λ n. n ≤ last) }
{
    match parts.pop() {
        Some(part) if part <= last => Ok(part),
        _ => Err(Memory),
    }
}

// The number of the list of these sides.
fn sides(trails: &mut Trails, letters: &str) -> Result<usize, Memory>
    ensures known { IfOk result (λ n. n < length trails.new.sides) }
    ensures ways { OnOk result (trails.new.ways ≡ trails.old.ways) }
{
    let mut sides = trails.no_sides();
    for letter in letters.as_bytes().iter().rev() {
        if *letter != b'-' {
            sides = trails.side(*letter == b'R', sides)?;
        }
    }
    Ok(sides)
}

// The way that begins with the word, by the parts that stand behind it and the word that does; none where the word is
// itself the sides or the number of such a way.
fn way_from(
    trails: &mut Trails,
    parts: &mut List<usize>,
    last: usize,
    word: &str,
    behind: &str,
) -> Result<Option<usize>, Memory>
    requires { length trails.old.ways ≡ last + 1 }
    ensures some { IfOk result (λ o. IfSome o (λ n. length trails.new.ways ≡ n + 1)) }
    ensures none { IfOk result (λ o. IfNone o (length trails.new.ways ≡ last + 1)) }
{
    let way = match word {
        "done" => trails.nothing()?,
        "paid" => {
            let done = trails.nothing()?;
            let took = trails.take(done)?;
            trails.enter(took)?
        }
        "enter" => trails.enter(part(parts, last)?)?,
        "take" => trails.take(part(parts, last)?)?,
        "left" => trails.left(part(parts, last)?)?,
        "right" => trails.right(part(parts, last)?)?,
        "both" => {
            let (first, second) = (part(parts, last)?, part(parts, last)?);
            let sides = sides(trails, behind)?;
            trails.both(sides, first, second)?
        }
        "then" => {
            let (first, second) = (part(parts, last)?, part(parts, last)?);
            let Ok(count) = behind.parse::<u64>() else {
                return Err(Memory);
            };
            trails.then(count, first, second)?
        }
        _ => return Ok(None),
    };
    Ok(Some(way))
}

/// The way of the text, which has no brackets and is read from its end. In it `paid` stands for `enter take done`.
pub(crate) fn way(alloc: Global, text: &str) -> Result<Way, Memory> {
    let mut words = List::new(alloc);
    for word in text.split_whitespace() {
        push(&mut words, word)?;
    }
    let mut trails = Trails::new(alloc);
    let mut last = trails.nothing()?;
    let mut parts = List::new(alloc);
    let mut behind = "";
    while let Some(word) = words.pop() {
        if let Some(way) = way_from(&mut trails, &mut parts, last, word, behind)? {
            push(&mut parts, way)?;
            last = way;
        }
        behind = word;
    }
    trails.way(alloc, last)
}

/// A way of `template any() = Success + transmit(a, b, r, t | true). any()` that takes so many events.
pub(crate) fn long_way(alloc: Global, count: u64) -> Result<Way, Memory> {
    let mut trails = Trails::new(alloc);
    let done = trails.nothing()?;
    let done = trails.left(done)?;
    let mut way = trails.enter(done)?;
    for _ in 0..count {
        way = trails.take(way)?;
        way = trails.right(way)?;
        way = trails.enter(way)?;
    }
    trails.way(alloc, way)
}

/// So many ways, each of which is the first part of the next one.
pub(crate) fn deep_way(alloc: Global, count: u64) -> Result<Way, Memory> {
    let mut trails = Trails::new(alloc);
    let none = trails.no_sides();
    let done = trails.nothing()?;
    let mut way = done;
    for _ in 0..count {
        way = trails.both(none, way, done)?;
    }
    trails.way(alloc, way)
}
