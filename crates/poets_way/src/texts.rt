//! Texts of ways.
ghost use Rattle.std.specs.Prelude.{◌≡◌, reverse, IfOk, OnOk, map, string_bytes};
ghost use Rattle.std.specs.Fmt.{decimal};
ghost use Rattle.poets_value.specs.code.Texts.{Puts};
ghost use Rattle.poets_way.specs.Texts as texts;
ghost use Rattle.poets_way.specs.Moves.{move_of};
ghost use Rattle.poets_way.specs.code.Writing.{after_end, after_move, end_text, move_text};

use crate::way::{Move, Way};
use poets_value::{List, Memory, push};
use std::alloc::Global;

// Puts a text at the end.
fn put(out: &mut String, text: &str) -> Result<(), Memory>
    ensures { OnOk result (Puts out.old out.new text.now) }
{
    out.push_str(text)?;
    Ok(())
}

// Puts a letter for each side.
fn put_letters(out: &mut String, sides: &[bool]) -> Result<(), Memory>
    ensures { OnOk result (Puts out.old out.new (map texts.letter sides.now)) }
{
    for side in sides {
        if *side {
            put(out, "R")?;
        } else {
            put(out, "L")?;
        }
    }
    Ok(())
}

// Puts whose each event is.
fn put_sides(out: &mut String, sides: &[bool]) -> Result<(), Memory>
    ensures { OnOk result (Puts out.old out.new (texts.sides_text sides.now)) }
{
    if sides.is_empty() {
        return put(out, "-");
    }
    put_letters(out, sides)
}

// Puts a number.
fn put_count(out: &mut String, count: u64) -> Result<(), Memory>
    ensures { OnOk result (Puts out.old out.new (decimal count)) }
{
    write!(out, "{count}")?;
    Ok(())
}

// Puts the end of a part, and of each way that ends there. `parts` has the parts that were begun, the innermost last,
// and of each whether it is a first part, behind which a second one begins.
fn put_ends(out: &mut String, parts: &mut List<bool>) -> Result<(), Memory>
    ensures text { OnOk result (Puts out.old out.new (end_text (reverse parts.old.items))) }
    ensures parts { OnOk result (reverse parts.new.items ≡ after_end (reverse parts.old.items)) }
{
    while let Some(first) = parts.pop() {
        if first {
            put(out, ") (")?;
            return push(parts, false);
        }
        put(out, ")")?;
    }
    Ok(())
}

// Puts a move, and what stands between it and the next one.
fn put_move(out: &mut String, parts: &mut List<bool>, step: &Move) -> Result<(), Memory>
    ensures text { OnOk result (Puts out.old out.new (move_text (move_of step.now) (reverse parts.old.items))) }
    ensures parts { OnOk result (reverse parts.new.items ≡ after_move (move_of step.now) (reverse parts.old.items)) }
{
    match step {
        Move::Nothing => {
            put(out, "done")?;
            put_ends(out, parts)
        }
        Move::Enter => put(out, "enter "),
        Move::Take => put(out, "take "),
        Move::Left => put(out, "left "),
        Move::Right => put(out, "right "),
        Move::Both(sides) => {
            put(out, "both ")?;
            put_sides(out, sides.as_slice())?;
            put(out, " (")?;
            push(parts, true)
        }
        Move::Then(count) => {
            put(out, "then ")?;
            put_count(out, *count)?;
            put(out, " (")?;
            push(parts, true)
        }
    }
}

/// The text of a way.
pub fn way_text(alloc: Global, way: &Way) -> Result<String, Memory>
    ensures { IfOk result (λ r. string_bytes r ≡ texts.way_text way.now) }
{
    let mut text = String::new(alloc);
    let mut parts = List::new(alloc);
    for step in way.moves() {
        put_move(&mut text, &mut parts, step)?;
    }
    Ok(text)
}
