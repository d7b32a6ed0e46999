//! Days from their texts.
ghost use Rattle.std.specs.Prelude.{ℤ, IfSome, IfNone};
ghost use Rattle.poets_literals.specs.Declared.{HasDayText};

use poets_value::Day;

/// The day with that text, as `2006-05-03`.
pub fn read_day(text: &str) -> Option<Day>
    ensures found { IfSome result (HasDayText text.now) }
    ensures none { IfNone result ((day : ℤ) → ¬ (HasDayText text.now day)) }
{
    match Day::from_text(text.as_bytes()) {
        Ok(day) => Some(day),
        Err(_) => None,
    }
}
