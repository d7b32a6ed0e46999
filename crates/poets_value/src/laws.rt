//! Laws of the values, stated by functions that do nothing.
ghost use Rattle.std.specs.Prelude.{◌≡◌, ◌↔◌, ℕ, List, ℤ, pos, neg_ℤ, ◌≤ℤ◌, IsTrue};
ghost use Rattle.std.specs.declared.cmp.Ordering.TheVariants.{Less, Equal, Greater};
ghost use Rattle.std.specs.Ordering.{int_cmp};
ghost use Rattle.poets_value.specs.declared.event.Event.{Event};
ghost use Rattle.poets_value.specs.declared.value.Name.{Name};
ghost use Rattle.poets_value.specs.declared.value.Value.{Value};
ghost use Rattle.poets_value.specs.Civil.{IsDayNumber, IsDayText};
ghost use Rattle.poets_value.specs.Names.{name_cmp};
ghost use Rattle.poets_value.specs.Order.{Precedes, value_cmp};
ghost use Rattle.poets_value.specs.Whole.{is_day, is_whole};

use crate::{Day, Event, Name, Value};

/// The derived order of values is that of `docs/LANGUAGE.md`, "Values".
pub fn order_of_values()
    ensures cmp { ⟦<Value as Ord>⟧.cmp ≡ value_cmp }
    ensures less { (v w : Value) → (value_cmp v w ≡ Less) ↔ Precedes v w }
    ensures equal { (v w : Value) → (value_cmp v w ≡ Equal) ↔ (v ≡ w) }
    ensures greater { (v w : Value) → (value_cmp v w ≡ Greater) ↔ Precedes w v }
{}

/// The derived order of names is that of their places.
pub fn order_of_names()
    ensures { ⟦<Name as Ord>⟧.cmp ≡ name_cmp }
{}

/// The derived order of days is that of their numbers.
pub fn order_of_days()
    ensures { ⟦<Day as Ord>⟧.cmp ≡ int_cmp }
{}

/// `==` of two values, and of two events, is true exactly where they are the same.
pub fn equal_values_and_events()
    ensures value { (v w : Value) → IsTrue (⟦<Value as PartialEq>⟧.eq v w) ↔ (v ≡ w) }
    ensures event { (e f : Event) → IsTrue (⟦<Event as PartialEq>⟧.eq e f) ↔ (e ≡ f) }
{}

/// A civil day has one text of ten bytes, and such a text is of one day.
pub fn texts_of_days()
    ensures text { (t u : List ℕ) (n : ℤ) → IsDayText t n → IsDayText u n → t ≡ u }
    ensures day { (t : List ℕ) (n m : ℤ) → IsDayText t n → IsDayText t m → n ≡ m }
    ensures range { (t : List ℕ) (n : ℤ) → IsDayText t n → IsDayNumber n }
{}

/// Whole numbers and days are those between their bounds.
pub fn whole_numbers_and_days()
    ensures number { (n : ℤ) → IsTrue (is_whole n)
        ↔ ((neg_ℤ (pos 9_223_372_036_854_775_807) ≤ℤ n) × (n ≤ℤ pos 9_223_372_036_854_775_807)) }
    ensures day { (n : ℤ) → IsTrue (is_day n) ↔ IsDayNumber n }
{}
