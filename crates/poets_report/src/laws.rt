//! Laws of reports, each carried by a function that does nothing.
ghost use Rattle.std.specs.Prelude.{◌≡◌, ◌↔◌, IsTrue};
ghost use Rattle.std.specs.declared.cmp.Ordering.TheVariants.{Less, Equal, Greater};
ghost use Rattle.poets_report.specs.Keys.{Key, KeyPrecedes, key_cmp, same_key};
ghost use Rattle.poets_report.specs.Answers.{EveryAnswer, OneAnswer};

/// Two keys are one, or one of them comes before the other.
pub fn order_of_keys()
    ensures less { (j k : Key) → (key_cmp j k ≡ Less) ↔ KeyPrecedes j k }
    ensures equal { (j k : Key) → (key_cmp j k ≡ Equal) ↔ (j ≡ k) }
    ensures greater { (j k : Key) → (key_cmp j k ≡ Greater) ↔ KeyPrecedes k j }
    ensures same { (j k : Key) → IsTrue (same_key j k) ↔ (j ≡ k) }
{}

/// A report has at most one answer over a list of events.
pub fn one_answer()
    ensures { OneAnswer }
{}

/// A report has an answer over each list of events, under any arguments.
pub fn every_answer()
    ensures { EveryAnswer }
{}
