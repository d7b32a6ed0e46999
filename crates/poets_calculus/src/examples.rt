//! Contracts worked by hand, each carried by a function that does nothing.
ghost use Rattle.std.specs.Prelude.{◌≡◌, [], ◌∷◌};
ghost use Rattle.poets_syntax.specs.Contract.{Contract, Success, Failure, Plus, Par, Seq};
ghost use Rattle.poets_meaning.specs.Perf.{Perf};
ghost use Rattle.poets_meaning.specs.May.{May};
ghost use Rattle.poets_meaning.specs.Marks.{AreRight};
ghost use Rattle.poets_meaning.specs.Width.{size, width};
ghost use Rattle.poets_meaning.specs.Spread.{spread};
ghost use Rattle.poets_calculus.specs.Alike.{Alike};
ghost use Rattle.poets_calculus.specs.Normal.{normal};
ghost use Rattle.poets_calculus.specs.Examples.{ann, bob, oil, usd, book, marks, left_of, ArePerformedAlike, again_with, sold, delivery, payment, payment_owed, beside, beside_after_oil, oil_or_usd, usd_or_oil, three_parts, over, rebound, inner, amounts, of_kind, event, some_oil, some_usd, three_oil, too_great, undefined_int, number};

/// A sale is performed by the delivery and then the payment in time.
pub fn a_sale()
    ensures performed { Perf book [] sold (delivery ∷ payment 30 ∷ []) }
    ensures in_order { ¬ (Perf book [] sold (payment 30 ∷ delivery ∷ [])) }
    ensures in_time { ¬ (Perf book [] sold (delivery ∷ payment 31 ∷ [])) }
    ensures granted { May book [] sold (delivery ∷ []) 1 }
    ensures residual { left_of sold (delivery ∷ []) ≡ payment_owed }
    ensures done { left_of sold (delivery ∷ payment 30 ∷ []) ≡ Success }
    ensures late { left_of sold (delivery ∷ payment 31 ∷ []) ≡ Failure }
{}

/// An event that both parts could take leaves both open.
pub fn side_by_side()
    ensures granted { May book [] beside (some_oil ∷ []) 2 }
    ensures residual { left_of beside (some_oil ∷ []) ≡ beside_after_oil }
    ensures oil_again { left_of beside (some_oil ∷ some_oil ∷ []) ≡ of_kind usd Success }
    ensures then_usd { left_of beside (some_oil ∷ some_usd ∷ []) ≡ of_kind oil Success }
{}

/// Parallel parts are a multiset: they group to the left, and alternatives that differ in the order of
/// such parts alone are one.
pub fn parts_in_any_order()
    ensures alike { Alike oil_or_usd usd_or_oil }
    ensures grouped { normal book marks three_parts ≡ Par oil_or_usd (of_kind oil Success) }
    ensures one { normal book marks (Plus oil_or_usd usd_or_oil) ≡ oil_or_usd }
    ensures residual { left_of three_parts (some_oil ∷ []) ≡ usd_or_oil }
{}

/// The second part of a `;` may take an event where the first is nullable.
pub fn in_sequence()
    ensures performed { Perf book [] over (some_usd ∷ []) }
    ensures residual { left_of over (some_usd ∷ []) ≡ Success }
    ensures after_success { (c : Contract) → ArePerformedAlike (Seq Success c) c }
{}

/// The marks of the examples are right.
pub fn right_marks()
    ensures { AreRight book marks }
{}

/// An argument without a value is passed on as undefined.
pub fn undefined_arguments()
    ensures normal { normal book marks (again_with too_great) ≡ again_with undefined_int }
    ensures residual { left_of (again_with (number 3)) (three_oil ∷ []) ≡ again_with undefined_int }
    ensures unmatched { left_of (again_with (number 3)) (three_oil ∷ three_oil ∷ []) ≡ Failure }
{}

/// Replacing stops at a transmit that binds the same name.
pub fn rebinding()
    ensures stays { left_of rebound (some_oil ∷ []) ≡ inner }
    ensures refused { left_of rebound (some_oil ∷ some_oil ∷ []) ≡ Failure }
    ensures taken { left_of rebound (some_oil ∷ event bob ann 1 oil 0 ∷ []) ≡ Success }
{}

/// Sizes count the nodes of contracts and expressions; widths also those of bodies that may be next.
pub fn sizes_and_widths()
    ensures size { size (amounts 142) ≡ 1000 }
    ensures width { width book marks (amounts 142) ≡ 1000 }
    ensures applied { size (again_with (number 3)) ≡ 2 }
    ensures unfolded { width book marks (again_with (number 3)) ≡ 13 }
{}

/// Spreads count equal subterms once, and the body of an application once for equal applications.
pub fn spreads()
    ensures transmits { spread book marks (amounts 2) ≡ 25 }
    ensures equal { spread book marks (Par (again_with (number 3)) (again_with (number 3))) ≡ 16 }
    ensures different { spread book marks (Par (again_with (number 3)) (again_with (number 4))) ≡ 29 }
{}
