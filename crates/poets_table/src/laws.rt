//! Laws of rows and of the log, each carried by a function that does nothing.
ghost use Rattle.std.specs.Prelude.{◌≡◌, ◌≢◌, ◌<◌, ◌≤◌, ◌+◌, ℕ, All, List, length, remove, take};
ghost use Rattle.poets_value.specs.declared.event.Event.{Event};
ghost use Rattle.poets_value.specs.declared.value.Name.{Name};
ghost use Rattle.poets_table.specs.Pieces.{IsPieceOf};
ghost use Rattle.poets_table.specs.TableView.{CutView, HasStarts, IsPairOf, IsRowCut, RowView, events_with, new_row, place_in_log, with_event, with_room, without_event};

use poets_value::{Event, Name};

/// Where the events with a number have one at a place, its pair is in the log at the place that `place_in_log` gives.
/// Without it, the events with the number are without that event, and all others stay.
pub fn pair_of_event()
    ensures pair { (n k : ℕ) (log : List (ℕ × Event)) → k < length (events_with n log) →
        IsPairOf n k (place_in_log n k log) log }
    ensures same { (n k : ℕ) (log : List (ℕ × Event)) → k < length (events_with n log) →
        events_with n (remove log (place_in_log n k log)) ≡ remove (events_with n log) k }
    ensures others { (n k m : ℕ) (log : List (ℕ × Event)) → k < length (events_with n log) → m ≢ n →
        events_with m (remove log (place_in_log n k log)) ≡ events_with m log }
{}

/// The pieces of a row begin in order, the first at 0, and none is too long: it is so in a new row, and stays so. No
/// piece begins after the events. Up to the piece that has the event of a cut, all begin as before.
pub fn starts_of_rows<O, T>()
    ensures new { (x : Name) (o : O) (c : T) → HasStarts (new_row x o c) }
    ensures room { (r : RowView O T) → HasStarts r → HasStarts (with_room r) }
    ensures event { (r : RowView O T) (e : Event) (c : T) → HasStarts r → HasStarts (with_event e c (with_room r)) }
    ensures cut { (r : RowView O T) (cut : CutView) (c : T) (points : List T) →
        IsRowCut cut r → HasStarts r → HasStarts (without_event cut c points r) }
    ensures front { (r : RowView O T) (cut : CutView) (number : ℕ) → IsRowCut cut r → HasStarts r →
        IsPieceOf cut.place r.starts number → take (number + 1) cut.starts ≡ take (number + 1) r.starts }
    ensures within { (r : RowView O T) → HasStarts r → All (λ n. n ≤ length r.events) r.starts }
{}
