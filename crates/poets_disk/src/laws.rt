//! Laws of disks, stated by functions that do nothing.
ghost use Rattle.std.specs.Prelude.{◌≤◌, ◌↔◌, ◌⊎◌, ℕ, List};
ghost use Rattle.poets_disk.specs.Disks.{GoesOn, Since};

use crate::Disk;

/// The images since a moment, as seen after a call, are those seen before the call and those of the call's own moments.
pub fn images_of_a_call<D: Disk>()
    ensures { (old new : D) (start : ℕ) (image : List ℕ) → GoesOn (D.seen old) (D.seen new) → start ≤ (D.seen old).clock
        → (Since (D.seen new) start image
        ↔ (Since (D.seen old) start image ⊎ Since (D.seen new) (D.seen old).clock image)) }
{}
