//! Calls as texts.
ghost use Rattle.std.specs.Prelude.{◌≡◌, ◌<◌, ◌^◌, ℕ, IfOk, length};
ghost use Rattle.poets_journal.specs.Texts.{Text};

use poets_value::{List, Memory};
use std::alloc::Global;

/// Gives each call its text.
pub trait Put<C> {
    /// What the texts depend on besides the calls. No value of it is made.
    type Table;

    ghost table: { Self → Self.Table };

    /// The call has a text.
    ghost has_text: { Self.Table → C → Type 0 };

    /// The text of a clerk's call that has one.
    ghost text: { Self.Table → ℕ → C → Text };

    /// Gives the text of a clerk's call.
    fn put(&self, alloc: Global, clerk: u32, call: &C) -> Result<List<u8>, Memory>
        requires has { has_text (table self.now) call.now }
        requires short { length (text (table self.now) clerk call.now) < 2 ^ 32 }
        ensures { IfOk result (λ made. made.items ≡ text (table self.now) clerk call.now) };
}
