//! The study of a book.
ghost use Rattle.std.specs.Prelude.{◌≡◌, IfOk, OnOk, IfErr};
ghost use Rattle.poets_syntax.specs.Book.{book_of};
ghost use Rattle.poets_syntax.specs.Checked.{IsChecked};
ghost use Rattle.poets_meaning.specs.Guarded.{IsGuarded};
ghost use Rattle.poets_meaning.specs.Studied.{IsStudiedBook};
ghost use Rattle.poets_guard.specs.Fault.{IsFaultOf};

use crate::cycles::first_cycle;
use crate::endings::templates_that_end;
use crate::graph::graph_of;
use crate::widths::marks;
use poets_meaning::Studied;
use poets_syntax::Book;
use poets_value::{List, Memory, Name};
use std::alloc::Global;

/// Why a book is not studied.
#[derive(Debug, PartialEq, Eq, Drop)]
pub enum GuardFault {
    /// Templates that apply one another in a circle before a transmission, each the next and the last the first.
    Unguarded { cycle: List<Name> },
    /// Out of memory.
    Memory,
}

impl From<Memory> for GuardFault {
    ghost use Rattle.std.specs.Prelude.{◌≡◌};
    ghost use Rattle.poets_guard.specs.declared.guard.GuardFault.{GuardFault};

    ghost from_gives = { λ _ e. e ≡ GuardFault.Memory };

    fn from(_: Memory) -> GuardFault {
        GuardFault::Memory
    }
}

/// The book, which is checked, with the marks of its templates. Of a book that is not guarded, a cycle that begins
/// with the first declared template that lies on one.
pub fn study(alloc: Global, book: Book) -> Result<Studied, GuardFault>
    requires checked { IsChecked (book_of book) }
    ensures book { IfOk result (λ s. s.book ≡ book) }
    ensures guarded { OnOk result (IsGuarded (book_of book)) }
    ensures marks { IfOk result (λ s. IsStudiedBook (book_of book) s.marks) }
    ensures unguarded { IfErr result (IsFaultOf (book_of book)) }
{
    let nullable = templates_that_end(alloc, false, &book)?;
    let hopeful = templates_that_end(alloc, true, &book)?;
    let graph = graph_of(alloc, &book, &nullable)?;
    match marks(alloc, &book, &nullable, &hopeful, &graph)? {
        Some(marks) => Ok(Studied::of(alloc, book, marks)?),
        None => Err(GuardFault::Unguarded {
            cycle: first_cycle(alloc, &book, &graph)?,
        }),
    }
}
