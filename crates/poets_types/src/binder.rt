//! New names: parameters and binders.
ghost use Rattle.std.specs.Prelude.{◌≡◌, ◌||◌, []};
ghost use Rattle.poets_syntax.specs.Typed.{is_among, scope_of, types_bound};
ghost use Rattle.poets_syntax.specs.Typed as typed;
ghost use Rattle.poets_types.specs.code.Answers.{answer_of};
ghost use Rattle.poets_types.specs.code.Indices.{used_in};

use crate::TypeCause;
use crate::index::Index;
use poets_syntax::{Binders, Param};
use poets_value::{Name, Ty};

// The name is in use, or among those before it.
fn is_taken(index: &Index, earlier: &[Name], name: Name) -> bool
    ensures { result ≡ (used_in index.now name || is_among earlier.now name) }
{
    index.is_used(name) || earlier.contains(&name)
}

// No name is in use, and none stands twice. This is for short lists.
pub(crate) fn check_new(index: &Index, names: &[Name]) -> Result<(), TypeCause>
    ensures { result ≡ answer_of (typed.check_new (used_in index.now) [] names.now) }
{
    for (place, name) in names.iter().enumerate() {
        if is_taken(index, &names[..place], *name) {
            return Err(TypeCause::Twice { name: *name });
        }
    }
    Ok(())
}

// The four binders with their types, the last first.
pub(crate) fn types_bound(binders: &Binders) -> [Param; 4]
    ensures { scope_of result ≡ types_bound binders.now }
{
    [
        Param {
            name: binders.day,
            ty: Ty::Day,
        },
        Param {
            name: binders.what,
            ty: Ty::Resource,
        },
        Param {
            name: binders.receiver,
            ty: Ty::Agent,
        },
        Param {
            name: binders.sender,
            ty: Ty::Agent,
        },
    ]
}
