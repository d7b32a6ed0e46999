//! The texts of names and of types.
ghost use Rattle.std.specs.Prelude.{◌≡◌};
ghost use Rattle.poets_print.specs.Texts as texts;

use poets_lex::Names;
use poets_value::{Name, Ty};

/// The name's text, which is empty for a name that the table does not have.
pub fn name_text(names: &Names, name: Name) -> &str
    ensures { result.now ≡ texts.name_text names.now name }
{
    if name.id < names.len() {
        names.text(name)
    } else {
        ""
    }
}

/// The word for a type.
pub fn type_text(ty: Ty) -> &'static str
    ensures { result.now ≡ texts.type_text ty }
{
    match ty {
        Ty::Int => "Int",
        Ty::Bool => "Bool",
        Ty::Agent => "Agent",
        Ty::Kind => "Kind",
        Ty::Resource => "Resource",
        Ty::Day => "Day",
    }
}
