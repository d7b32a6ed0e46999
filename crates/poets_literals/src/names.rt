//! Declared names from their texts.
ghost use Rattle.std.specs.Prelude.{◌≡◌, ◌≢◌, IfSome, IfNone};
ghost use Rattle.poets_value.specs.declared.value.Name.{Name};
ghost use Rattle.poets_expr.specs.Env.{declared_of};
ghost use Rattle.poets_print.specs.Texts.{name_text};
ghost use Rattle.poets_literals.specs.code.Parts.{HasNameText};

use poets_expr::Decls;
use poets_lex::Names;
use poets_value::{Name, Ty};

// The name with that text that is declared with the type.
pub(crate) fn declared_name(names: &Names, decls: &Decls, ty: Ty, text: &str) -> Option<Name>
    ensures found { IfSome result (HasNameText names.now (declared_of decls.now.names) ty text.now) }
    ensures none { IfNone result ((x : Name) → ¬ (HasNameText names.now (declared_of decls.now.names) ty text.now x)) }
{
    let name = names.find(text)?;
    match decls.names.get(&name) {
        Some(found) if *found == ty => Some(name),
        _ => None,
    }
}
