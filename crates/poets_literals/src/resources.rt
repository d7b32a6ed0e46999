//! Resources from their texts.
ghost use Rattle.std.specs.Prelude.{◌≡◌, ◌≢◌, ℕ, List, IfSome, IfNone};
ghost use Rattle.poets_value.specs.declared.value.Resource.{Resource};
ghost use Rattle.poets_expr.specs.Env.{declared_of};
ghost use Rattle.poets_literals.specs.code.Parts.{in_brackets, HasNoSpace, HasResourceText};

use crate::names::declared_name;
use crate::numbers::number;
use poets_expr::Decls;
use poets_lex::Names;
use poets_value::{Resource, Ty};

// What stands in brackets before the first space, and behind it.
fn parts(text: &str) -> Option<(&str, &str)>
    ensures found { IfSome result (λ p. (text.now ≡ in_brackets p.0.now p.1.now) × HasNoSpace p.0.now) }
    ensures none { IfNone result ((amount kind : List ℕ) → text.now ≢ in_brackets amount kind) }
{
    let inside = text.strip_prefix('[')?.strip_suffix(']')?;
    inside.split_once(' ')
}

// The resource with that text, as `[5 Oil]`.
pub(crate) fn resource(names: &Names, decls: &Decls, text: &str) -> Option<Resource>
    ensures found { IfSome result (HasResourceText names.now (declared_of decls.now.names) text.now) }
    ensures none { IfNone result
        ((r : Resource) → ¬ (HasResourceText names.now (declared_of decls.now.names) text.now r)) }
{
    let (amount, kind) = parts(text)?;
    let amount = number(amount)?;
    let kind = declared_name(names, decls, Ty::Kind, kind)?;
    Some(Resource { kind, amount })
}
