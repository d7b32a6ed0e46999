//! Values from their texts.
ghost use Rattle.std.specs.Prelude.{IfSome, IfNone};
ghost use Rattle.poets_value.specs.declared.value.Value.{Value};
ghost use Rattle.poets_expr.specs.Env.{declared_of};
ghost use Rattle.poets_literals.specs.Declared.{HasValueText};

use crate::days::read_day;
use crate::names::declared_name;
use crate::numbers::number;
use crate::resources::resource;
use poets_expr::Decls;
use poets_lex::Names;
use poets_value::{Ty, Value};

/// The value with that text that is as declared.
///
/// A name that is neither an agent nor a kind is no value, and neither is a resource of a kind that is not declared.
pub fn read_value(names: &Names, decls: &Decls, text: &str) -> Option<Value>
    ensures found { IfSome result (HasValueText names.now (declared_of decls.now.names) text.now) }
    ensures none { IfNone result ((v : Value) → ¬ (HasValueText names.now (declared_of decls.now.names) text.now v)) }
{
    if let Some(number) = number(text) {
        return Some(Value::Int(number));
    }
    if let Ok(truth) = text.parse::<bool>() {
        return Some(Value::Bool(truth));
    }
    if let Some(agent) = declared_name(names, decls, Ty::Agent, text) {
        return Some(Value::Agent(agent));
    }
    if let Some(kind) = declared_name(names, decls, Ty::Kind, text) {
        return Some(Value::Kind(kind));
    }
    if let Some(resource) = resource(names, decls, text) {
        return Some(Value::Resource(resource));
    }
    let day = read_day(text.strip_prefix('@')?)?;
    Some(Value::Day(day))
}
