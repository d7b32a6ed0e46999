//! Pieces of text put at the end of a text.
ghost use Rattle.std.specs.Prelude.{◌++◌, OnOk, codes};
ghost use Rattle.std.specs.Fmt.{decimal, signed_decimal};
ghost use Rattle.poets_value.specs.Civil.{day_text};
ghost use Rattle.poets_print.specs.Texts.{truth_text, resource_text, value_text};
ghost use Rattle.poets_print.specs.Texts as texts;
ghost use Rattle.poets_print.specs.Lines.{optional_text};
ghost use Rattle.poets_value.specs.code.Texts.{Puts};

use crate::words::{name_text, type_text};
use poets_lex::Names;
use poets_value::{Day, Memory, Name, Resource, Ty, Value};

/// Puts a text at the end.
pub(crate) fn put(out: &mut String, text: &str) -> Result<(), Memory>
    ensures { OnOk result (Puts out.old out.new text.now) }
{
    out.push_str(text)?;
    Ok(())
}

pub(crate) fn put_name(out: &mut String, names: &Names, name: Name) -> Result<(), Memory>
    ensures { OnOk result (Puts out.old out.new (texts.name_text names.now name)) }
{
    put(out, name_text(names, name))
}

/// Puts a text, and a name after it.
pub(crate) fn put_named(
    out: &mut String,
    names: &Names,
    text: &str,
    name: Name,
) -> Result<(), Memory>
    ensures { OnOk result (Puts out.old out.new (text.now ++ texts.name_text names.now name)) }
{
    put(out, text)?;
    put_name(out, names, name)
}

pub(crate) fn put_count(out: &mut String, count: u64) -> Result<(), Memory>
    ensures { OnOk result (Puts out.old out.new (decimal count)) }
{
    write!(out, "{count}")?;
    Ok(())
}

/// Puts a text, and a count after it.
pub(crate) fn put_counted(out: &mut String, text: &str, count: u64) -> Result<(), Memory>
    ensures { OnOk result (Puts out.old out.new (text.now ++ decimal count)) }
{
    put(out, text)?;
    put_count(out, count)
}

pub(crate) fn put_number(out: &mut String, number: i64) -> Result<(), Memory>
    ensures { OnOk result (Puts out.old out.new (signed_decimal number)) }
{
    write!(out, "{number}")?;
    Ok(())
}

pub(crate) fn put_day(out: &mut String, day: Day) -> Result<(), Memory>
    ensures { OnOk result (Puts out.old out.new (day_text day)) }
{
    let bytes = day.text();
    let Ok(text) = str::from_utf8(&bytes) else {
        unreachable!();
    };
    put(out, text)
}

/// Puts a day as its literal, `@2006-05-03`.
pub(crate) fn put_literal_day(out: &mut String, day: Day) -> Result<(), Memory>
    ensures { OnOk result (Puts out.old out.new (codes "@" ++ day_text day)) }
{
    put(out, "@")?;
    put_day(out, day)
}

/// Puts the undefined literal of a type, `undefined Int`.
pub(crate) fn put_undefined(out: &mut String, ty: Ty) -> Result<(), Memory>
    ensures { OnOk result (Puts out.old out.new (codes "undefined " ++ texts.type_text ty)) }
{
    put(out, "undefined ")?;
    put(out, type_text(ty))
}

pub(crate) fn put_truth(out: &mut String, truth: bool) -> Result<(), Memory>
    ensures { OnOk result (Puts out.old out.new (truth_text truth)) }
{
    if truth {
        put(out, "true")
    } else {
        put(out, "false")
    }
}

pub(crate) fn put_resource(
    out: &mut String,
    names: &Names,
    resource: Resource,
) -> Result<(), Memory>
    ensures { OnOk result (Puts out.old out.new (resource_text names.now resource)) }
{
    put(out, "[")?;
    put_number(out, resource.amount)?;
    put(out, " ")?;
    put_name(out, names, resource.kind)?;
    put(out, "]")
}

/// Puts a value as its literal.
pub(crate) fn put_value(out: &mut String, names: &Names, value: &Value) -> Result<(), Memory>
    ensures { OnOk result (Puts out.old out.new (value_text names.now value.now)) }
{
    match value {
        Value::Int(number) => put_number(out, *number),
        Value::Bool(truth) => put_truth(out, *truth),
        Value::Agent(name) | Value::Kind(name) => put_name(out, names, *name),
        Value::Resource(resource) => put_resource(out, names, *resource),
        Value::Day(day) => put_literal_day(out, *day),
    }
}

/// Puts a value as its literal, and none as `undefined`.
pub(crate) fn put_optional(
    out: &mut String,
    names: &Names,
    value: &Option<Value>,
) -> Result<(), Memory>
    ensures { OnOk result (Puts out.old out.new (optional_text names.now value.now)) }
{
    match value {
        None => put(out, "undefined"),
        Some(value) => put_value(out, names, value),
    }
}
