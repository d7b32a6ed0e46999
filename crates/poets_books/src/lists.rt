//! Names and parameters with commas between them.
ghost use Rattle.std.specs.Prelude.{OnOk, IfOk};
ghost use Rattle.poets_value.specs.code.Texts.{Puts};
ghost use Rattle.poets_print.specs.Texts.{IsText, behind_commas};
ghost use Rattle.poets_print.specs.Texts as texts;
ghost use Rattle.poets_print.specs.code.Putting as putting;
ghost use Rattle.poets_books.specs.Statements as statements;
ghost use Rattle.poets_books.specs.code.Putting.{more_parameters};

use poets_lex::Names;
use poets_print::{name_text, type_text};
use poets_syntax::Param;
use poets_value::{Memory, Name};
use std::alloc::Global;

// Puts each name after a comma.
fn put_more_names(out: &mut String, names: &Names, listed: &[Name]) -> Result<(), Memory>
    ensures { OnOk result (Puts out.old out.new (behind_commas (texts.name_text names.now) listed.now)) }
{
    for name in listed {
        out.push_str(", ")?;
        out.push_str(name_text(names, *name))?;
    }
    Ok(())
}

/// Names, as `ann, bob`.
pub(crate) fn names_text(alloc: Global, names: &Names, listed: &[Name]) -> Result<String, Memory>
    ensures { IfOk result (IsText (putting.names_text names.now listed.now)) }
{
    let mut text = String::new(alloc);
    if let [first, rest @ ..] = listed {
        text.push_str(name_text(names, *first))?;
        put_more_names(&mut text, names, rest)?;
    }
    Ok(text)
}

// Puts a parameter, as `n: Int`.
fn put_parameter(out: &mut String, names: &Names, param: Param) -> Result<(), Memory>
    ensures { OnOk result (Puts out.old out.new (statements.parameter_text names.now param)) }
{
    out.push_str(name_text(names, param.name))?;
    out.push_str(": ")?;
    out.push_str(type_text(param.ty))?;
    Ok(())
}

// Puts each parameter after a comma.
fn put_more_parameters(out: &mut String, names: &Names, params: &[Param]) -> Result<(), Memory>
    ensures { OnOk result (Puts out.old out.new (more_parameters names.now params.now)) }
{
    for param in params {
        out.push_str(", ")?;
        put_parameter(out, names, *param)?;
    }
    Ok(())
}

/// Parameters in brackets, as `(n: Int, a: Agent)`.
pub(crate) fn parameters_text(
    alloc: Global,
    names: &Names,
    params: &[Param],
) -> Result<String, Memory>
    ensures { IfOk result (IsText (statements.parameters_text names.now params.now)) }
{
    let mut text = String::from_str(alloc, "(")?;
    if let [first, rest @ ..] = params {
        put_parameter(&mut text, names, *first)?;
        put_more_parameters(&mut text, names, rest)?;
    }
    text.push_str(")")?;
    Ok(text)
}
