//! Applications of templates, with their arguments folded.
ghost use Rattle.std.specs.Prelude.{◌+◌, ◌≤◌, IfOk, map};
ghost use Rattle.poets_expr.specs.Expression.{expression_of};
ghost use Rattle.poets_calculus.specs.InStudied.{app_in};
ghost use Rattle.poets_norm.specs.Asking.{to_ask};
ghost use Rattle.poets_norm.specs.code.Applications.{to_ask_of, IsFolded, AreFolded, Keeps, KeepsWithin};

use poets_expr::{Asks, Decls, Expr, copy, fold_closed};
use poets_meaning::Studied;
use poets_syntax::Param;
use poets_value::{List, Memory, Name, push};
use std::alloc::Global;

// An argument, folded where it has a parameter.
fn folded_arg<L>(
    alloc: Global,
    decls: &Decls,
    param: Option<&Param>,
    arg: &Expr,
    asks: &mut Asks<L>,
) -> Result<Expr, Memory>
    ensures value { IfOk result (IsFolded decls.now param.entry arg.now) }
    ensures rises { asks.old ≤ asks.new }
    ensures asks { asks.new ≤ asks.old + to_ask_of arg.now }
    ensures questions { IfOk result (λ r. asks.new + to_ask_of r ≤ asks.old + to_ask_of arg.now) }
{
    let _count = asks.count();
    match param {
        Some(param) => fold_closed(alloc, decls, arg, param.ty, asks),
        None => copy(alloc, arg),
    }
}

// The arguments, each folded to a literal of its parameter's type.
fn folded<L>(
    alloc: Global,
    decls: &Decls,
    params: &[Param],
    args: &[Expr],
    asks: &mut Asks<L>,
) -> Result<List<Expr>, Memory>
    ensures value { IfOk result (λ r. AreFolded decls.now params.now args.now r.items) }
    ensures rises { asks.old ≤ asks.new }
    ensures asks { asks.new ≤ asks.old + to_ask args.now }
    ensures questions { IfOk result (λ r. asks.new + to_ask r.items ≤ asks.old + to_ask args.now) }
{
    let mut folded = List::new(alloc);
    for (place, arg) in args.iter().enumerate() {
        let arg = folded_arg(alloc, decls, params.get(place), arg, asks)?;
        push(&mut folded, arg)?;
    }
    Ok(folded)
}

// The arguments of an application in its normal form, each closed one that is no literal replaced by the literal of its
// value. None where the template is not hopeful.
pub(crate) fn kept_args<L>(
    alloc: Global,
    studied: &Studied,
    name: Name,
    args: &[Expr],
    asks: &mut Asks<L>,
) -> Result<Option<List<Expr>>, Memory>
    ensures app { Keeps name result (app_in studied.now name (map expression_of args.now)) }
    ensures rises { asks.old ≤ asks.new }
    ensures asks { asks.new ≤ asks.old + to_ask args.now }
    ensures questions { KeepsWithin name result asks.new (asks.old + to_ask args.now) }
{
    match studied.template(name) {
        Some((template, mark)) if mark.hopeful => {
            let params = template.params.as_slice();
            let args = folded(alloc, &studied.book().decls, params, args, asks)?;
            Ok(Some(args))
        }
        _ => Ok(None),
    }
}
