//! The values of a report's arguments.
ghost use Rattle.std.specs.Prelude.{◌≡◌, ◌+◌, ◌≤◌, length, IfOk};
ghost use Rattle.poets_report.specs.UnderNames.{evaluated_arguments};

use poets_expr::{Asks, Decls, Env, Expr, eval};
use poets_value::{List, Memory, Value, push};
use std::alloc::Global;

/// The values of the arguments, each of which is evaluated once.
pub fn argument_values<L>(
    alloc: Global,
    decls: &Decls,
    args: &[Expr],
    asks: &mut Asks<L>,
) -> Result<List<Option<Value>>, Memory>
    ensures values { IfOk result (λ l. l.items ≡ evaluated_arguments decls.now args.now) }
    ensures asks { asks.new ≤ asks.old + length args.now }
    ensures rises { asks.old ≤ asks.new }
{
    let mut values = List::new(alloc);
    for arg in args {
        let env = Env { decls, pairs: &[] };
        push(&mut values, eval(&env, arg, asks))?;
    }
    Ok(values)
}
