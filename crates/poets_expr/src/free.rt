//! Free names.
ghost use Rattle.std.specs.Prelude.{◌≡◌, ◌++◌, IfOk, OnOk};
ghost use Rattle.poets_expr.specs.Expression.{expression_of};
ghost use Rattle.poets_expr.specs.Free.{free_names_of, with_name, with_names};
ghost use Rattle.poets_expr.specs.code.Names.{names_in};

use crate::expr::Expr;
use poets_value::{List, Memory, Name};
use std::alloc::Global;

/// Each free name once, in the order in which they first occur. A kind within a resource literal is no free name.
#[tactic(auto, using(crate::proofs::FreeNames::with_names_free))]
pub fn free_names(alloc: Global, e: &Expr) -> Result<List<Name>, Memory>
    ensures { IfOk result (λ r. r.items ≡ free_names_of (expression_of e.now)) }
{
    let mut names = List::new(alloc);
    add_names(e, &mut names)?;
    Ok(names)
}

// Adds the names of the expression that are not there yet.
fn add_names(e: &Expr, names: &mut List<Name>) -> Result<(), Memory>
    ensures { OnOk result (names.new.items ≡ with_names names.old.items (names_in e.now)) }
{
    match e {
        Expr::Int(_) | Expr::Bool(_) | Expr::Day(_) | Expr::Res(_) | Expr::Undefined(_) => Ok(()),
        Expr::Name(name) => add_name(*name, names),
        Expr::Neg(a) | Expr::Not(a) | Expr::Amount(a) | Expr::KindOf(a) => add_names(a, names),
        Expr::Make(a, b) | Expr::Op(_, a, b) => {
            add_names(a, names)?;
            add_names(b, names)
        }
        Expr::If(a, b, c) => {
            add_names(a, names)?;
            add_names(b, names)?;
            add_names(c, names)
        }
    }
}

// Adds the name at the end, unless it is there.
fn add_name(name: Name, names: &mut List<Name>) -> Result<(), Memory>
    ensures { OnOk result (names.new.items ≡ with_name names.old.items name) }
{
    if names.as_slice().contains(&name) {
        return Ok(());
    }
    names.push(name).map_err(|_| Memory)
}
