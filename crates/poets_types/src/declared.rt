//! The names that statements declare.
ghost use Rattle.std.specs.Prelude.{◌≡◌, [], None, IfOk, IfErr};
ghost use Rattle.std.specs.BTreeSet.{contains};
ghost use Rattle.poets_value.specs.Names.{name_cmp};
ghost use Rattle.poets_syntax.specs.Typed.{is_among, check_new};
ghost use Rattle.poets_command.specs.Statements.{statement_of, statements_of};
ghost use Rattle.poets_command.specs.Declarations as declarations;
ghost use Rattle.poets_command.specs.TypedStatements.{twice_from};
ghost use Rattle.poets_types.specs.code.Answers.{IsToldFirst};
ghost use Rattle.poets_types.specs.code.Answers.{IsAnswerOf};
ghost use Rattle.poets_types.specs.code.Tables.{AreAdded};

use crate::table::add;
use crate::{TypeCause, TypeFault};
use poets_command::Statement;
use poets_value::Name;
use std::alloc::Global;
use std::collections::BTreeSet;
use std::slice;

// The names that a statement declares, in order.
fn names_declared(statement: &Statement) -> &[Name]
    ensures { result.now ≡ declarations.names_declared (statement_of statement.now) }
{
    match statement {
        Statement::Agents(names) | Statement::Kinds(names) => names.as_slice(),
        Statement::Template(template) => slice::from_ref(&template.name),
        Statement::Report(report) => slice::from_ref(&report.name),
        _ => &[],
    }
}

// Adds names, if each is new.
fn add_names(seen: &mut BTreeSet<Name>, names: &[Name]) -> Result<(), TypeCause>
    ensures told { IsAnswerOf (check_new (contains name_cmp seen.old) [] names.now) result }
    ensures seen { IfOk result (λ _. AreAdded (is_among names.now) seen.old seen.new) }
{
    for name in names {
        if !add(seen, *name)? {
            return Err(TypeCause::Twice { name: *name });
        }
    }
    Ok(())
}

// No statement declares a name that was declared before.
pub(crate) fn check_names(alloc: Global, statements: &[Statement]) -> Result<(), TypeFault>
    ensures passes { IfOk result (λ _. twice_from 1 [] (statements_of statements.now) ≡ None) }
    ensures fault { IfErr result (IsToldFirst (twice_from 1 [] (statements_of statements.now))) }
{
    let mut seen = BTreeSet::new(alloc);
    for (place, statement) in statements.iter().enumerate() {
        if let Err(cause) = add_names(&mut seen, names_declared(statement)) {
            return Err(TypeFault {
                statement: place as u64 + 1,
                cause,
            });
        }
    }
    Ok(())
}
