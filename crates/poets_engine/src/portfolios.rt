//! Portfolios: a report over the events of each of several contracts.
ghost use Rattle.std.specs.Prelude.{◌≡◌, ◌≢◌, ◌+◌, ◌≤◌, length, None, IfOk};
ghost use Rattle.std.specs.List.{AllZip};
ghost use Rattle.poets_table.specs.TableView.{number_named};
ghost use Rattle.poets_engine.specs.Copies.{AreCopies};
ghost use Rattle.poets_engine.specs.Takes.{IsTakenBy};
ghost use Rattle.poets_engine.specs.code.Commands.{portfolio_of};
ghost use Rattle.poets_engine.specs.code.Makes.{MakesBody};
ghost use Rattle.poets_engine.specs.code.Parts.{absent_from, IsPart};

use crate::copies::Copies;
use crate::kept::{Body, FolioWork};
use crate::store::Store;
use crate::tallies::report_called;
use poets_command::Reply;
use poets_expr::{Asks, Expr};
use poets_folio::Part;
use poets_report::argument_values;
use poets_rules::Rules;
use poets_value::{List, Memory, Name, push};
use std::alloc::Global;

// The first of the names that no contract has.
fn first_absent(store: &Store, names: &[Name]) -> Option<Name>
    ensures { result ≡ absent_from store.now.rows names.now }
{
    for name in names {
        let Some(_) = store.find(*name) else {
            return Some(*name);
        };
    }
    None
}

// The name of a contract with its events.
fn part(store: &Store, name: Name) -> Result<Part, Memory>
    requires { number_named name store.now.rows ≢ None }
    ensures { IfOk result (IsPart store.now.rows name) }
{
    let Some(number) = store.find(name) else {
        unreachable!();
    };
    Ok(Part {
        name,
        events: store.events(number)?,
    })
}

// Each of the contracts with its events.
fn parts(alloc: Global, store: &Store, names: &[Name]) -> Result<List<Part>, Memory>
    requires { absent_from store.now.rows names.now ≡ None }
    ensures { IfOk result (λ parts. AllZip (IsPart store.now.rows) names.now parts.items) }
{
    let mut parts = List::new(alloc);
    for name in names {
        let part = part(store, *name)?;
        push(&mut parts, part)?;
    }
    Ok(parts)
}

/// All that the report over the events of each of the contracts is made of.
pub(crate) fn portfolio<T>(
    alloc: Global,
    rules: &Rules,
    copies: &mut Copies,
    store: &Store,
    name: Name,
    args: &[Expr],
    over: &[Name],
    asks: &mut Asks<T>,
) -> Result<Body, Memory>
    requires taken { IsTakenBy rules.now (portfolio_of name args.now over.now) }
    requires copies { AreCopies rules.now copies.old }
    ensures ok { IfOk result (MakesBody rules.now (portfolio_of name args.now over.now) store.now store.now) }
    ensures copies { AreCopies rules.now copies.new }
    ensures asks { asks.new ≤ asks.old + length args.now }
    ensures rises { asks.old ≤ asks.new }
{
    if let Some(absent) = first_absent(store, over) {
        return Ok(Body::Done(Reply::NoContract(absent)));
    }
    let report = report_called(rules, name, args);
    let args = argument_values(alloc, &rules.studied.book().decls, args, asks)?;
    let parts = parts(alloc, store, over)?;
    let decls = copies.decls(alloc, rules)?;
    let report = copies.report(alloc, rules, name, report)?;
    Ok(Body::Folio(FolioWork {
        decls,
        report,
        args,
        parts,
    }))
}
