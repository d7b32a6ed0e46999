//! The texts of books that are built by hand.

use poets_books::{book_texts, day_text, value_text};
use poets_expr::build::boxed;
use poets_expr::{Decls, Expr, Op};
use poets_lex::{Names, tokens};
use poets_report::Report;
use poets_syntax::{Binders, Book, Param, Template, Term};
use poets_value::{Day, List, Memory, Name, Resource, Ty, Value, push};
use std::alloc::Global;
use std::collections::BTreeMap;

const NAMES: &[u8] = b"ann Oil bob USD n x";

const ANN: Name = Name { id: 0 };

const OIL: Name = Name { id: 1 };

const BOB: Name = Name { id: 2 };

const USD: Name = Name { id: 3 };

const N: Name = Name { id: 4 };

const X: Name = Name { id: 5 };

// Past the table.
const UNKNOWN: Name = Name { id: 6 };

fn names(alloc: Global) -> Result<Names, Memory> {
    let mut names = Names::new(alloc);
    match tokens(alloc, NAMES, &mut names) {
        Ok(_) => Ok(names),
        Err(_) => Err(Memory),
    }
}

fn params(alloc: Global, typed: &[(Name, Ty)]) -> Result<List<Param>, Memory> {
    let mut params = List::new(alloc);
    for (name, ty) in typed {
        let param = Param {
            name: *name,
            ty: *ty,
        };
        push(&mut params, param)?;
    }
    Ok(params)
}

fn decls(alloc: Global, declared: &[(Name, Ty)]) -> Result<Decls, Memory> {
    let mut names = BTreeMap::new(alloc);
    for (name, ty) in declared {
        names.insert(*name, *ty)?;
    }
    Ok(Decls { names })
}

fn operation(alloc: Global, op: Op, left: Expr, right: Expr) -> Result<Expr, Memory> {
    let left = boxed(alloc, left)?;
    let right = boxed(alloc, right)?;
    Ok(Expr::Op(op, left, right))
}

fn are(texts: &List<String>, wanted: &[&str]) -> bool {
    texts.len() == wanted.len()
        && texts
            .as_slice()
            .iter()
            .zip(wanted)
            .all(|(text, wanted)| text.as_str() == *wanted)
}

// Whether a book that declares these names alone has these texts.
fn has_texts(alloc: Global, declared: &[(Name, Ty)], wanted: &[&str]) -> Result<bool, Memory> {
    let book = Book {
        decls: decls(alloc, declared)?,
        templates: List::new(alloc),
    };
    let texts = book_texts(alloc, &names(alloc)?, &book, &List::new(alloc))?;
    Ok(are(&texts, wanted))
}

#[test]
fn what_is_not_declared_has_no_statement(rt: HostRuntime) -> Result<(), Memory> {
    let alloc = rt.alloc();
    assert!(rt; has_texts(alloc, &[], &[])?);
    assert!(rt; has_texts(alloc, &[(BOB, Ty::Agent)], &["agents bob"])?);
    assert!(rt; has_texts(alloc, &[(OIL, Ty::Kind)], &["kinds Oil"])?);
    Ok(())
}

// A template that is applied to too few arguments, whose parameters share a name, and that has the name of an agent.
fn wrong_template(alloc: Global) -> Result<Template, Memory> {
    let mut args = List::new(alloc);
    let sum = operation(alloc, Op::Add, Expr::Bool(true), Expr::Int(1))?;
    push(&mut args, sum)?;
    Ok(Template {
        name: ANN,
        params: params(alloc, &[(N, Ty::Int), (N, Ty::Day)])?,
        body: Term::App { name: ANN, args },
    })
}

// A report whose parts have the wrong types.
fn wrong_report(alloc: Global) -> Report {
    let binders = Binders {
        sender: X,
        receiver: X,
        what: X,
        day: X,
    };
    Report {
        name: ANN,
        params: List::new(alloc),
        ty: Ty::Kind,
        start: Expr::Bool(false),
        carry: UNKNOWN,
        binders,
        step: Expr::Undefined(Ty::Day),
        key: Some(Expr::Int(0)),
    }
}

#[test]
fn a_book_that_is_not_typed_has_texts(rt: HostRuntime) -> Result<(), Memory> {
    let alloc = rt.alloc();
    let declared = [
        (UNKNOWN, Ty::Agent),
        (BOB, Ty::Int),
        (ANN, Ty::Agent),
        (X, Ty::Day),
    ];
    let mut templates = List::new(alloc);
    push(&mut templates, wrong_template(alloc)?)?;
    push(&mut templates, wrong_template(alloc)?)?;
    let mut reports = List::new(alloc);
    push(&mut reports, wrong_report(alloc))?;
    let book = Book {
        decls: decls(alloc, &declared)?,
        templates,
    };
    let texts = book_texts(alloc, &names(alloc)?, &book, &reports)?;
    let wanted = [
        "agents ann, ",
        "template ann(n: Int, n: Day) = ann(true + 1)",
        "template ann(n: Int, n: Day) = ann(true + 1)",
        "report ann(): Kind = fold  = false with (x, x, x, x) in undefined Day by 0",
    ];
    assert!(rt; are(&texts, &wanted));
    Ok(())
}

// Whether the value has this text.
fn has_text(alloc: Global, value: Value, wanted: &str) -> Result<bool, Memory> {
    Ok(value_text(alloc, &names(alloc)?, value)?.as_str() == wanted)
}

#[test]
fn values_have_texts(rt: HostRuntime) -> Result<(), Memory> {
    let alloc = rt.alloc();
    let owed = Resource {
        kind: OIL,
        amount: -3,
    };
    let have = [
        has_text(alloc, Value::Int(-12), "-12")?,
        has_text(alloc, Value::Bool(true), "true")?,
        has_text(alloc, Value::Resource(owed), "[-3 Oil]")?,
        has_text(alloc, Value::Agent(BOB), "bob")?,
        has_text(alloc, Value::Kind(USD), "USD")?,
    ];
    assert_eq!(rt; have, [true; 5]);
    Ok(())
}

#[test]
fn days_have_texts(rt: HostRuntime) -> Result<(), Memory> {
    let alloc = rt.alloc();
    let Some(day) = Day::from_number(0) else {
        return Err(Memory);
    };
    assert!(rt; has_text(alloc, Value::Day(day), "@1970-01-01")?);
    assert!(rt; day_text(alloc, day)?.as_str() == "1970-01-01");
    Ok(())
}
