//! Where an expression of another type than is wanted begins. Trees have no places, so it is found again by the order in
//! which a statement is checked (`docs/LANGUAGE.md`, "Names and types").
//!
//! The first fault of the text is one of types in this statement. So every name that is checked before it is known, and
//! every application there has the right number of arguments.

use poets_command::{Command, Statement};
use poets_expr::{Expr, Op};
use poets_lex::{Sign, Tok, Token};
use poets_report::Report;
use poets_syntax::{Binders, Param, Term};
use poets_value::{List, Memory, Name, Ty, push};
use std::alloc::Global;
use std::collections::BTreeMap;

// What is known in the statement.
#[derive(Drop)]
struct Known<'a> {
    statements: &'a [Statement],
    // The types of agents, kinds and the statement's parameters.
    types: BTreeMap<Name, Ty>,
    // Where templates and reports stand among the statements.
    places: BTreeMap<Name, usize>,
    // The statement's tokens without brackets and commas, which leave no trace in a tree.
    tokens: &'a [Token],
}

// The names that are bound in a place: none, or those of a list and what is bound further out.
#[derive(Drop)]
enum Scope<'a> {
    Empty,
    Inner(&'a [Param], &'a Scope<'a>),
}

// The type of an expression, and the places of its first token and of the one after it.
#[derive(Clone, Copy)]
struct Typed {
    ty: Ty,
    from: usize,
    to: usize,
}

// The place that comes so many later.
fn later(place: usize, count: usize) -> usize {
    place.saturating_add(count)
}

// `Err` is where the expression begins, if it is of another type than the wanted one.
fn must_be(wanted: Ty, x: Typed) -> Result<(), usize> {
    if x.ty == wanted { Ok(()) } else { Err(x.from) }
}

// The place after the expression, which is of the wanted type.
fn after(wanted: Ty, x: Typed) -> Result<usize, usize> {
    must_be(wanted, x)?;
    Ok(x.to)
}

// `Err` is where the expression begins, if it is neither a number nor a day.
fn must_be_number_or_day(x: Typed) -> Result<(), usize> {
    match x.ty {
        Ty::Int | Ty::Day => Ok(()),
        _ => Err(x.from),
    }
}

// The type of two operands under an operator.
fn operation_type(op: Op, x: Typed, y: Typed) -> Result<Ty, usize> {
    match op {
        Op::Sub if x.ty == Ty::Day && y.ty == Ty::Day => Ok(Ty::Int),
        Op::Add | Op::Sub => {
            must_be_number_or_day(x)?;
            must_be(Ty::Int, y)?;
            Ok(x.ty)
        }
        Op::Mul | Op::Div | Op::Rem => {
            must_be(Ty::Int, x)?;
            must_be(Ty::Int, y)?;
            Ok(Ty::Int)
        }
        Op::Eq | Op::Ne => {
            must_be(x.ty, y)?;
            Ok(Ty::Bool)
        }
        Op::Lt | Op::Le | Op::Gt | Op::Ge => {
            must_be_number_or_day(x)?;
            must_be(x.ty, y)?;
            Ok(Ty::Bool)
        }
        Op::And | Op::Or => {
            must_be(Ty::Bool, x)?;
            must_be(Ty::Bool, y)?;
            Ok(Ty::Bool)
        }
    }
}

impl Scope<'_> {
    // The type of the name, if it is bound.
    fn type_of(&self, name: Name) -> Option<Ty> {
        match self {
            Scope::Empty => None,
            Scope::Inner(names, outer) => match names.iter().find(|param| param.name == name) {
                Some(param) => Some(param.ty),
                None => outer.type_of(name),
            },
        }
    }
}

impl Known<'_> {
    // The place after the number there, which may have a sign.
    fn after_number(&self, place: usize) -> usize {
        match self.tokens.get(place) {
            Some(
                Token {
                    what: Tok::Sign(Sign::Minus),
                    ..
                },
            ) => later(place, 2),
            _ => later(place, 1),
        }
    }

    // The name at the place is declared as the wanted one of an agent and a kind.
    fn must_be_declared(&self, wanted: Ty, name: Name, place: usize) -> Result<(), usize> {
        if self.types.get(&name) == Some(&wanted) {
            Ok(())
        } else {
            Err(place)
        }
    }

    // The parameters of the template or the report.
    fn params(&self, name: Name) -> &[Param] {
        let Some(place) = self.places.get(&name) else {
            return &[];
        };
        match self.statements.get(*place) {
            Some(Statement::Template(template)) => template.params.as_slice(),
            Some(Statement::Report(report)) => report.params.as_slice(),
            _ => &[],
        }
    }

    // The type of the name at the place.
    fn name_type(&self, scope: &Scope, name: Name, place: usize) -> Result<Ty, usize> {
        match scope.type_of(name) {
            Some(ty) => Ok(ty),
            None => self.types.get(&name).copied().ok_or(place),
        }
    }

    // The expression that begins at the place.
    fn typed(&self, scope: &Scope, e: &Expr, from: usize) -> Result<Typed, usize> {
        let next = later(from, 1);
        let (ty, to) = match e {
            Expr::Int(_) => (Ty::Int, self.after_number(from)),
            Expr::Bool(_) => (Ty::Bool, next),
            Expr::Day(_) => (Ty::Day, next),
            Expr::Undefined(ty) => (*ty, later(from, 2)),
            Expr::Name(name) => (self.name_type(scope, *name, from)?, next),
            Expr::Res(resource) => {
                let kind = self.after_number(next);
                self.must_be_declared(Ty::Kind, resource.kind, kind)?;
                (Ty::Resource, later(kind, 2))
            }
            Expr::Neg(a) => (Ty::Int, after(Ty::Int, self.typed(scope, a, next)?)?),
            Expr::Not(a) => (Ty::Bool, after(Ty::Bool, self.typed(scope, a, next)?)?),
            Expr::Amount(a) => (Ty::Int, after(Ty::Resource, self.typed(scope, a, next)?)?),
            Expr::KindOf(a) => (Ty::Kind, after(Ty::Resource, self.typed(scope, a, next)?)?),
            Expr::Make(a, b) => {
                let x = self.typed(scope, a, next)?;
                let y = self.typed(scope, b, x.to)?;
                must_be(Ty::Int, x)?;
                (Ty::Resource, after(Ty::Kind, y)?)
            }
            Expr::Op(op, a, b) => {
                let x = self.typed(scope, a, from)?;
                let y = self.typed(scope, b, later(x.to, 1))?;
                (operation_type(*op, x, y)?, y.to)
            }
            Expr::If(a, b, c) => {
                let x = self.typed(scope, a, next)?;
                let y = self.typed(scope, b, later(x.to, 1))?;
                let z = self.typed(scope, c, later(y.to, 1))?;
                must_be(Ty::Bool, x)?;
                (y.ty, later(after(y.ty, z)?, 1))
            }
        };
        Ok(Typed { ty, from, to })
    }

    // The arguments of the template or the report whose name stands at the place.
    fn arguments(
        &self,
        scope: &Scope,
        name: Name,
        args: &[Expr],
        place: usize,
    ) -> Result<usize, usize> {
        let mut from = later(place, 1);
        for (param, arg) in self.params(name).iter().zip(args) {
            let x = self.typed(scope, arg, from)?;
            must_be(param.ty, x)?;
            from = x.to;
        }
        Ok(from)
    }

    // The place after the contract that begins at the place.
    fn contract(&self, scope: &Scope, term: &Term, from: usize) -> Result<usize, usize> {
        match term {
            Term::Success | Term::Failure => Ok(later(from, 1)),
            Term::Transmit {
                binders,
                when,
                then,
            } => {
                let names = types_of(binders);
                let inner = Scope::Inner(&names, &*scope);
                // The word, four names and a bar stand ahead of the predicate.
                let to = after(Ty::Bool, self.typed(&inner, when, later(from, 6))?)?;
                self.contract(&inner, then, later(to, 1))
            }
            Term::Plus(a, b) | Term::Par(a, b) | Term::Seq(a, b) => {
                let to = self.contract(scope, a, from)?;
                self.contract(scope, b, later(to, 1))
            }
            Term::App { name, args } => self.arguments(scope, *name, args.as_slice(), from),
        }
    }

    // The start, the step and the key of a report, of which the start stands at the place.
    fn fold(&self, scope: &Scope, report: &Report, place: usize) -> Result<usize, usize> {
        let start = self.typed(scope, &report.start, place)?;
        must_be(report.ty, start)?;
        let carried = [Param {
            name: report.carry,
            ty: report.ty,
        }];
        let carrying = Scope::Inner(&carried, &*scope);
        let bound = types_of(&report.binders);
        let inner = Scope::Inner(&bound, &carrying);
        // `with`, four names and `in` stand ahead of the step.
        let step = self.typed(&inner, &report.step, later(start.to, 6))?;
        must_be(report.ty, step)?;
        let Some(key) = &report.key else {
            return Ok(step.to);
        };
        let keyed = Scope::Inner(&bound, &*scope);
        Ok(self.typed(&keyed, key, later(step.to, 1))?.to)
    }

    // The command whose word stands at the place.
    fn command(&self, scope: &Scope, command: &Command, place: usize) -> Result<usize, usize> {
        match command {
            Command::Register { term, .. } => self.contract(scope, term, later(place, 3)),
            Command::Transmit { event, .. } => {
                self.must_be_declared(Ty::Agent, event.sender, later(place, 2))?;
                self.must_be_declared(Ty::Agent, event.receiver, later(place, 3))?;
                self.must_be_declared(Ty::Kind, event.what.kind, later(place, 5))?;
                Ok(later(place, 7))
            }
            Command::Tally { report, args }
            | Command::Portfolio { report, args, .. }
            | Command::Watch { report, args } => {
                self.arguments(scope, *report, args.as_slice(), later(place, 1))
            }
            _ => Ok(place),
        }
    }

    // The statement, which begins at place 0. A parameter has three tokens.
    fn statement(&self, statement: &Statement) -> Result<usize, usize> {
        let scope = Scope::Empty;
        match statement {
            Statement::Template(template) => {
                let place = later(3, template.params.len().saturating_mul(3));
                self.contract(&scope, &template.body, place)
            }
            Statement::Report(report) => {
                let place = later(8, report.params.len().saturating_mul(3));
                self.fold(&scope, report, place)
            }
            Statement::Command(command) => self.command(&scope, command, 0),
            Statement::Numbered(_, command) => self.command(&scope, command, 2),
            _ => Ok(0),
        }
    }
}

// The four binders with their types.
fn types_of(binders: &Binders) -> [Param; 4] {
    [
        Param {
            name: binders.sender,
            ty: Ty::Agent,
        },
        Param {
            name: binders.receiver,
            ty: Ty::Agent,
        },
        Param {
            name: binders.what,
            ty: Ty::Resource,
        },
        Param {
            name: binders.day,
            ty: Ty::Day,
        },
    ]
}

// Enters the names with the type.
fn enter(types: &mut BTreeMap<Name, Ty>, names: &[Name], ty: Ty) -> Result<(), Memory> {
    for name in names {
        types.insert(*name, ty)?;
    }
    Ok(())
}

// Enters the parameters with their types.
fn enter_params(types: &mut BTreeMap<Name, Ty>, params: &[Param]) -> Result<(), Memory> {
    for param in params {
        types.insert(param.name, param.ty)?;
    }
    Ok(())
}

// What is known in the statement of these tokens, one of the statements.
fn what_is_known<'a>(
    alloc: Global,
    statements: &'a [Statement],
    statement: &Statement,
    tokens: &'a [Token],
) -> Result<Known<'a>, Memory> {
    let mut types = BTreeMap::new(alloc);
    let mut places = BTreeMap::new(alloc);
    for (place, declared) in statements.iter().enumerate() {
        match declared {
            Statement::Agents(names) => enter(&mut types, names.as_slice(), Ty::Agent)?,
            Statement::Kinds(names) => enter(&mut types, names.as_slice(), Ty::Kind)?,
            Statement::Template(template) => {
                places.insert(template.name, place)?;
            }
            Statement::Report(report) => {
                places.insert(report.name, place)?;
            }
            _ => {}
        }
    }
    match statement {
        Statement::Template(template) => enter_params(&mut types, template.params.as_slice())?,
        Statement::Report(report) => enter_params(&mut types, report.params.as_slice())?,
        _ => {}
    }
    Ok(Known {
        statements,
        types,
        places,
        tokens,
    })
}

// Whether the token is neither a bracket nor a comma.
fn leaves_trace(token: &Token) -> bool {
    !matches!(
        token.what,
        Tok::Sign(Sign::LeftParen | Sign::RightParen | Sign::Comma)
    )
}

/// The place, among the tokens of the statement with the number, where the first expression begins that is of another
/// type than is wanted, or where a name stands that is. None if there is none.
pub(crate) fn mistyped(
    alloc: Global,
    statements: &[Statement],
    number: u64,
    tokens: &[Token],
) -> Result<Option<usize>, Memory> {
    let mut places = List::new(alloc);
    let mut kept = List::new(alloc);
    for (place, token) in tokens.iter().enumerate() {
        if leaves_trace(token) {
            push(&mut places, place)?;
            push(&mut kept, *token)?;
        }
    }
    let Some(statement) = statements.get((number as usize).saturating_sub(1)) else {
        return Ok(None);
    };
    let known = what_is_known(alloc, statements, statement, kept.as_slice())?;
    match known.statement(statement) {
        Ok(_) => Ok(None),
        Err(place) => Ok(places.get(place).copied()),
    }
}
