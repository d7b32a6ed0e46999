//! Expressions of a report under its arguments and an event.
ghost use Rattle.std.specs.Prelude.{◌≡◌, ◌+◌, ◌<◌, ◌≤◌, ◌++◌, ◌∷◌, [], IfOk, reverse, vec_len, vec_capacity};
ghost use Rattle.poets_expr.specs.Asked.{one_more};
ghost use Rattle.poets_syntax.specs.Book.{parameter_env, taken};
ghost use Rattle.poets_report.specs.code.Stages.{evaluated, parts_of};

use poets_expr::{Asks, Decls, Env, Expr, eval};
use poets_syntax::{Binders, Param};
use poets_value::{Event, Memory, Name, Value};
use std::alloc::Global;
use std::marker::Model;

/// How many pairs an event brings: what is carried, and the four parts.
const EVENT_PAIRS: usize = 5;

/// The parameters with the arguments, and room for the pairs that an event brings. Contracts see the pairs,
/// the newest first.
#[derive(Drop)]
pub(crate) struct Scope {
    pairs: Vec<(Name, Option<Value>)>,
}

impl Model for Scope {
    ghost use Rattle.std.specs.Prelude.{◌+◌, ◌≤◌, reverse, vec_len, vec_capacity};
    ghost use Rattle.poets_expr.specs.Env.{Env};

    ghost Value = { Env };

    ghost view = { λ s. reverse s.pairs.items };

    ghost invariant = { λ s. vec_len s.pairs + 5 ≤ vec_capacity s.pairs };
}

impl Scope {
    /// The parameters with the arguments.
    pub(crate) fn new(
        alloc: Global,
        params: &[Param],
        args: &[Option<Value>],
    ) -> Result<Scope, Memory>
        ensures { IfOk result (λ s. s ≡ parameter_env params.now args.now) }
    {
        let mut pairs = Vec::new(alloc);
        for (param, arg) in params.iter().zip(args) {
            pairs.push((param.name, *arg))?;
        }
        pairs.reserve(EVENT_PAIRS)?;
        Ok(Scope { pairs })
    }

    /// The allocator of the pairs.
    pub(crate) fn allocator(&self) -> Global {
        *self.pairs.allocator()
    }

    /// The value of an expression.
    pub(crate) fn value<L>(&self, decls: &Decls, e: &Expr, asks: &mut Asks<L>) -> Option<Value>
        ensures value { result ≡ evaluated decls.now self.now e.now }
        ensures asks { asks.new ≡ one_more asks.old }
        ensures rises { asks.old ≤ asks.new }
    {
        value_under(decls, self.pairs.as_slice(), e, asks)
    }

    /// The value of an expression on an event.
    pub(crate) fn on_event<L>(
        &mut self,
        decls: &Decls,
        binders: &Binders,
        event: &Event,
        e: &Expr,
        asks: &mut Asks<L>,
    ) -> Option<Value>
        ensures value { result ≡ evaluated decls.now (taken binders.now event.now self.old) e.now }
        ensures same { self.new ≡ self.old }
        ensures asks { asks.new ≡ one_more asks.old }
        ensures rises { asks.old ≤ asks.new }
    {
        let count = self.pairs.len();
        bind_event(&mut self.pairs, binders, event);
        let value = value_under(decls, self.pairs.as_slice(), e, asks);
        self.pairs.truncate(count);
        value
    }

    /// The value of an expression on an event, where something is carried to it.
    pub(crate) fn past_event<L>(
        &mut self,
        decls: &Decls,
        carried: (Name, Option<Value>),
        binders: &Binders,
        event: &Event,
        e: &Expr,
        asks: &mut Asks<L>,
    ) -> Option<Value>
        ensures value { result ≡ evaluated decls.now (taken binders.now event.now (carried ∷ self.old)) e.now }
        ensures same { self.new ≡ self.old }
        ensures asks { asks.new ≡ one_more asks.old }
        ensures rises { asks.old ≤ asks.new }
    {
        let count = self.pairs.len();
        bind(&mut self.pairs, carried);
        bind_event(&mut self.pairs, binders, event);
        let value = value_under(decls, self.pairs.as_slice(), e, asks);
        self.pairs.truncate(count);
        value
    }
}

// The value of an expression under pairs, the newest last.
fn value_under<L>(
    decls: &Decls,
    pairs: &[(Name, Option<Value>)],
    e: &Expr,
    asks: &mut Asks<L>,
) -> Option<Value>
    ensures value { result ≡ evaluated decls.now (reverse pairs.now) e.now }
    ensures asks { asks.new ≡ one_more asks.old }
    ensures rises { asks.old ≤ asks.new }
{
    eval(&Env { decls, pairs }, e, asks)
}

// Adds a pair for which there is room.
fn bind(pairs: &mut Vec<(Name, Option<Value>)>, pair: (Name, Option<Value>))
    requires { vec_len pairs.old < vec_capacity pairs.old }
    ensures items { pairs.new.items ≡ pairs.old.items ++ pair ∷ [] }
    ensures len { vec_len pairs.new ≡ vec_len pairs.old + 1 }
    ensures capacity { vec_capacity pairs.old ≤ vec_capacity pairs.new }
{
    match pairs.push(pair) {
        Ok(()) => {}
        Err(_) => unreachable!(),
    }
}

// Adds the parts of an event, for which there is room.
fn bind_event(pairs: &mut Vec<(Name, Option<Value>)>, binders: &Binders, event: &Event)
    requires { vec_len pairs.old + 4 ≤ vec_capacity pairs.old }
    ensures items { pairs.new.items ≡ pairs.old.items ++ parts_of binders.now event.now }
    ensures len { vec_len pairs.new ≡ vec_len pairs.old + 4 }
    ensures capacity { vec_capacity pairs.old ≤ vec_capacity pairs.new }
{
    bind(pairs, (binders.sender, Some(Value::Agent(event.sender))));
    bind(
        pairs,
        (binders.receiver, Some(Value::Agent(event.receiver))),
    );
    bind(pairs, (binders.what, Some(Value::Resource(event.what))));
    bind(pairs, (binders.day, Some(Value::Day(event.day))));
}
