//! What is still to be performed.
ghost use Rattle.std.specs.Prelude.{◌≤◌, IfOk, map};
ghost use Rattle.poets_expr.specs.Expression.{expression_of};
ghost use Rattle.poets_syntax.specs.Book.{book_of};
ghost use Rattle.poets_syntax.specs.Contract.{contract_of, App, Transmit};
ghost use Rattle.poets_way.specs.Moves as M;
ghost use Rattle.poets_way.specs.code.Goals.{Adds, AddsBoth, AreSharedWith, Follows};

use crate::parts::{bind, copied, holds, parameters};
use poets_expr::{Env, Expr};
use poets_meaning::Studied;
use poets_syntax::{Binders, Term};
use poets_value::{Event, List, Memory, Name, Value, push};
use std::alloc::Global;

/// A contract that some events are to perform, under the values of its names.
#[derive(Drop)]
pub(crate) struct Goal<'a> {
    pub(crate) term: &'a Term,
    pub(crate) pairs: List<(Name, Option<Value>)>,
    pub(crate) count: usize,
}

/// What is still to be performed.
#[derive(Drop)]
pub(crate) struct Open<'a> {
    /// The goal of the next move is the last one.
    pub(crate) goals: List<Goal<'a>>,
    /// The events of the next goal, and then those of the others in their order. The next event is the last one.
    pub(crate) events: List<Event>,
}

impl<'a> Open<'a> {
    /// Adds a goal in front of the others.
    pub(crate) fn add(
        &mut self,
        term: &'a Term,
        pairs: List<(Name, Option<Value>)>,
        count: usize,
    ) -> Result<bool, Memory>
        ensures { IfOk result (Adds (contract_of term.now) pairs.items count self.old self.new) }
    {
        push(&mut self.goals, Goal { term, pairs, count })?;
        Ok(true)
    }

    /// Adds the goal of a template's body, with the values of the arguments.
    pub(crate) fn enter(
        &mut self,
        alloc: Global,
        studied: &'a Studied,
        goal: Goal<'a>,
        name: Name,
        args: &[Expr],
    ) -> Result<bool, Memory>
        requires { AreSharedWith goal self.old }
        ensures { IfOk result (Follows (book_of studied.now.book) (App name (map expression_of args.now)) M.Enter
            goal.entry self.old self.new) }
    {
        let Some((template, _)) = studied.template(name) else {
            return Ok(false);
        };
        let params = template.params.as_slice();
        if params.len() != args.len() {
            return Ok(false);
        }
        let env = Env {
            decls: &studied.book().decls,
            pairs: goal.pairs.as_slice(),
        };
        let pairs = parameters(alloc, &env, params, args)?;
        self.add(&template.body, pairs, goal.count)
    }

    /// Takes the next event, and adds the goal of the continuation.
    pub(crate) fn take(
        &mut self,
        studied: &Studied,
        goal: Goal<'a>,
        binders: &Binders,
        when: &Expr,
        then: &'a Term,
    ) -> Result<bool, Memory>
        requires { AreSharedWith goal self.old }
        ensures { IfOk result (Follows (book_of studied.now.book)
            (Transmit binders.now (expression_of when.now) (contract_of then.now)) M.Take
            goal.entry self.old self.new) }
    {
        let Goal { pairs, count, .. } = goal;
        if count == 0 {
            return Ok(false);
        }
        let Some(event) = self.events.pop() else {
            return Ok(false);
        };
        let mut pairs = pairs;
        bind(&mut pairs, binders, &event)?;
        let env = Env {
            decls: &studied.book().decls,
            pairs: pairs.as_slice(),
        };
        if !holds(&env, when) {
            return Ok(false);
        }
        self.add(then, pairs, count - 1)
    }

    /// Adds the goals of two parts, of which the first one has so many events, and those the next ones.
    pub(crate) fn add_both(
        &mut self,
        alloc: Global,
        goal: Goal<'a>,
        first: &'a Term,
        second: &'a Term,
        count: usize,
    ) -> Result<bool, Memory>
        requires { count ≤ goal.count }
        ensures { IfOk result (AddsBoth goal.entry (contract_of first.now) (contract_of second.now) count
            self.old self.new) }
    {
        let pairs = copied(alloc, goal.pairs.as_slice())?;
        self.add(second, pairs, goal.count - count)?;
        self.add(first, goal.pairs, count)
    }
}
