//! Transmissions that take an event or refuse it.
ghost use Rattle.std.specs.Prelude.{◌≡◌, ◌+◌, ◌≤◌, ◌<◌, length, reverse};
ghost use Rattle.poets_syntax.specs.Givens as spec;
ghost use Rattle.poets_meaning.specs.Arguments.{arguments};
ghost use Rattle.poets_calculus.specs.InStudied.{after_in};
ghost use Rattle.poets_norm.specs.Questions.{questions};
ghost use Rattle.poets_norm.specs.Rows.{Enters};
ghost use Rattle.poets_cons.specs.Table.{contract_at, Extends};
ghost use Rattle.poets_residue.specs.code.Taking.{holds_of, sending, taken_at};

use crate::derivation::Derivation;
use poets_cons::{Arena, replaced_at};
use poets_expr::{Asks, Decls, Env, Expr, Given, eval};
use poets_norm::enter_normal;
use poets_norm::joining::failure;
use poets_syntax::Binders;
use poets_value::{Event, Memory, Name, Ty, Value};

/// What the binders stand for once the event is taken, the newest last.
pub fn event_givens(binders: &Binders, event: &Event) -> [(Name, Given); 4]
    ensures { reverse result ≡ spec.event_givens binders.now event.now }
{
    let sender = Given {
        value: Some(Value::Agent(event.sender)),
        ty: Ty::Agent,
    };
    let receiver = Given {
        value: Some(Value::Agent(event.receiver)),
        ty: Ty::Agent,
    };
    let what = Given {
        value: Some(Value::Resource(event.what)),
        ty: Ty::Resource,
    };
    let day = Given {
        value: Some(Value::Day(event.day)),
        ty: Ty::Day,
    };
    [
        (binders.sender, sender),
        (binders.receiver, receiver),
        (binders.what, what),
        (binders.day, day),
    ]
}

// Whether the predicate holds of the event.
fn holds<L>(
    decls: &Decls,
    binders: &Binders,
    when: &Expr,
    event: &Event,
    asks: &mut Asks<L>,
) -> bool
    ensures value { result ≡ holds_of decls.now binders.now event.now when.now }
    ensures rises { asks.old ≤ asks.new }
    ensures asks { asks.new ≤ asks.old + 1 }
{
    let pairs = [
        (binders.sender, Some(Value::Agent(event.sender))),
        (binders.receiver, Some(Value::Agent(event.receiver))),
        (binders.what, Some(Value::Resource(event.what))),
        (binders.day, Some(Value::Day(event.day))),
    ];
    let env = Env {
        decls,
        pairs: &pairs,
    };
    // The count that was handed in is at most the greatest `u64`.
    let _count = asks.count();
    match eval(&env, when, asks) {
        Some(Value::Bool(answer)) => answer,
        _ => false,
    }
}

impl Derivation<'_> {
    // The number of the row of what a transmission that took the event leads to.
    fn taken_on<L>(
        &self,
        arena: &mut Arena,
        binders: &Binders,
        then: usize,
        asks: &mut Asks<L>,
    ) -> Result<usize, Memory>
        requires { then < length arena.old }
        ensures grows { Extends arena.old arena.new }
        ensures residual { Enters arena.new result
            (taken_at self.now.studied.now binders.now self.now.event.now arena.old then) }
        ensures rises { asks.old ≤ asks.new }
        ensures asks { asks.new ≤ asks.old + questions (contract_at arena.old then) }
        ensures arguments { asks.new ≤ asks.old + arguments (contract_at arena.old then) }
    {
        let givens = event_givens(binders, self.event);
        let replaced = replaced_at(self.alloc, arena.nodes(), then, &givens)?;
        enter_normal(self.alloc, self.studied, arena, replaced, asks)
    }

    // The number of the row of the residual of a transmission whose continuation is a row.
    pub(crate) fn transmit<L>(
        &self,
        arena: &mut Arena,
        binders: &Binders,
        when: &Expr,
        then: usize,
        asks: &mut Asks<L>,
    ) -> Result<usize, Memory>
        requires { then < length arena.old }
        ensures grows { Extends arena.old arena.new }
        ensures residual { Enters arena.new result
            (after_in self.now.studied.now self.now.event.now (sending binders.now when.now arena.old then)) }
        ensures rises { asks.old ≤ asks.new }
        ensures asks { asks.new ≤ asks.old + questions (sending binders.now when.now arena.old then) }
        ensures once { asks.new ≤ asks.old + 1 + arguments (contract_at arena.old then) }
    {
        if !holds(&self.studied.book().decls, binders, when, self.event, asks) {
            return failure(arena);
        }
        self.taken_on(arena, binders, then, asks)
    }
}
