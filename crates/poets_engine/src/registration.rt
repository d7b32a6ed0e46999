//! Registrations.
ghost use Rattle.std.specs.Prelude.{◌≡◌, ◌+◌, ◌≤◌, IfOk, OnErr};
ghost use Rattle.std.specs.Arc.{arc_value};
ghost use Rattle.poets_syntax.specs.Contract.{contract_of};
ghost use Rattle.poets_meaning.specs.Width.{size};
ghost use Rattle.poets_engine.specs.Takes.{IsTakenBy};
ghost use Rattle.poets_engine.specs.code.Commands.{registration_of};
ghost use Rattle.poets_engine.specs.code.Makes.{MakesReply};

use crate::judging::{Decision, judge};
use crate::store::Store;
use poets_command::Reply;
use poets_expr::Asks;
use poets_norm::normal_rows;
use poets_rules::Rules;
use poets_syntax::Term;
use poets_value::{Memory, Name};
use std::alloc::Global;
use std::sync::Arc;

/// Registers a contract under a name. The table shares it with the command.
#[tactic(auto, using(crate::proofs::Registering::register_taken))]
pub(crate) fn register<T>(
    alloc: Global,
    rules: &Rules,
    store: &mut Store,
    name: Name,
    term: &Arc<Term>,
    asks: &mut Asks<T>,
) -> Result<Reply, Memory>
    requires { IsTakenBy rules.now (registration_of name term.now) }
    ensures ok { IfOk result (MakesReply rules.now (registration_of name term.now) store.old store.new) }
    ensures err { OnErr result (store.new ≡ store.old) }
    ensures asks { asks.new ≤ asks.old + size (contract_of (arc_value term.now)) }
    ensures rises { asks.old ≤ asks.new }
{
    // The counter stands where it stood.
    let _count = asks.count();
    if let Some(number) = store.find(name) {
        return Ok(Reply::NameTaken(number));
    }
    let current = normal_rows(alloc, &rules.studied, term, asks)?;
    match judge(alloc, &rules.studied, Reply::Hopeless, current)? {
        Decision::Refused(reply) => Ok(reply),
        Decision::Owed(current) => {
            let original = Arc::try_clone(term)?;
            let number = store.add(name, original, current)?;
            Ok(Reply::Registered(number))
        }
    }
}
