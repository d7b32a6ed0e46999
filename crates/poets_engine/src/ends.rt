//! Ends of contracts.
ghost use Rattle.poets_command.specs.Calls.{reply_of};
ghost use Rattle.poets_command.specs.Plain.{Command};
ghost use Rattle.poets_engine.specs.code.Judgements.{AreKept};
ghost use Rattle.poets_engine.specs.code.Makes.{Makes};

use crate::store::Store;
use poets_command::Reply;
use poets_residue::may_end_rows;
use poets_rules::Rules;
use poets_value::Name;

/// Ends the contract with a name, where it may end.
#[tactic(auto, using(crate::proofs::Ending::end_absent))]
pub(crate) fn end(rules: &Rules, store: &mut Store, name: Name) -> Reply
    requires { AreKept rules.now.studied store.old.rows }
    ensures { Makes rules.now (Command.End name) store.old store.new (reply_of result) }
{
    let Some(number) = store.find(name) else {
        return Reply::NoContract(name);
    };
    let row = store.row(number);
    if row.ended {
        return Reply::AlreadyEnded;
    }
    if !may_end_rows(&rules.studied, &*row.current) {
        return Reply::NotPerformed;
    }
    store.finish(number);
    Reply::EndedNow
}
