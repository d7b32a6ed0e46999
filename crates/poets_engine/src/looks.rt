//! Looks at contracts.
ghost use Rattle.std.specs.Prelude.{IfOk};
ghost use Rattle.poets_command.specs.Plain.{Command};
ghost use Rattle.poets_engine.specs.code.Judgements.{AreKept};
ghost use Rattle.poets_engine.specs.code.Makes.{MakesReply};

use crate::store::Store;
use poets_command::Reply;
use poets_cons::to_term;
use poets_residue::may_end_rows;
use poets_rules::Rules;
use poets_value::{Memory, Name};
use std::alloc::Global;

/// Shows the contract with a name: the tree of what is still owed, how many events are recorded on it, whether it may
/// end, and whether it was ended.
#[tactic(auto, using(crate::proofs::Showing::show_absent))]
pub(crate) fn show(alloc: Global, rules: &Rules, store: &Store, name: Name) -> Result<Reply, Memory>
    requires { AreKept rules.now.studied store.now.rows }
    ensures { IfOk result (MakesReply rules.now (Command.Show name) store.now store.now) }
{
    let Some(number) = store.find(name) else {
        return Ok(Reply::NoContract(name));
    };
    let row = store.row(number);
    Ok(Reply::Shown {
        residual: to_term(alloc, &*row.current)?,
        count: row.events.len() as u64,
        may_end: may_end_rows(&rules.studied, &*row.current),
        ended: row.ended,
    })
}
