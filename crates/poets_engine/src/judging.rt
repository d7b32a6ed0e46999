//! Which contracts are kept.
ghost use Rattle.std.specs.Prelude.{◌≡◌, ◌+◌, ◌≤◌, IfOk};
ghost use Rattle.poets_syntax.specs.Applied.{CountsFit};
ghost use Rattle.poets_syntax.specs.Book.{book_of};
ghost use Rattle.poets_cons.specs.Row.{contract_by, row_of};
ghost use Rattle.poets_cons.specs.Table.{contract_at, contract_of_rows};
ghost use Rattle.poets_engine.specs.Evaluations.{asked_in};
ghost use Rattle.poets_engine.specs.code.Judgements.{IsDecisionOn, KeptFits, judge_rows, judgement_of};
ghost use Rattle.poets_engine.specs.code.Judgements as judgements;

use poets_command::Reply;
use poets_cons::{Node, Rows};
use poets_expr::Asks;
use poets_meaning::Studied;
use poets_residue::{past_limit, residual_rows};
use poets_value::{Event, Memory};
use std::alloc::Global;
use std::sync::Arc;

/// A refusal, or a contract that is kept.
#[derive(Drop)]
pub(crate) enum Decision {
    Refused(Reply),
    /// The rows of what is owed from then on.
    Owed(Arc<Rows>),
}

// The node of the root.
fn root_node(rows: &Rows) -> &Node
    ensures { contract_of_rows rows.now ≡ contract_by (contract_at rows.now) (row_of result.now) }
{
    rows.node(rows.root())
}

// Whether the contract is `Failure`.
fn is_failure(rows: &Rows) -> bool
    ensures { result ≡ judgements.is_failure (contract_of_rows rows.now) }
{
    match root_node(rows) {
        Node::Failure => true,
        _ => false,
    }
}

/// Refuses by the given reply a contract that no number of granted steps performs, and as too large one that is past
/// the limit.
pub(crate) fn judge(
    alloc: Global,
    studied: &Studied,
    refusal: Reply,
    rows: Rows,
) -> Result<Decision, Memory>
    requires { CountsFit (book_of studied.now.book) (contract_of_rows rows) }
    ensures choice { IfOk result (λ d. judgement_of d ≡ judge_rows studied.now refusal rows) }
    ensures fits { IfOk result (λ d. KeptFits (book_of studied.now.book) (judgement_of d)) }
{
    if is_failure(&rows) {
        return Ok(Decision::Refused(refusal));
    }
    if past_limit(alloc, studied, &rows)? {
        return Ok(Decision::Refused(Reply::TooLarge));
    }
    Ok(Decision::Owed(Arc::new(alloc, rows)?))
}

/// What becomes of what is owed by an event.
pub(crate) fn take_event<T>(
    alloc: Global,
    studied: &Studied,
    owed: &Rows,
    event: &Event,
    asks: &mut Asks<T>,
) -> Result<Decision, Memory>
    requires { CountsFit (book_of studied.now.book) (contract_of_rows owed.now) }
    ensures choice { IfOk result (IsDecisionOn studied.now owed.now event.now) }
    ensures fits { IfOk result (λ d. KeptFits (book_of studied.now.book) (judgement_of d)) }
    ensures asks { asks.new ≤ asks.old + asked_in studied.now (contract_of_rows owed.now) }
    ensures rises { asks.old ≤ asks.new }
{
    // The numbers of arguments fit in the bodies of the templates.
    studied.recall();
    let next = residual_rows(alloc, studied, owed, event, asks)?;
    judge(alloc, studied, Reply::Unmatched, next)
}
