//! Whether a trace performs a contract in a given way.
ghost use Rattle.std.specs.Prelude.{◌↔◌, [], IfOk, IsTrue};
ghost use Rattle.poets_syntax.specs.Book.{book_of};
ghost use Rattle.poets_syntax.specs.Contract.{contract_of};
ghost use Rattle.poets_way.specs.Moves.{move_of};
ghost use Rattle.poets_way.specs.Ways.{Ways};
ghost use Rattle.poets_way.specs.code.Goals.{AreSharedWith, Follows};

use crate::goals::{Goal, Open};
use crate::parts::{part, turned};
use crate::way::{Move, Way};
use poets_meaning::Studied;
use poets_syntax::Term;
use poets_value::{Event, List, Memory};
use std::alloc::Global;

// Follows a move at the goal, which was taken out, and answers whether it fits.
fn follow<'a>(
    alloc: Global,
    studied: &'a Studied,
    rest: &mut Open<'a>,
    goal: Goal<'a>,
    step: &Move,
) -> Result<bool, Memory>
    requires { AreSharedWith goal rest.old }
    ensures { IfOk result (Follows (book_of studied.now.book) (contract_of goal.entry.term.now) (move_of step.now)
        goal.entry rest.old rest.new) }
{
    match (goal.term, step) {
        (Term::Success, Move::Nothing) => Ok(goal.count == 0),
        (Term::App { name, args }, Move::Enter) => {
            rest.enter(alloc, studied, goal, *name, args.as_slice())
        }
        (
            Term::Transmit {
                binders,
                when,
                then,
            },
            Move::Take,
        ) => rest.take(studied, goal, binders, when, then),
        (Term::Plus(a, _), Move::Left) => rest.add(a, goal.pairs, goal.count),
        (Term::Plus(_, b), Move::Right) => rest.add(b, goal.pairs, goal.count),
        (Term::Par(a, b), Move::Both(sides)) if sides.len() == goal.count => {
            let count = part(alloc, &mut rest.events, sides.as_slice())?;
            rest.add_both(alloc, goal, a, b, count)
        }
        (Term::Seq(a, b), Move::Then(count)) if *count <= goal.count as u64 => {
            rest.add_both(alloc, goal, a, b, *count as usize)
        }
        _ => Ok(false),
    }
}

/// Whether the events perform the contract in this way. Predicates are evaluated under environments, and no residual is
/// made.
pub fn verify(
    alloc: Global,
    studied: &Studied,
    term: &Term,
    events: &List<Event>,
    way: &Way,
) -> Result<bool, Memory>
    ensures { IfOk result (λ b. IsTrue b
        ↔ Ways (book_of studied.now.book) [] (contract_of term.now) events.now.items way.now) }
{
    let mut rest = Open {
        goals: List::new(alloc),
        events: turned(alloc, events.as_slice())?,
    };
    rest.add(term, List::new(alloc), events.len())?;
    for step in way.moves() {
        let Some(goal) = rest.goals.pop() else {
            return Ok(false);
        };
        if !follow(alloc, studied, &mut rest, goal, step)? {
            return Ok(false);
        }
    }
    Ok(rest.goals.is_empty())
}
