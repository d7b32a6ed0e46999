//! The history that all scripts make, with the reply to each of its calls.
ghost use Rattle.std.specs.Prelude.{◌≡◌, ◌<◌, ◌≤◌, [], length, None, All, IfOk, IfSome};
ghost use Rattle.poets_value.specs.Limits.{most_clerks};
ghost use Rattle.poets_clerks.specs.Histories.{AreInOrder, AreReplies, FillPlaces, HasScriptParts, HasScripts};
ghost use Rattle.poets_clerks.specs.Scripts.{AreTaken, calls_of_scripts, pairs_of};
ghost use Rattle.poets_clerks.specs.code.Slots.{HoldRepliesOf, answers_of_all};

use crate::answers::{DoneOf, WorkedOf};
use crate::gate::Gate;
use crate::scripts::work;
use poets_machine::Machine;
use poets_turn::Turn;
use poets_value::{List, Memory, push};
use std::alloc::Global;
use std::sync::{Arc, Wait};
use std::thread::Threads;

/// What came of scripts: the machine, and the reply to each call of its history, in the history's order, where memory
/// was enough.
#[derive(Drop)]
pub struct MadeOf<M, R> {
    pub machine: M,
    pub replies: Option<List<R>>,
}

/// Has clerks make the calls of scripts on a machine that took no call yet, all at once: a clerk for each script, in a
/// thread of its own where one can be started. The machine comes back, and the reply to each call of its history, in
/// the history's order.
///
/// In which order the calls of different clerks come depends on how their threads run.
pub fn make_history<M: Machine + Send, G: Gate + Sync, R: Threads + Wait + Sync>(
    rt: &R,
    alloc: Global,
    machine: M,
    scripts: &List<List<Arc<M::Call>>>,
    gate: &G,
) -> Result<(M, List<M::Reply>), Memory>
where
    M::Call: Send + Sync,
    M::Reply: Send,
    M::Kept: Send,
    requires scripts { (0 < length scripts.now.items) × (length scripts.now.items ≤ most_clerks) }
    requires new { M.history machine ≡ [] }
    requires takes { AreTaken (M.takes (M.frame machine)) scripts.now }
    ensures frame { IfOk result (λ r. M.frame r.0 ≡ M.frame machine) }
    ensures history { IfOk result (λ r. HasScripts (calls_of_scripts scripts.now) (M.history r.0)) }
    ensures replies { IfOk result (λ r. AreReplies (M.answers (M.frame machine)) (M.history r.0) r.1.items) }
{
    let MadeOf { machine, replies } = attempt_history(rt, alloc, machine, scripts, gate);
    match replies {
        Some(replies) => Ok((machine, replies)),
        None => Err(Memory),
    }
}

/// As `make_history`, but the machine always comes back. If memory ran out, its history has the calls that were made
/// until then.
pub fn attempt_history<M: Machine + Send, G: Gate + Sync, R: Threads + Wait + Sync>(
    rt: &R,
    alloc: Global,
    machine: M,
    scripts: &List<List<Arc<M::Call>>>,
    gate: &G,
) -> MadeOf<M, M::Reply>
where
    M::Call: Send + Sync,
    M::Reply: Send,
    M::Kept: Send,
    requires scripts { (0 < length scripts.now.items) × (length scripts.now.items ≤ most_clerks) }
    requires new { M.history machine ≡ [] }
    requires takes { AreTaken (M.takes (M.frame machine)) scripts.now }
    ensures frame { M.frame result.machine ≡ M.frame machine }
    ensures part { HasScriptParts (calls_of_scripts scripts.now) (M.history result.machine) }
    ensures history { IfSome result.replies (λ _. HasScripts (calls_of_scripts scripts.now) (M.history result.machine)) }
    ensures replies { IfSome result.replies (λ replies.
        AreReplies (M.answers (M.frame machine)) (M.history result.machine) replies.items) }
{
    let (turn, clerks) = match Turn::start(alloc, machine, scripts.len() as u32) {
        Ok(started) => started,
        Err(machine) => {
            return MadeOf {
                machine,
                replies: None,
            };
        }
    };
    let WorkedOf {
        clerks,
        answers,
        memory,
    } = work(rt, alloc, &turn, clerks, scripts, gate);
    let machine = turn.close(clerks);
    if memory {
        return MadeOf {
            machine,
            replies: None,
        };
    }
    let replies = all_replies(alloc, answers).ok();
    MadeOf { machine, replies }
}

// The replies of all answers, in the order of their places.
fn all_replies<R: Drop>(alloc: Global, answers: List<List<DoneOf<R>>>) -> Result<List<R>, Memory>
    requires { FillPlaces (answers_of_all answers.items) }
    ensures { IfOk result (λ replies. AreInOrder (answers_of_all answers.items) replies.items) }
{
    let answers = joined(alloc, answers)?;
    in_order(alloc, answers)
}

// All answers, those of the first clerk first.
fn joined<R: Drop>(alloc: Global, answers: List<List<DoneOf<R>>>) -> Result<Vec<DoneOf<R>>, Memory>
    ensures { IfOk result (λ all. pairs_of all.items ≡ answers_of_all answers.items) }
{
    let mut all = Vec::new(alloc);
    for done in answers.into_vec() {
        all.append(&mut done.into_vec())?;
    }
    Ok(all)
}

// The replies of answers in the order of their places.
fn in_order<R: Drop>(alloc: Global, answers: Vec<DoneOf<R>>) -> Result<List<R>, Memory>
    requires { FillPlaces (pairs_of answers.items) }
    ensures { IfOk result (λ replies. AreInOrder (pairs_of answers.items) replies.items) }
{
    let slots = filled_slots(alloc, answers)?;
    let mut replies = List::new(alloc);
    for slot in slots.into_vec() {
        let Some(reply) = slot else { unreachable!() };
        push(&mut replies, reply)?;
    }
    Ok(replies)
}

// Slots with the replies of answers, each at its place.
fn filled_slots<R: Drop>(alloc: Global, answers: Vec<DoneOf<R>>) -> Result<List<Option<R>>, Memory>
    requires { FillPlaces (pairs_of answers.items) }
    ensures { IfOk result (HoldRepliesOf answers.items) }
{
    let mut slots = empty_slots(alloc, answers.len())?;
    for DoneOf { place, reply } in answers {
        slots.put(place as usize, Some(reply));
    }
    Ok(slots)
}

// So many slots for replies.
fn empty_slots<R: Drop>(alloc: Global, count: usize) -> Result<List<Option<R>>, Memory>
    ensures count { IfOk result (λ slots. length slots.items ≡ count) }
    ensures empty { IfOk result (λ slots. All (λ slot. slot ≡ None) slots.items) }
{
    let mut slots = List::new(alloc);
    for made in 0..count {
        push(&mut slots, None)?;
    }
    Ok(slots)
}
