//! All scripts at once.
ghost use Rattle.std.specs.Prelude.{◌≡◌, ◌≤◌, [], false, length, map, All, IfOk, IfErr};
ghost use Rattle.poets_turn.specs.Clerks.{number, turn_frame, IsClerkOf};
ghost use Rattle.poets_clerks.specs.Scripts.{AreTaken, IsWorkOf};
ghost use Rattle.poets_clerks.specs.code.Desks.{AreEmptyWithRoom};

use crate::answers::{Done, DoneOf, Worked, WorkedOf};
use crate::gate::Gate;
use crate::team::{Crew, Desk, DeskOf, spread};
use poets_machine::Machine;
use poets_turn::{Clerk, Turn};
use poets_value::List;
use std::alloc::Global;
use std::sync::{Arc, Wait};
use std::thread::Threads;

/// Has each clerk make the calls of its script in order, all at once, each in a thread of its own where one can be
/// started. A clerk that runs out of memory makes no further call. If there is no memory for the list of answers, it is
/// empty, and no call was made.
pub fn work<M: Machine + Send, G: Gate + Sync, R: Threads + Wait + Sync>(
    rt: &R,
    alloc: Global,
    turn: &Turn<M>,
    clerks: List<Clerk<M>>,
    scripts: &List<List<Arc<M::Call>>>,
    gate: &G,
) -> Worked<M>
where
    M::Call: Send + Sync,
    M::Reply: Send,
    M::Kept: Send,
    requires scripts { length scripts.now.items ≡ length clerks.items }
    requires of { All (λ c. IsClerkOf M.frame turn.now c) clerks.items }
    requires takes { AreTaken (M.takes (turn_frame M.frame turn.now)) scripts.now }
    ensures worked { IsWorkOf M.frame M.answers turn.now scripts.now clerks result }
    ensures of { All (λ c. IsClerkOf M.frame turn.now c) result.clerks.items }
    ensures numbers { map (λ c. number c) result.clerks.items ≡ map (λ c. number c) clerks.items }
{
    match seated(alloc, clerks) {
        Ok((mut desks, back, answers)) => {
            let crew = Crew {
                turn,
                scripts: scripts.as_slice(),
            };
            spread(rt, alloc, &crew, desks.as_mut_slice(), gate);
            gathered(desks, back, answers)
        }
        Err(clerks) => WorkedOf {
            clerks,
            answers: List::new(alloc),
            memory: true,
        },
    }
}

// Each clerk at a desk, and two empty lists with room: for the clerks, and for their answers.
fn seated<M: Machine>(
    alloc: Global,
    clerks: List<Clerk<M>>,
) -> Result<(Vec<Desk<M>>, List<Clerk<M>>, List<List<Done<M>>>), List<Clerk<M>>>
    ensures desks { IfOk result (λ r. map (λ d. d.clerk) r.0.items ≡ clerks.items) }
    ensures room { IfOk result (λ r. AreEmptyWithRoom (length clerks.items) r.1 r.2) }
    ensures back { IfErr result (λ c. c.items ≡ clerks.items) }
{
    let mut back = List::new(alloc);
    let mut answers = List::new(alloc);
    let Ok(mut desks) = Vec::with_capacity(alloc, clerks.len()) else {
        return Err(clerks);
    };
    if back.reserve(clerks.len()).is_err() || answers.reserve(clerks.len()).is_err() {
        return Err(clerks);
    }
    for clerk in clerks.into_vec() {
        desks.push_reserved(DeskOf {
            clerk,
            answers: List::new(alloc),
            memory: false,
        });
    }
    Ok((desks, back, answers))
}

// The clerks of the desks, and their answers.
fn gathered<M: Machine>(
    desks: Vec<Desk<M>>,
    clerks: List<Clerk<M>>,
    answers: List<List<Done<M>>>,
) -> Worked<M>
    requires clerks { (clerks.items ≡ []) × (length desks.items ≤ clerks.room) }
    requires answers { (answers.items ≡ []) × (length desks.items ≤ answers.room) }
    ensures clerks { result.clerks.items ≡ map (λ d. d.clerk) desks.items }
    ensures answers { result.answers.items ≡ map (λ d. d.answers) desks.items }
    ensures memory { result.memory ≡ false → All (λ d. d.memory ≡ false) desks.items }
{
    let mut worked = WorkedOf {
        clerks,
        answers,
        memory: false,
    };
    for desk in desks {
        let DeskOf {
            clerk,
            answers,
            memory,
        } = desk;
        let Ok(()) = worked.clerks.push(clerk) else {
            unreachable!()
        };
        let Ok(()) = worked.answers.push(answers) else {
            unreachable!()
        };
        worked.memory = worked.memory || memory;
    }
    worked
}
