//! The word `demo`: eight clerks make the scripts of a text that is made for them.
ghost use Rattle.std.specs.Prelude.{◌≤◌, IfOk, string_bytes};
ghost use Rattle.poets_value.specs.Limits.{most_sales};
ghost use Rattle.poets_command.specs.Calls.{history_of};
ghost use Rattle.poets_top.specs.Demonstrating.{IsDemonstrated, IsDemonstration};
ghost use Rattle.poets_writing.specs.Outcomes.{Writes};
ghost use Rattle.poets_writing.specs.Writing.{change};

use poets_clerks::Gate;
use poets_command::Entry;
use poets_demo::{demo_line, demo_text};
use poets_io::Sink;
use poets_making::make_scripts;
use poets_session::{Form, Session, read};
use poets_value::{List, Memory};
use poets_writing::{DONE, NO_MEMORY, Outcome, without_history, write_outcome};
use std::alloc::Global;
use std::sync::Wait;
use std::thread::Threads;

/// Makes the scripts of a demonstration with so many sales a clerk, and writes the line that sums them up.
pub(crate) fn demonstrate<K: Sink, G: Gate + Sync, R: Threads + Wait + Sync>(
    rt: &R,
    alloc: Global,
    sink: &mut K,
    sales: u32,
    gate: &G,
) -> Outcome
    requires { (1 ≤ sales) × (sales ≤ most_sales) }
    ensures { Writes (IsDemonstration sales) (change K.held K.faults sink.old sink.new) result }
{
    match demonstration(rt, alloc, sales, gate) {
        Ok((history, line)) => {
            let outcome = Outcome {
                status: DONE,
                history,
            };
            write_outcome(sink, outcome, line.as_str())
        }
        Err(_) => without_history(alloc, NO_MEMORY),
    }
}

// The history of a demonstration, and its line.
fn demonstration<G: Gate + Sync, R: Threads + Wait + Sync>(
    rt: &R,
    alloc: Global,
    sales: u32,
    gate: &G,
) -> Result<(List<Entry>, String), Memory>
    requires { (1 ≤ sales) × (sales ≤ most_sales) }
    ensures { IfOk result (λ r. IsDemonstrated sales (history_of r.0.items) (string_bytes r.1)) }
{
    let text = demo_text(alloc, sales)?;
    let Ok(session) = read(alloc, text.as_bytes(), Form::Clerks) else {
        return Err(Memory);
    };
    let Session { rules, scripts, .. } = session;
    let history = make_scripts(rt, alloc, rules, &scripts, gate)?;
    let line = demo_line(alloc, sales, history.as_slice())?;
    Ok((history, line))
}
