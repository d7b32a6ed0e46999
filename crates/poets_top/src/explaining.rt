//! The words `explain NAME`: the calls of a journal are made, and one contract is explained.
ghost use Rattle.std.specs.Prelude.{◌≡◌, IfOk, OnOk, map, string_bytes};
ghost use Rattle.poets_value.specs.code.Texts.{Puts};
ghost use Rattle.poets_syntax.specs.Book.{book_of};
ghost use Rattle.poets_syntax.specs.Contract.{contract_of};
ghost use Rattle.poets_open.specs.Next.{step_of};
ghost use Rattle.poets_engine.specs.Accounts.{IsFormedAccount};
ghost use Rattle.poets_print.specs.Lines.{yes_text};
ghost use Rattle.poets_print.specs.Texts.{IsText};
ghost use Rattle.poets_session.specs.declared.form.Form.TheVariants as F;
ghost use Rattle.poets_top.specs.Explaining as lines;
ghost use Rattle.poets_top.specs.Explaining.{TellsWay};
ghost use Rattle.poets_writing.specs.Writing.{change};
ghost use Rattle.poets_top.specs.code.Answering.{AnswersSession};
ghost use Rattle.poets_top.specs.code.Explained.{ExplainsAccount, ExplainsAfter};
ghost use Rattle.poets_top.specs.code.Sessions.{WasRead};
ghost use Rattle.poets_words.specs.declared.mode.Task.TheVariants as T;

use poets_engine::{Account, Engine};
use poets_io::Sink;
use poets_lex::Names;
use poets_making::make_calls;
use poets_meaning::Studied;
use poets_open::{Step, next};
use poets_print::step_text;
use poets_residue::may_end;
use poets_session::Session;
use poets_value::Memory;
use poets_way::{verify, way_text};
use poets_words::ContractName;
use poets_writing::{DONE, NO_MEMORY, Outcome, without_history, write_outcome};
use std::alloc::Global;
use std::thread::Threads;

/// Makes the calls of a journal, and writes what explains the contract with a name.
pub(crate) fn explain<K: Sink, R: Threads + Sync>(
    rt: &R,
    alloc: Global,
    sink: &mut K,
    session: Session,
    name: &ContractName,
) -> Outcome
    requires { WasRead F.Journal session }
    ensures { AnswersSession (T.Explain name.now) session (change K.held K.faults sink.old sink.new) result }
{
    let Session {
        names,
        rules,
        scripts: _,
        journal,
    } = session;
    let Ok((engine, history)) = make_calls(rt, alloc, rules, journal.as_slice()) else {
        return without_history(alloc, NO_MEMORY);
    };
    match explanation(alloc, &names, &engine, name.text()) {
        Ok(text) => {
            let outcome = Outcome {
                status: DONE,
                history,
            };
            write_outcome(sink, outcome, text.as_str())
        }
        Err(_) => without_history(alloc, NO_MEMORY),
    }
}

// What explains the contract with a name after the engine's calls.
fn explanation(alloc: Global, names: &Names, engine: &Engine, name: &str) -> Result<String, Memory>
    ensures { IfOk result (ExplainsAfter engine.now names.now name.now) }
{
    let Some(found) = names.find(name) else {
        return absent_line(alloc, name);
    };
    match engine.account(alloc, found)? {
        Some(account) => account_text(alloc, names, engine.studied(), name, &account),
        None => absent_line(alloc, name),
    }
}

// What explains a contract by its account.
fn account_text(
    alloc: Global,
    names: &Names,
    studied: &Studied,
    name: &str,
    account: &Account,
) -> Result<String, Memory>
    requires { IsFormedAccount studied.now account.now }
    ensures { IfOk result (ExplainsAccount studied.now names.now name.now account.now) }
{
    studied.recall();
    let may_end = may_end(studied, &account.residual);
    let mut text = contract_line(alloc, name, account.events.len(), may_end)?;
    let steps = next(alloc, studied, &account.residual)?;
    add_next(alloc, &mut text, names, steps.as_slice())?;
    let way = way_line(alloc, studied, account)?;
    text.push_str(way.as_str())?;
    Ok(text)
}

// The line where no contract has the name.
fn absent_line(alloc: Global, name: &str) -> Result<String, Memory>
    ensures { IfOk result (IsText (lines.absent_line name.now)) }
{
    Ok(format!(in alloc; "no contract {name}\n")?)
}

// A truth value in a word.
fn yes_or_no(truth: bool) -> &'static str
    ensures { result.now ≡ yes_text truth }
{
    if truth { "yes" } else { "no" }
}

// The line that tells how many events are recorded on the contract, and whether it may end.
fn contract_line(alloc: Global, name: &str, events: usize, may_end: bool) -> Result<String, Memory>
    ensures { IfOk result (IsText (lines.contract_line name.now events may_end)) }
{
    let answer = yes_or_no(may_end);
    Ok(format!(in alloc; "contract {name}: events {events}, may end {answer}\n")?)
}

// Adds a line for each open transmission.
fn add_next(alloc: Global, text: &mut String, names: &Names, steps: &[Step]) -> Result<(), Memory>
    ensures { OnOk result (Puts text.old text.new (lines.next_lines names.now (map step_of steps.now))) }
{
    for step in steps {
        let line = next_line(alloc, names, step)?;
        text.push_str(line.as_str())?;
    }
    Ok(())
}

// The line of an open transmission.
fn next_line(alloc: Global, names: &Names, step: &Step) -> Result<String, Memory>
    ensures { IfOk result (IsText (lines.next_line names.now (step_of step.now))) }
{
    let open = step_text(alloc, names, &step.binders, &step.when)?;
    Ok(format!(in alloc; "next {open}\n")?)
}

// The line of a way in which the recorded events perform the contract, or the line that there is none. A way is
// verified before it is written.
fn way_line(alloc: Global, studied: &Studied, account: &Account) -> Result<String, Memory>
    requires { IsFormedAccount studied.now account.now }
    ensures { IfOk result (λ line. TellsWay (book_of studied.now.book)
        (contract_of account.now.original) account.now.events.items (string_bytes line)) }
{
    let Account {
        original,
        events,
        ..
    } = account;
    let Some(way) = poets_route::explain(alloc, studied, original, events)? else {
        return Ok(String::from_str(alloc, "way none\n")?);
    };
    if !verify(alloc, studied, original, events, &way)? {
        unreachable!();
    }
    let way = way_text(alloc, &way)?;
    Ok(format!(in alloc; "way {way}\n")?)
}
