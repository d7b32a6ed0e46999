//! A shop that sells oil: its book, and its calls.
ghost use Rattle.std.specs.Prelude.{◌≡◌, [], IfOk};
ghost use Rattle.poets_value.specs.Whole.{IsWholeEvent};

use poets_command::Reply;
use poets_expr::Asks;
use poets_host::{Host, call, checked, deliver, handed, open, registration, tally};
use poets_lex::Names;
use poets_report::Answer;
use poets_session::SessionFault;
use poets_types::TypeCause;
use poets_value::{Day, Event, Name, Value};
use std::alloc::Global;
use std::thread::Threads;

// Ann delivers so many units of oil to Bob, and he pays 500 dollars; and contracts that take any event.
const BOOK: &str = "agents ann, bob;; kinds Oil, USD;;
template sale(units: Int) =
  transmit(a, b, r, t | a = ann and b = bob and r = res(units, Oil)).
  transmit(c, d, p, w | c = bob and d = ann and p = [500 USD]). Success;;
report sold(): Int = fold n = 0 with (s, v, r, t) in
  if kind(r) = Oil then n + amount(r) else n end;;
template any(n: Int) = Success + transmit(a, b, r, t | true). any(n);;
report sum(): Int = fold x = 0 with (s, v, r, t) in x + amount(r);;
";

/// An engine under the book of the shop, and the names of the book.
pub(crate) fn open_shop(alloc: Global) -> Result<Host, SessionFault>
    ensures { IfOk result (λ host. host.engine.calls ≡ []) }
{
    open(alloc, BOOK.as_bytes())
}

/// The name of a word. A word that is not in the book, such as "deal", has the first number that no word of the book
/// has.
pub(crate) fn named(names: &Names, word: &str) -> Name {
    match names.find(word) {
        Some(name) => name,
        None => Name { id: names.len() },
    }
}

/// Clerk 1 registers the deal: the template, for so many units.
pub(crate) fn register<R: Threads + Sync>(
    rt: &R,
    alloc: Global,
    shop: &mut Host,
    template: &str,
    units: u32,
) -> Result<Reply, TypeCause> {
    let deal = named(&shop.names, "deal");
    let template = named(&shop.names, template);
    let command = registration(alloc, deal, template, units)?;
    let command = checked(alloc, &shop.engine, command)?;
    let mut asks = Asks::new(());
    let reply = call(rt, alloc, &mut shop.engine, 1, &command, &mut asks)?;
    Ok(reply)
}

/// Ann gives Bob so many units of a kind.
pub(crate) fn delivery(names: &Names, kind: &str, units: u32) -> Result<Event, TypeCause>
    ensures { IfOk result IsWholeEvent }
{
    let Ok(day) = Day::from_text(b"2006-05-03") else {
        return Err(TypeCause::Memory);
    };
    let ann = named(names, "ann");
    let bob = named(names, "bob");
    Ok(handed(ann, bob, named(names, kind), units, day))
}

/// Clerk 2 reports such a delivery. The answer is whether the deal takes it.
pub(crate) fn report<R: Threads + Sync>(
    rt: &R,
    alloc: Global,
    shop: &mut Host,
    kind: &str,
    units: u32,
) -> Result<bool, TypeCause> {
    let event = delivery(&shop.names, kind, units)?;
    let deal = named(&shop.names, "deal");
    let mut asks = Asks::new(());
    deliver(rt, alloc, &mut shop.engine, 2, deal, event, &mut asks)
}

/// Clerk 3 asks how many units were sold.
pub(crate) fn count<R: Threads + Sync>(rt: &R, alloc: Global, shop: &mut Host) -> Option<i64> {
    let sold = named(&shop.names, "sold");
    let mut asks = Asks::new(());
    match tally(rt, alloc, &mut shop.engine, 3, sold, &mut asks) {
        Ok(Reply::Answered(Answer::Single(Some(Value::Int(units))))) => Some(units),
        _ => None,
    }
}

/// The clerk who made a call; calls count from 0.
pub(crate) fn clerk_of(shop: &Host, place: usize) -> Option<u32> {
    Some(shop.engine.history().get(place)?.0)
}
