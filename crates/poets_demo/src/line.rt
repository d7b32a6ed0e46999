//! The line that sums up the history of a demonstration.
ghost use Rattle.std.specs.Prelude.{◌≡◌, ◌<◌, ◌^◌, ◌+ℤ◌, ◌-ℤ◌, ◌≤ℤ◌, neg_ℤ, pos, IfOk, string_bytes};
ghost use Rattle.poets_command.specs.Calls.{history_of, reply_of};
ghost use Rattle.poets_demo.specs.Line.{amount_of, count_replies, is_ended, is_recorded, is_refused, is_registered, paid_in};
ghost use Rattle.poets_demo.specs.Line as spec;
ghost use Rattle.poets_demo.specs.code.Sums.{Grows};

use poets_command::{Entry, Folio, Reply};
use poets_value::{Memory, Value};
use std::alloc::Global;

// What the replies of a history come to.
struct Sums {
    registered: usize,
    recorded: usize,
    ended: usize,
    refused: usize,
    paid: i128,
}

impl Sums {
    // Takes in one reply more.
    fn add(&mut self, reply: &Reply)
        requires registered { self.old.registered < 2 ^ 63 }
        requires recorded { self.old.recorded < 2 ^ 63 }
        requires ended { self.old.ended < 2 ^ 63 }
        requires refused { self.old.refused < 2 ^ 63 }
        requires paid { (neg_ℤ (pos (2 ^ 126)) ≤ℤ self.old.paid) × (self.old.paid ≤ℤ pos (2 ^ 126)) }
        ensures registered { Grows is_registered reply.now self.old.registered self.new.registered }
        ensures recorded { Grows is_recorded reply.now self.old.recorded self.new.recorded }
        ensures ended { Grows is_ended reply.now self.old.ended self.new.ended }
        ensures refused { Grows is_refused reply.now self.old.refused self.new.refused }
        ensures paid { self.new.paid ≡ self.old.paid +ℤ paid_in (reply_of reply.now) }
        ensures least { (self.old.paid -ℤ pos (2 ^ 63)) ≤ℤ self.new.paid }
        ensures greatest { self.new.paid ≤ℤ (self.old.paid +ℤ pos (2 ^ 63)) }
    {
        match reply {
            Reply::Registered(_) => self.registered += 1,
            Reply::Recorded { .. } => self.recorded += 1,
            Reply::EndedNow => self.ended += 1,
            Reply::Unmatched => self.refused += 1,
            Reply::Folio(folio) => self.paid += amount(folio) as i128,
            _ => {}
        }
    }
}

// What a portfolio's total counts for.
fn amount(folio: &Folio) -> i64
    ensures value { result ≡ amount_of folio.now.total }
    ensures range { (neg_ℤ (pos (2 ^ 63)) ≤ℤ result) × (result ≤ℤ pos (2 ^ 63)) }
{
    match folio.total {
        Some(Some(Value::Int(number))) => number,
        _ => 0,
    }
}

// The sums of a history.
fn sums_of(entries: &[Entry]) -> Sums
    ensures registered { result.registered ≡ count_replies is_registered (history_of entries.now) }
    ensures recorded { result.recorded ≡ count_replies is_recorded (history_of entries.now) }
    ensures ended { result.ended ≡ count_replies is_ended (history_of entries.now) }
    ensures refused { result.refused ≡ count_replies is_refused (history_of entries.now) }
    ensures paid { result.paid ≡ spec.paid (history_of entries.now) }
{
    let mut sums = Sums {
        registered: 0,
        recorded: 0,
        ended: 0,
        refused: 0,
        paid: 0,
    };
    for entry in entries {
        sums.add(&entry.reply);
    }
    sums
}

/// The line that sums up the history of a demonstration with so many sales a clerk, with its line feed.
///
/// It says how many entries there are, how many contracts were registered, events recorded, contracts ended and events
/// refused, and how much was paid by the totals of the portfolios.
pub fn demo_line(alloc: Global, sales: u32, entries: &[Entry]) -> Result<String, Memory>
    ensures { IfOk result (λ line. string_bytes line ≡ spec.demo_line sales (history_of entries.now)) }
{
    let count = entries.len();
    let Sums {
        registered,
        recorded,
        ended,
        refused,
        paid,
    } = sums_of(entries);
    Ok(format!(in alloc;
        "demo {sales}: entries {count}, registered {registered}, \
        recorded {recorded}, ended {ended}, refused {refused}, paid {paid}\n"
    )?)
}
