//! What reports answer, worked out by hand.

use poets_command::Statement;
use poets_expr::{Asks, Decls};
use poets_lex::{Names, tokens};
use poets_parse::statement;
use poets_report::{Answer, Report, value_of};
use poets_value::Value::Int;
use poets_value::{Day, Event, List, Memory, Name, Resource, Value, push};
use std::alloc::Global;
use std::collections::BTreeMap;

const GREATEST: i64 = 9_223_372_036_854_775_807;

const SUM: &str = "report sum(): Int = fold x = 0 with (s, v, r, t) in x + amount(r)";

// The sum of the amounts by a quotient, which is undefined where the amount is 0.
const SIXTHS: &str =
    "report sixths(): Int = fold x = 0 with (s, v, r, t) in x + amount(r) by 6 / amount(r)";

// The report that the sentence declares, which has no parameters.
#[tactic(auto, using(poets_grammar::proofs::Lexed::read_natural))]
fn report_of(alloc: Global, text: &str) -> Result<Report, Memory> {
    let mut names = Names::new(alloc);
    if text.len() > 1 << 16 {
        return Err(Memory);
    }
    let Ok(tokens) = tokens(alloc, text.as_bytes(), &mut names) else {
        return Err(Memory);
    };
    match statement(alloc, tokens.as_slice()) {
        Ok(Statement::Report(report)) => Ok(report),
        _ => Err(Memory),
    }
}

// An event of that amount, on 1970-01-01.
fn event(amount: i64) -> Option<Event> {
    Some(Event {
        sender: Name { id: 0 },
        receiver: Name { id: 1 },
        what: Resource {
            kind: Name { id: 2 },
            amount,
        },
        day: Day::from_number(0)?,
    })
}

// The answer of the report over events of these amounts.
fn answer(alloc: Global, text: &str, amounts: &[i64]) -> Result<Answer, Memory> {
    let report = report_of(alloc, text)?;
    if !report.params.is_empty() {
        return Err(Memory);
    }
    let mut events = List::new(alloc);
    for amount in amounts {
        push(&mut events, event(*amount).ok_or(Memory)?)?;
    }
    let decls = Decls {
        names: BTreeMap::new(alloc),
    };
    let args = List::new(alloc);
    value_of(
        alloc,
        &decls,
        &report,
        &args,
        events.as_slice(),
        &mut Asks::new(()),
    )
}

// A report without a key, the amounts of events, and the value.
const VALUES: [(&str, &[i64], Option<i64>); 3] = [
    (SUM, &[], Some(0)),
    (SUM, &[5, 2], Some(7)),
    // The sum would be past the limit.
    (SUM, &[GREATEST, 1], None),
];

// A report with a key, the amounts of events, and the key and the value of each row.
const ROWS: [(&str, &[i64], &[(Option<i64>, Option<i64>)]); 2] = [
    (SIXTHS, &[], &[]),
    // 6 / 2 is 3, 6 / 0 is undefined, and 6 / 3 is 2.
    (
        SIXTHS,
        &[2, 0, 3, 2],
        &[(Some(2), Some(3)), (Some(3), Some(4)), (None, Some(0))],
    ),
];

// The answer that has these rows.
fn rows_of(alloc: Global, pairs: &[(Option<i64>, Option<i64>)]) -> Result<Answer, Memory> {
    let mut rows = List::new(alloc);
    for (key, value) in pairs {
        push(&mut rows, (key.map(Int), value.map(Int)))?;
    }
    Ok(Answer::Rows(rows))
}

#[test]
fn all_events_or_those_of_each_key_are_folded(rt: HostRuntime) -> Result<(), Memory> {
    for (text, amounts, wanted) in &VALUES {
        let wanted = Answer::Single(wanted.map(Int));
        assert_eq!(rt; answer(rt.alloc(), text, amounts)?, wanted, "{amounts:?}");
    }
    for (text, amounts, wanted) in &ROWS {
        let wanted = rows_of(rt.alloc(), wanted)?;
        assert_eq!(rt; answer(rt.alloc(), text, amounts)?, wanted, "{amounts:?}");
    }
    Ok(())
}
