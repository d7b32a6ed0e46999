//! Documents of histories that are built by hand.

use poets_command::{Command, Entry, Folio, Reply};
use poets_expr::Decls;
use poets_json::{Exported, export_text};
use poets_lex::{Names, tokens};
use poets_report::Answer;
use poets_syntax::{Book, Term};
use poets_value::Value::{Int, Kind};
use poets_value::{Day, List, Memory, Name, Ty, Value, push};
use std::alloc::Global;
use std::collections::BTreeMap;
use std::sync::Arc;

const A: Name = Name { id: 4 };

const OIL: Name = Name { id: 2 };

fn names(alloc: Global) -> Result<Names, Memory> {
    let mut names = Names::new(alloc);
    match tokens(alloc, b"ann bob Oil USD a", &mut names) {
        Ok(_) => Ok(names),
        Err(_) => Err(Memory),
    }
}

// A book with these names alone, and a history.
fn exported(
    alloc: Global,
    declared: &[(u32, Ty)],
    history: List<Entry>,
) -> Result<Exported, Memory> {
    let mut names = BTreeMap::new(alloc);
    for (id, ty) in declared {
        names.insert(Name { id: *id }, *ty)?;
    }
    Ok(Exported {
        book: Book {
            decls: Decls { names },
            templates: List::new(alloc),
        },
        reports: List::new(alloc),
        history,
    })
}

fn add(
    alloc: Global,
    history: &mut List<Entry>,
    command: Command,
    reply: Reply,
) -> Result<(), Memory> {
    let command = Arc::new(alloc, command)?;
    push(
        history,
        Entry {
            clerk: 1,
            command,
            reply,
        },
    )
}

const DECLARED: [(u32, Ty); 4] = [(0, Ty::Agent), (1, Ty::Agent), (2, Ty::Kind), (3, Ty::Kind)];

const TWO: &str = concat!(
    r#"{"book":["agents ann, bob","kinds Oil, USD"],"format":"poets 1","history":["#,
    r#"{"clerk":1,"command":"register a = Success","reply":{"id":1,"kind":"registered"}},"#,
    r#"{"clerk":1,"command":"end a","reply":{"kind":"ended now"}}]}"#,
);

#[test]
fn a_registration_and_an_end(rt: HostRuntime) -> Result<(), Memory> {
    let alloc = rt.alloc();
    let mut history = List::new(alloc);
    let term = Arc::new(alloc, Term::Success)?;
    let register = Command::Register { name: A, term };
    add(alloc, &mut history, register, Reply::Registered(1))?;
    add(
        alloc,
        &mut history,
        Command::End { name: A },
        Reply::EndedNow,
    )?;
    let exported = exported(alloc, &DECLARED, history)?;
    let text = export_text(alloc, &names(alloc)?, &exported)?;
    assert!(rt; text.as_str() == TWO, "{text}");
    Ok(())
}

// What a document says ahead of the reply of its only entry, and behind it.
const AHEAD: &str =
    r#"{"book":[],"format":"poets 1","history":[{"clerk":1,"command":"read 1","reply":"#;

const BEHIND: &str = "}]}";

fn is_between(text: &str, wanted: &str) -> bool {
    let Some(rest) = text.strip_prefix(AHEAD) else {
        return false;
    };
    rest.strip_suffix(BEHIND) == Some(wanted)
}

// Whether this is the reply in the document of a history that has one entry.
fn is_told(alloc: Global, reply: Reply, wanted: &str) -> Result<bool, Memory> {
    let mut history = List::new(alloc);
    add(alloc, &mut history, Command::Read { number: 1 }, reply)?;
    let exported = exported(alloc, &[], history)?;
    let text = export_text(alloc, &names(alloc)?, &exported)?;
    Ok(is_between(text.as_str(), wanted))
}

#[test]
fn replies_with_counts(rt: HostRuntime) -> Result<(), Memory> {
    let alloc = rt.alloc();
    let recorded = Reply::Recorded {
        count: 2,
        may_end: true,
    };
    let wanted = r#"{"count":2,"kind":"recorded","may_end":true}"#;
    assert!(rt; is_told(alloc, recorded, wanted)?);
    let voided = Reply::Voided {
        count: 0,
        may_end: false,
    };
    let wanted = r#"{"count":0,"kind":"voided","may_end":false}"#;
    assert!(rt; is_told(alloc, voided, wanted)?);
    let wanted = r#"{"kind":"no event","number":3}"#;
    assert!(rt; is_told(alloc, Reply::NoEvent(3), wanted)?);
    let shown = Reply::Shown {
        residual: Term::Failure,
        count: 1,
        may_end: false,
        ended: true,
    };
    let wanted = r#"{"count":1,"ended":true,"kind":"shown","may_end":false,"residual":"Failure"}"#;
    assert!(rt; is_told(alloc, shown, wanted)?);
    Ok(())
}

#[test]
fn replies_with_a_number(rt: HostRuntime) -> Result<(), Memory> {
    let alloc = rt.alloc();
    let wanted = r#"{"id":2,"kind":"name taken"}"#;
    assert!(rt; is_told(alloc, Reply::NameTaken(2), wanted)?);
    let wanted = r#"{"kind":"watching","number":1}"#;
    assert!(rt; is_told(alloc, Reply::Watching(1), wanted)?);
    let wanted = r#"{"kind":"no watch","number":18446744073709551615}"#;
    assert!(rt; is_told(alloc, Reply::NoWatch(18_446_744_073_709_551_615), wanted)?);
    Ok(())
}

#[test]
fn replies_of_a_word(rt: HostRuntime) -> Result<(), Memory> {
    let alloc = rt.alloc();
    assert!(rt; is_told(alloc, Reply::Hopeless, r#"{"kind":"hopeless"}"#)?);
    assert!(rt; is_told(alloc, Reply::Ended, r#"{"kind":"ended"}"#)?);
    assert!(rt; is_told(alloc, Reply::Unmatched, r#"{"kind":"unmatched"}"#)?);
    assert!(rt; is_told(alloc, Reply::AlreadyEnded, r#"{"kind":"already ended"}"#)?);
    assert!(rt; is_told(alloc, Reply::NotPerformed, r#"{"kind":"not performed"}"#)?);
    Ok(())
}

#[test]
fn replies_with_names_and_days(rt: HostRuntime) -> Result<(), Memory> {
    let alloc = rt.alloc();
    let wanted = r#"{"kind":"no contract","name":"a"}"#;
    assert!(rt; is_told(alloc, Reply::NoContract(A), wanted)?);
    let Some(day) = Day::from_number(0) else {
        return Err(Memory);
    };
    let wanted = r#"{"day":"1970-01-01","kind":"late"}"#;
    assert!(rt; is_told(alloc, Reply::Late(day), wanted)?);
    let wanted = r#"{"kind":"too large"}"#;
    assert!(rt; is_told(alloc, Reply::TooLarge, wanted)?);
    Ok(())
}

// Two rows: of `Oil`, and of what is undefined.
fn rows(alloc: Global) -> Result<Answer, Memory> {
    let mut rows = List::new(alloc);
    push(&mut rows, (Some(Kind(OIL)), Some(Int(-5))))?;
    push(&mut rows, (None, None))?;
    Ok(Answer::Rows(rows))
}

fn folio(alloc: Global, answer: Answer, total: Option<Option<Value>>) -> Result<Reply, Memory> {
    let mut rows = List::new(alloc);
    push(&mut rows, (A, answer))?;
    Ok(Reply::Folio(Folio { rows, total }))
}

#[test]
fn answers(rt: HostRuntime) -> Result<(), Memory> {
    let alloc = rt.alloc();
    let wanted = r#"{"answer":{"value":null},"kind":"answered"}"#;
    assert!(rt; is_told(alloc, Reply::Answered(Answer::Single(None)), wanted)?);
    let wanted = r#"{"answer":{"rows":[["Oil","-5"],[null,null]]},"kind":"answered"}"#;
    assert!(rt; is_told(alloc, Reply::Answered(rows(alloc)?), wanted)?);
    let wanted = r#"{"kind":"portfolio","rows":[["a",{"rows":[["Oil","-5"],[null,null]]}]]}"#;
    assert!(rt; is_told(alloc, folio(alloc, rows(alloc)?, None)?, wanted)?);
    let wanted = r#"{"kind":"portfolio","rows":[["a",{"value":"7"}]],"total":null}"#;
    let single = Answer::Single(Some(Int(7)));
    assert!(rt; is_told(alloc, folio(alloc, single, Some(None))?, wanted)?);
    Ok(())
}
