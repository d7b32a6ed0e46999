//! Values from outside, and each call once with memory.

use poets_value::{Day, DayFault, List, Name, Resource, Value};
use std::test::Fail;

const DAYS: [(&str, i64); 9] = [
    ("0001-01-01", -719_162),
    ("1600-02-29", -135_081),
    ("1900-03-01", -25_508),
    ("1969-12-31", -1),
    ("1970-01-01", 0),
    ("2000-02-29", 11_016),
    ("2006-05-03", 13_271),
    ("2100-03-01", 47_541),
    ("9999-12-31", 2_932_896),
];

// Whether the text and the number are those of one day.
fn are_one_day(text: &str, number: i64) -> bool {
    match Day::from_number(number) {
        Some(day) => {
            day.number() == number
                && day.text().as_slice() == text.as_bytes()
                && Day::from_text(text.as_bytes()) == Ok(day)
        }
        None => false,
    }
}

const NO_DAYS: [&str; 20] = [
    "",
    "0000-01-01",
    "0000-12-31",
    "1900-02-29",
    "2006-02-29",
    "2006-04-31",
    "2006-00-10",
    "2006-13-01",
    "2006-01-00",
    "2006-1-01",
    "2006-01-1",
    "2006/01/01",
    "20060101",
    "06-01-01",
    "-006-01-01",
    "+006-01-01",
    " 2006-05-03",
    "2006-05-03x",
    "10000-01-01",
    "2006-05-0a",
];

#[test]
fn days_are_those_of_the_calendar(rt: HostRuntime) {
    for (text, number) in &DAYS {
        assert!(rt; are_one_day(text, *number), "{text} and {number}");
    }
    for text in &NO_DAYS {
        assert!(rt;
            Day::from_text(text.as_bytes()) == Err(DayFault),
            "at {text}"
        );
    }
    for number in [-719_163, 2_932_897] {
        assert!(rt; Day::from_number(number).is_none());
    }
}

// A day, a number of days, the day after them, if there is one, and whether that is later.
const DISTANCES: [(&str, i64, &str, bool); 8] = [
    ("0001-01-01", -1, "none", false),
    ("9999-12-31", 1, "none", false),
    ("0001-01-01", 3_652_058, "9999-12-31", true),
    ("9999-12-31", -3_652_058, "0001-01-01", false),
    ("0001-01-01", i64::MIN, "none", false),
    ("9999-12-31", i64::MAX, "none", false),
    ("2004-02-28", 1, "2004-02-29", true),
    ("2004-02-28", 2, "2004-03-01", true),
];

#[test]
fn days_end_at_both_bounds(rt: HostRuntime) -> Result<(), Fail> {
    for (from, days, wanted, is_later) in &DISTANCES {
        let day = Day::from_text(from.as_bytes())?;
        let found = day.plus_days(*days);
        let later = matches!(found, Some(after) if day < after);
        let wanted = Day::from_text(wanted.as_bytes()).ok();
        assert!(rt;
            found == wanted && later == *is_later,
            "{days} days after {from}"
        );
    }
    Ok(())
}

// A change of a list: an item at the end, one at a place, another one at a place, or the last taken.
#[derive(Clone, Copy)]
enum Change {
    Push(u32),
    Insert(usize, u32),
    Put(usize, u32),
    Pop(u32),
}

// Whether the change was made.
fn is_made(list: &mut List<u32>, change: Change) -> bool {
    match change {
        Change::Push(item) => list.push(item).is_ok(),
        Change::Insert(place, item) if place <= list.len() => list.insert(place, item).is_ok(),
        Change::Put(place, item) if place < list.len() => {
            list.put(place, item);
            true
        }
        Change::Pop(item) => list.pop() == Some(item),
        _ => false,
    }
}

// Changes one after the other, and the items after each.
const CHANGES: [(Change, &[u32]); 7] = [
    (Change::Push(5), &[5]),
    (Change::Push(7), &[5, 7]),
    (Change::Insert(0, 3), &[3, 5, 7]),
    (Change::Insert(3, 9), &[3, 5, 7, 9]),
    (Change::Insert(1, 4), &[3, 4, 5, 7, 9]),
    (Change::Put(2, 6), &[3, 4, 6, 7, 9]),
    (Change::Pop(9), &[3, 4, 6, 7]),
];

// Whether these are the items of the list, of which there are some.
fn holds(list: &List<u32>, items: &[u32]) -> bool {
    let last = items.len().saturating_sub(1);
    list.as_slice() == items
        && list.len() == items.len()
        && list.get(last) == items.last()
        && list.get(items.len()).is_none()
        && !list.is_empty()
}

#[test]
fn a_list_keeps_its_items_in_order(rt: HostRuntime) {
    let mut list = List::new(rt.alloc());
    assert!(rt; list.is_empty() && list.pop().is_none() && list.get(0).is_none());
    for (made, wanted) in &CHANGES {
        assert!(rt; is_made(&mut list, *made));
        assert!(rt; holds(&list, wanted));
    }
}

#[test]
fn a_list_with_room_takes_items(rt: HostRuntime) {
    let mut list = List::new(rt.alloc());
    assert!(rt; list.reserve(1000).is_ok());
    for i in 0..1000u32 {
        assert!(rt; list.push(i).is_ok());
    }
    assert!(rt; list.len() == 1000 && list.get(999) == Some(&999));
    assert!(rt; list.reserve(usize::MAX).is_err());
    assert!(rt; list.len() == 1000);
}

#[test]
fn lists_of_the_same_items_are_equal(rt: HostRuntime) {
    let mut list = List::new(rt.alloc());
    let mut roomy = List::new(rt.alloc());
    assert!(rt; roomy.reserve(1000).is_ok());
    assert_eq!(rt; list, roomy);
    for (made, _) in &CHANGES {
        assert!(rt; is_made(&mut list, *made));
        assert!(rt; list != roomy);
        assert!(rt; is_made(&mut roomy, *made));
        assert_eq!(rt; list, roomy);
    }
}

fn resource(kind: u32, amount: i64) -> Value {
    Value::Resource(Resource {
        kind: Name { id: kind },
        amount,
    })
}

#[test]
fn values_stand_in_the_order_of_the_language(rt: HostRuntime) -> Result<(), Fail> {
    let rising = [
        Value::Int(-9_223_372_036_854_775_807),
        Value::Int(-5),
        Value::Int(0),
        Value::Int(7),
        Value::Bool(false),
        Value::Bool(true),
        Value::Agent(Name { id: 0 }),
        Value::Agent(Name { id: 3 }),
        Value::Kind(Name { id: 0 }),
        Value::Kind(Name { id: 1 }),
        resource(0, 9),
        resource(1, -2),
        resource(1, 4),
        Value::Day(Day::from_text(b"0001-01-01")?),
        Value::Day(Day::from_text(b"1969-12-31")?),
        Value::Day(Day::from_text(b"9999-12-31")?),
    ];
    for (i, first) in rising.iter().enumerate() {
        for (j, second) in rising.iter().enumerate() {
            assert_eq!(rt; first.cmp(second), i.cmp(&j), "places {i} and {j}");
            assert_eq!(rt; first == second, i == j, "places {i} and {j}");
        }
    }
    Ok(())
}
