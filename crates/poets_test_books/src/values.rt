//! Values from texts that are worked by hand.

use poets_expr::Decls;
use poets_lex::{Names, tokens};
use poets_literals::{read_day, read_value};
use poets_value::{Day, Memory, Name, Resource, Ty, Value};
use std::alloc::Global;
use std::collections::BTreeMap;

fn ann() -> Name {
    Name { id: 0 }
}

fn oil_kind() -> Name {
    Name { id: 1 }
}

// A name that is an agent without a text, as its number lies past the table.
fn unknown() -> Name {
    Name { id: 4 }
}

// `ann` is an agent and `Oil` a kind, and `bob` and `n` are not declared.
fn session(alloc: Global) -> Result<(Names, Decls), Memory> {
    let mut names = Names::new(alloc);
    let Ok(_) = tokens(alloc, b"ann Oil bob n", &mut names) else {
        return Err(Memory);
    };
    let mut declared = BTreeMap::new(alloc);
    declared.insert(ann(), Ty::Agent)?;
    declared.insert(oil_kind(), Ty::Kind)?;
    declared.insert(unknown(), Ty::Agent)?;
    Ok((names, Decls { names: declared }))
}

fn has_none(names: &Names, decls: &Decls, texts: &[&str]) -> bool {
    texts
        .iter()
        .all(|text| read_value(names, decls, *text).is_none())
}

fn oil(amount: i64) -> Option<Value> {
    Some(Value::Resource(Resource {
        kind: oil_kind(),
        amount,
    }))
}

// The day's number, where the text has a day.
fn number_of(text: &str) -> Option<i64> {
    let day = read_day(text)?;
    Some(day.number())
}

#[test]
fn numbers_are_read_as_they_print(rt: HostRuntime) -> Result<(), Memory> {
    let (names, decls) = session(rt.alloc())?;
    assert_eq!(rt; read_value(&names, &decls, "0"), Some(Value::Int(0)));
    assert_eq!(rt; read_value(&names, &decls, "5"), Some(Value::Int(5)));
    assert_eq!(rt; read_value(&names, &decls, "-1"), Some(Value::Int(-1)));
    assert_eq!(rt; read_value(&names, &decls, "100"), Some(Value::Int(100)));
    assert_eq!(rt;
        read_value(&names, &decls, "9223372036854775807"),
        Some(Value::Int(i64::MAX))
    );
    assert_eq!(rt;
        read_value(&names, &decls, "-9223372036854775807"),
        Some(Value::Int(i64::MIN + 1))
    );
    assert_eq!(rt;
        read_value(&names, &decls, "-9223372036854775808"),
        Some(Value::Int(i64::MIN))
    );
    Ok(())
}

#[test]
fn other_writings_of_numbers_are_no_values(rt: HostRuntime) -> Result<(), Memory> {
    let (names, decls) = session(rt.alloc())?;
    assert!(rt;
        has_none(
            &names,
            &decls,
            &[
                "", "-", "+", "-0", "+0", "+5", "00", "007", "-07", "--5", "-+5"
            ]
        )
    );
    assert!(rt;
        has_none(
            &names,
            &decls,
            &[" 5", "5 ", "5.0", "5e1", "0x5", "1_000", "five"]
        )
    );
    assert!(rt;
        has_none(
            &names,
            &decls,
            &["9223372036854775808", "-9223372036854775809"]
        )
    );
    Ok(())
}

#[test]
fn truth_values_are_two_words(rt: HostRuntime) -> Result<(), Memory> {
    let (names, decls) = session(rt.alloc())?;
    assert_eq!(rt; read_value(&names, &decls, "true"), Some(Value::Bool(true)));
    assert_eq!(rt;
        read_value(&names, &decls, "false"),
        Some(Value::Bool(false))
    );
    assert!(rt;
        has_none(
            &names,
            &decls,
            &["True", "FALSE", "true ", "tru", "undefined"]
        )
    );
    Ok(())
}

#[test]
fn names_are_values_where_they_are_declared(rt: HostRuntime) -> Result<(), Memory> {
    let (names, decls) = session(rt.alloc())?;
    assert_eq!(rt;
        read_value(&names, &decls, "ann"),
        Some(Value::Agent(ann()))
    );
    assert_eq!(rt;
        read_value(&names, &decls, "Oil"),
        Some(Value::Kind(oil_kind()))
    );
    assert!(rt; has_none(&names, &decls, &["bob", "n", "eve", "Ann", "ann ", "oil"]));
    Ok(())
}

#[test]
fn resources_are_of_declared_kinds(rt: HostRuntime) -> Result<(), Memory> {
    let (names, decls) = session(rt.alloc())?;
    assert_eq!(rt; read_value(&names, &decls, "[5 Oil]"), oil(5));
    assert_eq!(rt; read_value(&names, &decls, "[-5 Oil]"), oil(-5));
    assert_eq!(rt; read_value(&names, &decls, "[0 Oil]"), oil(0));
    assert_eq!(rt;
        read_value(&names, &decls, "[-9223372036854775808 Oil]"),
        oil(i64::MIN)
    );
    assert!(rt;
        has_none(
            &names,
            &decls,
            &[
                "[5 ann]", "[5 bob]", "[5 eve]", "[5 ]", "[ Oil]", "[Oil]", "[5]", "[]"
            ]
        )
    );
    assert!(rt;
        has_none(
            &names,
            &decls,
            &[
                "[5  Oil]", "[5 Oil ]", "[ 5 Oil]", "[5Oil]", "[5\tOil]", "[-0 Oil]", "[+5 Oil]"
            ]
        )
    );
    assert!(rt;
        has_none(
            &names,
            &decls,
            &[
                "[5 Oil", "5 Oil]", "5 Oil", "[5 Oil]]", "[[5 Oil]", "[", "]", "[05 Oil]"
            ]
        )
    );
    Ok(())
}

#[test]
fn days_are_those_of_the_calendar(rt: HostRuntime) {
    assert_eq!(rt; number_of("0001-01-01"), Some(-719_162));
    assert_eq!(rt; number_of("9999-12-31"), Some(2_932_896));
    assert_eq!(rt; number_of("1970-01-01"), Some(0));
    assert_eq!(rt; number_of("2004-02-29"), Some(12_477));
    assert_eq!(rt; number_of("0000-12-31"), None);
    assert_eq!(rt; number_of("2006-02-29"), None);
    assert_eq!(rt; number_of("2006-13-01"), None);
    assert_eq!(rt; number_of("2006-00-01"), None);
    assert_eq!(rt; number_of("2006-5-3"), None);
    assert_eq!(rt; number_of("@2006-05-03"), None);
    assert_eq!(rt; number_of(" 2006-05-03"), None);
    assert_eq!(rt; number_of("2006-05-03 "), None);
    assert_eq!(rt; number_of("2006/05/03"), None);
    assert_eq!(rt; number_of(""), None);
}

#[test]
fn values_that_are_days_have_their_sign(rt: HostRuntime) -> Result<(), Memory> {
    let (names, decls) = session(rt.alloc())?;
    assert_eq!(rt; read_value(&names, &decls, "@1970-01-01"), day(0));
    assert_eq!(rt; read_value(&names, &decls, "@0001-01-01"), day(-719_162));
    assert_eq!(rt; read_value(&names, &decls, "@9999-12-31"), day(2_932_896));
    assert_eq!(rt; read_value(&names, &decls, "@2004-02-29"), day(12_477));
    assert!(rt;
        has_none(
            &names,
            &decls,
            &[
                "2006-05-03",
                "@2006-02-29",
                "@2006-5-3",
                "@",
                "@@2006-05-03"
            ]
        )
    );
    Ok(())
}

fn day(number: i64) -> Option<Value> {
    let day = Day::from_number(number)?;
    Some(Value::Day(day))
}
