//! Tables of names before and after a document was read.

use crate::documents::{TWO, read};
use poets_import::ImportFault;
use poets_json::export_text;
use poets_lex::{Names, tokens};
use poets_value::Memory;
use std::alloc::Global;

// A table of names.
fn table(alloc: Global, text: &[u8]) -> Result<Names, Memory> {
    if text.len() >= 1_000_000 {
        return Err(Memory);
    }
    let mut names = Names::new(alloc);
    match tokens(alloc, text, &mut names) {
        Ok(_) => Ok(names),
        Err(_) => Err(Memory),
    }
}

#[test]
fn names_stand_behind_those_of_the_table(rt: HostRuntime) -> Result<(), Memory> {
    let alloc = rt.alloc();
    let mut names = table(alloc, b"x ann Oil")?;
    let Ok(exported) = read(alloc, TWO.as_bytes(), &mut names) else {
        return Err(Memory);
    };
    assert_eq!(rt; names.len(), 6);
    for (place, text) in ["x", "ann", "Oil", "bob", "USD", "a"].iter().enumerate() {
        assert_eq!(rt; names.find(*text).map(|name| name.id), Some(place as u32));
    }
    let text = export_text(alloc, &names, &exported)?;
    assert!(rt; text.as_str() == TWO, "{text}");
    Ok(())
}

// A book is written in the order of the numbers of its names.
#[test]
fn declared_names_stand_in_the_order_of_their_numbers(rt: HostRuntime) -> Result<(), Memory> {
    let alloc = rt.alloc();
    let mut names = table(alloc, b"bob")?;
    let found = read(alloc, TWO.as_bytes(), &mut names);
    assert!(rt; matches!(found, Err(ImportFault::Shape)));
    Ok(())
}

#[test]
fn a_refused_text_leaves_the_names_that_stood(rt: HostRuntime) -> Result<(), Memory> {
    let alloc = rt.alloc();
    let mut names = table(alloc, b"x y")?;
    let text = br#"{"book":["agents ann",1],"format":"poets 1","history":[]}"#;
    let found = read(alloc, text, &mut names);
    assert!(rt; matches!(found, Err(ImportFault::Shape)));
    assert_eq!(rt; names.find("x").map(|name| name.id), Some(0));
    assert_eq!(rt; names.find("y").map(|name| name.id), Some(1));
    Ok(())
}
