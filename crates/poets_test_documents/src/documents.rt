//! Whether texts are documents, and come back as they were.

use poets_import::{ImportFault, import};
use poets_json::{Exported, export_text};
use poets_lex::Names;
use poets_value::Memory;
use std::alloc::Global;

/// A registration and an end.
pub(crate) const TWO: &str = concat!(
    r#"{"book":["agents ann, bob","kinds Oil, USD"],"format":"poets 1","history":["#,
    r#"{"clerk":1,"command":"register a = Success","reply":{"id":1,"kind":"registered"}},"#,
    r#"{"clerk":1,"command":"end a","reply":{"kind":"ended now"}}]}"#,
);

/// What a document is of, of fewer than a million bytes.
pub(crate) fn read(alloc: Global, text: &[u8], names: &mut Names) -> Result<Exported, ImportFault> {
    if text.len() >= 1_000_000 || names.len() >= 1_000_000 {
        return Err(ImportFault::Memory);
    }
    import(alloc, text, names)
}

/// The document of what a document is read as.
pub(crate) fn again(alloc: Global, text: &[u8]) -> Result<String, ImportFault> {
    let mut names = Names::new(alloc);
    let exported = read(alloc, text, &mut names)?;
    match export_text(alloc, &names, &exported) {
        Ok(text) => Ok(text),
        Err(_) => Err(ImportFault::Memory),
    }
}

/// Whether the document comes back as it was.
pub(crate) fn comes_back(alloc: Global, text: &str) -> bool {
    match again(alloc, text.as_bytes()) {
        Ok(back) => back.as_str() == text,
        Err(_) => false,
    }
}

/// Whether the text is the value of no document.
pub(crate) fn is_shape(alloc: Global, text: &str) -> bool {
    matches!(again(alloc, text.as_bytes()), Err(ImportFault::Shape))
}

/// Whether the bytes are no JSON.
pub(crate) fn is_no_json(alloc: Global, text: &[u8]) -> bool {
    matches!(again(alloc, text), Err(ImportFault::NoJson))
}

/// The document of one agent and one kind, and of one entry.
pub(crate) fn one_entry(
    alloc: Global,
    clerk: &str,
    command: &str,
    reply: &str,
) -> Result<String, Memory> {
    let front = r#"{"book":["agents ann","kinds Oil"],"format":"poets 1","history":[{"clerk":"#;
    Ok(format!(in alloc; "{front}{clerk},\"command\":\"{command}\",\"reply\":{reply}}}]}}")?)
}

#[test]
fn a_registration_and_an_end(rt: HostRuntime) -> Result<(), Memory> {
    let alloc = rt.alloc();
    let mut names = Names::new(alloc);
    let Ok(exported) = read(alloc, TWO.as_bytes(), &mut names) else {
        return Err(Memory);
    };
    assert_eq!(rt; exported.history.len(), 2);
    let text = export_text(alloc, &names, &exported)?;
    assert!(rt; text.as_str() == TWO, "{text}");
    Ok(())
}

#[test]
fn an_empty_document(rt: HostRuntime) {
    assert!(rt; comes_back(rt.alloc(), r#"{"book":[],"format":"poets 1","history":[]}"#));
}

// `TWO` with other blanks, another order of members, and escapes.
const OTHERWISE: &str = concat!(
    "\n{ \"history\" : [ {\"reply\":{\"kind\":\"registered\",\"id\":1},\"clerk\":1,",
    "\"command\":\"regist\\u0065r a = Success\"},\r\n",
    "{\"clerk\":1,\"reply\":{\"kind\":\"ended now\"},\"command\":\"end a\"} ],\t",
    "\"format\":\"poets 1\",\"b\\u006fok\":[\"\\u0061gents ann, bob\",\"kinds Oil, USD\"] } ",
);

#[test]
fn members_have_no_order_and_texts_may_have_escapes(rt: HostRuntime) {
    match again(rt.alloc(), OTHERWISE.as_bytes()) {
        Ok(back) => assert!(rt; back.as_str() == TWO, "{back}"),
        Err(fault) => assert!(rt; false, "{fault}"),
    }
}

#[test]
fn the_last_of_two_members_counts(rt: HostRuntime) {
    let text = r#"{"book":1,"format":"poets 1","history":[],"book":[]}"#;
    match again(rt.alloc(), text.as_bytes()) {
        Ok(back) => {
            assert!(rt;
                back.as_str() == r#"{"book":[],"format":"poets 1","history":[]}"#,
                "{back}"
            )
        }
        Err(fault) => assert!(rt; false, "{fault}"),
    }
}
