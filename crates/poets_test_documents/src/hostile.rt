//! A document in which each byte is replaced.
ghost use Rattle.std.specs.Prelude.{◌<◌, length};

use crate::documents::again;
use poets_import::ImportFault;
use poets_value::Memory;
use serde_json::Value as Json;
use std::alloc::Global;

// A contract that is shown, and a portfolio.
const SHOWN: &str = concat!(
    r#"{"book":["agents ann","kinds Oil"],"format":"poets 1","history":[{"clerk":1,"command":"show c","#,
    r#""reply":{"count":10,"ended":false,"kind":"shown","may_end":true,"residual":"f(1) + Success"}},"#,
    r#"{"clerk":20,"command":"portfolio q() over c","reply":{"kind":"portfolio","#,
    r#""rows":[["c",{"rows":[["Oil","-5"],[null,"@2006-05-03"]]}]],"total":null}}]}"#,
);

// The text with another byte at the place.
fn with(alloc: Global, text: &[u8], place: usize, byte: u8) -> Result<Vec<u8>, Memory>
    requires { place < length text.now }
{
    let mut bytes = Vec::new(alloc);
    bytes.extend_from_slice(&text[..place])?;
    bytes.push(byte)?;
    bytes.extend_from_slice(&text[place + 1..])?;
    Ok(bytes)
}

// The compact text of the value that the bytes are, if they are one.
fn compact(alloc: Global, bytes: &[u8]) -> Option<String> {
    let value = Json::from_slice(alloc, bytes).ok()?;
    value.to_string(alloc).ok()
}

// Whether the bytes are no JSON; nothing where they are not answered as they have to be. A document is that of a value,
// and the one that is written again has the same.
fn is_no_json(alloc: Global, bytes: &[u8]) -> Option<bool> {
    let value = compact(alloc, bytes);
    match again(alloc, bytes) {
        Err(ImportFault::NoJson) => { if value.is_none() { Some(true) } else { None } }
        Err(ImportFault::Shape) => { if value.is_some() { Some(false) } else { None } }
        Ok(back) => {
            let value = value?;
            if back.as_str() == value.as_str() {
                Some(false)
            } else {
                None
            }
        }
        Err(_) => None,
    }
}

// How many of the texts with this byte at some place are no JSON; nothing where one is not answered as it has to be.
fn broken_with(alloc: Global, text: &[u8], byte: u8) -> Result<Option<u32>, Memory> {
    let mut count: u32 = 0;
    for place in 0..text.len() {
        let bytes = with(alloc, text, place, byte)?;
        match is_no_json(alloc, bytes.as_slice()) {
            Some(is) => count = count.saturating_add(u32::from(is)),
            None => return Ok(None),
        }
    }
    Ok(Some(count))
}

// Bytes, and how many of the texts with that byte at some place are no JSON.
const BROKEN: [(u8, u32); 9] = [
    (b'"', 278),
    (b'{', 138),
    (b']', 137),
    (b'0', 141),
    (b'-', 142),
    (b'\\', 309),
    (b'a', 143),
    (b' ', 140),
    (0xff, 338),
];

#[test]
fn each_byte_may_be_another(rt: HostRuntime) -> Result<(), Memory> {
    for (byte, count) in BROKEN {
        let broken = broken_with(rt.alloc(), SHOWN.as_bytes(), byte)?;
        assert_eq!(rt; broken, Some(count), "{byte}");
    }
    Ok(())
}
