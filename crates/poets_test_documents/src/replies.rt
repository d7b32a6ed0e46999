//! Replies of each kind, and values that are none.

use crate::documents::{comes_back, is_shape, one_entry};
use poets_value::Memory;
use std::alloc::Global;

fn reply_comes_back(alloc: Global, reply: &str) -> Result<bool, Memory> {
    let text = one_entry(alloc, "1", "read 1", reply)?;
    Ok(comes_back(alloc, text.as_str()))
}

fn reply_is_shape(alloc: Global, reply: &str) -> Result<bool, Memory> {
    let text = one_entry(alloc, "1", "read 1", reply)?;
    Ok(is_shape(alloc, text.as_str()))
}

// Replies of each kind.
const REPLIES: [&str; 24] = [
    r#"{"id":1,"kind":"registered"}"#,
    r#"{"id":18446744073709551615,"kind":"name taken"}"#,
    r#"{"kind":"hopeless"}"#,
    r#"{"kind":"too large"}"#,
    r#"{"count":2,"kind":"recorded","may_end":true}"#,
    r#"{"count":0,"kind":"voided","may_end":false}"#,
    r#"{"kind":"no event","number":3}"#,
    r#"{"kind":"no contract","name":"new_name"}"#,
    r#"{"kind":"ended"}"#,
    r#"{"day":"2006-05-03","kind":"late"}"#,
    r#"{"kind":"unmatched"}"#,
    r#"{"kind":"ended now"}"#,
    r#"{"kind":"already ended"}"#,
    r#"{"kind":"not performed"}"#,
    r#"{"count":1,"ended":true,"kind":"shown","may_end":false,"residual":"Failure"}"#,
    r#"{"answer":{"value":null},"kind":"answered"}"#,
    r#"{"answer":{"value":"-9223372036854775808"},"kind":"answered"}"#,
    r#"{"answer":{"value":"[-3 Oil]"},"kind":"answered"}"#,
    r#"{"answer":{"rows":[["Oil","5"],["ann","true"],[null,"@0001-01-01"]]},"kind":"answered"}"#,
    r#"{"kind":"portfolio","rows":[["a",{"value":"5"}],["b",{"rows":[]}]]}"#,
    r#"{"kind":"portfolio","rows":[],"total":null}"#,
    r#"{"kind":"portfolio","rows":[["a",{"value":"5"}]],"total":"5"}"#,
    r#"{"kind":"watching","number":1}"#,
    r#"{"kind":"no watch","number":2}"#,
];

#[test]
fn replies_come_back(rt: HostRuntime) -> Result<(), Memory> {
    for reply in REPLIES {
        assert!(rt; reply_comes_back(rt.alloc(), reply)?, "{reply}");
    }
    Ok(())
}

// Values that are no reply.
const OTHERS: [&str; 29] = [
    r#"{}"#,
    r#"null"#,
    r#"{"kind":"registered"}"#,
    r#"{"id":"1","kind":"registered"}"#,
    r#"{"id":-1,"kind":"registered"}"#,
    r#"{"id":1.0,"kind":"registered"}"#,
    r#"{"id":18446744073709551616,"kind":"registered"}"#,
    r#"{"id":1,"kind":"registered","more":null}"#,
    r#"{"kind":"Hopeless"}"#,
    r#"{"kind":"no contract","name":""}"#,
    r#"{"kind":"no contract","name":" a"}"#,
    r#"{"kind":"no contract","name":"end"}"#,
    r#"{"day":"2006-02-30","kind":"late"}"#,
    r#"{"day":"@2006-05-03","kind":"late"}"#,
    r#"{"count":1,"ended":1,"kind":"shown","may_end":false,"residual":"Failure"}"#,
    r#"{"count":1,"ended":true,"kind":"shown","may_end":false,"residual":"(Failure)"}"#,
    r#"{"count":1,"ended":true,"kind":"shown","may_end":false}"#,
    r#"{"answer":{"value":5},"kind":"answered"}"#,
    r#"{"answer":{"value":"eve"},"kind":"answered"}"#,
    r#"{"answer":{"value":"-0"},"kind":"answered"}"#,
    r#"{"answer":{"value":"5","rows":[]},"kind":"answered"}"#,
    r#"{"answer":{},"kind":"answered"}"#,
    r#"{"answer":{"rows":[["Oil"]]},"kind":"answered"}"#,
    r#"{"answer":{"rows":[["Oil","5","5"]]},"kind":"answered"}"#,
    r#"{"kind":"portfolio","rows":[["a"]]}"#,
    r#"{"kind":"portfolio","rows":[[1,{"value":"5"}]]}"#,
    r#"{"kind":"portfolio","total":null}"#,
    r#"{"kind":"hopeless","total":null}"#,
    r#"{"kind":"hopeless","residual":"Success"}"#,
];

#[test]
fn other_values_are_no_reply(rt: HostRuntime) -> Result<(), Memory> {
    for reply in OTHERS {
        assert!(rt; reply_is_shape(rt.alloc(), reply)?, "{reply}");
    }
    Ok(())
}

// The text of a residual with so many brackets open at one place.
fn residual(alloc: Global, open: usize) -> Result<String, Memory> {
    let mut text = String::new(alloc);
    for _ in 0..open {
        text.push_str("Success + (")?;
    }
    text.push_str("Success + Success")?;
    for _ in 0..open {
        text.push_str(")")?;
    }
    Ok(text)
}

// The reply that shows such a residual.
fn deep(alloc: Global, open: usize) -> Result<String, Memory> {
    let front = r#"{"count":1,"ended":false,"kind":"shown","may_end":false,"residual":""#;
    let residual = residual(alloc, open)?;
    Ok(format!(in alloc; "{front}{residual}\"}}")?)
}

#[test]
fn residuals_may_be_too_deep(rt: HostRuntime) -> Result<(), Memory> {
    let alloc = rt.alloc();
    let most = deep(alloc, 201)?;
    assert!(rt; reply_comes_back(alloc, most.as_str())?);
    let deeper = deep(alloc, 202)?;
    assert!(rt; reply_is_shape(alloc, deeper.as_str())?);
    Ok(())
}
