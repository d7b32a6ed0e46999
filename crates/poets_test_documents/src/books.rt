//! Books of documents.

use crate::documents::{comes_back, is_shape};
use poets_value::Memory;
use std::alloc::Global;

// A book with a template and a report.
const BOOK: &str = concat!(
    r#"{"book":["agents ann, bob","kinds Oil","#,
    r#""template sale(n: Int) = transmit(a, b, r, t | amount(r) = n). Success","#,
    r#""report paid(): Int = fold x = 0 with (a, b, r, t) in x + amount(r) by kind(r)"],"#,
    r#""format":"poets 1","history":[]}"#,
);

#[test]
fn books_with_templates_and_reports(rt: HostRuntime) {
    assert!(rt; comes_back(rt.alloc(), BOOK));
}

fn book_is_shape(alloc: Global, book: &str) -> Result<bool, Memory> {
    let text = format!(in alloc; "{{\"book\":{book},\"format\":\"poets 1\",\"history\":[]}}")?;
    Ok(is_shape(alloc, text.as_str()))
}

// Books that are printed otherwise, or are none.
const BOOKS: [&str; 17] = [
    r#""agents ann""#,
    r#"["agents  ann"]"#,
    r#"["agents ann, ann"]"#,
    r#"["agents ann","agents ann"]"#,
    r#"["agents ann","agents bob"]"#,
    r#"["kinds Oil","agents ann"]"#,
    r#"["agents ann","kinds ann"]"#,
    r#"["agents bob, ann","template f() = Success","agents eve"]"#,
    r#"["clerk"]"#,
    r#"["journal"]"#,
    r#"["read 1"]"#,
    r#"["agents ann;;"]"#,
    r#"["agents"]"#,
    r#"[1]"#,
    r#"[null]"#,
    r#"[""]"#,
    r#"{}"#,
];

#[test]
fn books_are_as_printed(rt: HostRuntime) -> Result<(), Memory> {
    for book in BOOKS {
        assert!(rt; book_is_shape(rt.alloc(), book)?, "{book}");
    }
    Ok(())
}
