//! Texts that are no book.
use poets_host::open;
use poets_session::{SessionCause, SessionFault};

#[test]
fn a_text_that_is_no_book_is_not_opened(rt: HostRuntime) {
    let fault = open(rt.alloc(), b"agents ann, ann;;");
    assert!(rt;
        matches!(
            fault,
            Err(SessionFault {
                what: SessionCause::Types(_),
                ..
            })
        )
    );
}
