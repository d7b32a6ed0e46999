//! What the journals begin with.

/// The agents and the kinds of most tests.
pub(crate) const HEAD: &str = "agents ann, bob;; kinds Oil, USD;;\n";

/// Any events.
pub(crate) const ANY: &str = "template any() = Success + transmit(a, b, r, t | true). any();;\n";
