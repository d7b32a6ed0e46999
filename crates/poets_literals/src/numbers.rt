//! Numbers from their texts.
ghost use Rattle.std.specs.Prelude.{◌≡◌, ◌≢◌, ◌↔◌, ℤ, IsTrue, IfSome, IfNone};
ghost use Rattle.std.specs.Fmt.{signed_decimal};
ghost use Rattle.poets_literals.specs.Declared.{IsNumber};
ghost use Rattle.poets_literals.specs.code.Parts.{BeginsPlainly};

// Whether a number may begin so: no number is printed with `+`, or with a zero in front.
fn begins_plainly(text: &[u8]) -> bool
    ensures { IsTrue result ↔ BeginsPlainly text.now }
{
    matches!(text, [b'0'] | [b'1'..=b'9', ..] | [b'-', b'1'..=b'9', ..])
}

// The number with that text.
pub(crate) fn number(text: &str) -> Option<i64>
    ensures found { IfSome result (λ number. signed_decimal number ≡ text.now) }
    ensures none { IfNone result ((number : ℤ) → IsNumber number → signed_decimal number ≢ text.now) }
{
    if !begins_plainly(text.as_bytes()) {
        return None;
    }
    match text.parse::<i64>() {
        Ok(number) => Some(number),
        Err(_) => None,
    }
}
