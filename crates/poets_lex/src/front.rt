//! The longest prefix of a text whose bytes are of one kind.
ghost use Rattle.std.specs.Prelude.{◌≡◌, ◌≤◌, ◌<◌, ◌^◌, ◌↔◌, length, pos, IfSome, IfNone, IsTrue};
ghost use Rattle.std.specs.List.{prefix_len, list_all};
ghost use Rattle.std.specs.Char.{is_ascii_digit};
ghost use Rattle.poets_lex.specs.Bytes.{is_blank, is_in_line, begins_name, is_in_name, decimal};
ghost use Rattle.poets_lex.specs.Table.{HasNameShape};

// A space, tab, LF or CR.
pub(crate) fn is_blank(byte: u8) -> bool
    ensures { result ≡ is_blank byte }
{
    matches!(byte, b' ' | b'\t' | b'\n' | b'\r')
}

// A letter or `_`.
pub(crate) fn begins_name(byte: u8) -> bool
    ensures { result ≡ begins_name byte }
{
    byte.is_ascii_alphabetic() || byte == b'_'
}

// A letter, digit or `_`.
fn is_in_name(byte: u8) -> bool
    ensures { result ≡ is_in_name byte }
{
    byte.is_ascii_alphanumeric() || byte == b'_'
}

// A letter or `_`, then letters, digits and `_`.
pub(crate) fn has_name_shape(text: &[u8]) -> bool
    ensures { IsTrue result ↔ HasNameShape text.now }
{
    match text {
        [first, rest @ ..] => begins_name(*first) && rest.iter().all(|byte| is_in_name(*byte)),
        [] => false,
    }
}

// The length of the line, up to its LF.
pub(crate) fn line_length(text: &[u8]) -> usize
    ensures { result ≡ prefix_len is_in_line text.now }
{
    text.iter().take_while(|byte| **byte != b'\n').count()
}

// The number of letters, digits and `_` that begin the text.
pub(crate) fn name_length(text: &[u8]) -> usize
    ensures { result ≡ prefix_len is_in_name text.now }
{
    text.iter().take_while(|byte| is_in_name(**byte)).count()
}

// The number of digits that begin the text.
pub(crate) fn digit_count(text: &[u8]) -> usize
    ensures { result ≡ prefix_len is_ascii_digit text.now }
{
    text.iter().take_while(|byte| byte.is_ascii_digit()).count()
}

// The number that the digits write, if it is at most 9223372036854775807.
pub(crate) fn decimal(digits: &[u8]) -> Option<i64>
    requires { IsTrue (list_all is_ascii_digit digits.now) }
    ensures value { IfSome result (λ number. number ≡ pos (decimal digits.now)) }
    ensures small { IfSome result (λ number. decimal digits.now < 2 ^ 63) }
    ensures large { IfNone result (2 ^ 63 ≤ decimal digits.now) }
{
    let mut number: i64 = 0;
    for digit in digits {
        number = number.checked_mul(10)?.checked_add((*digit - b'0') as i64)?;
    }
    Some(number)
}
