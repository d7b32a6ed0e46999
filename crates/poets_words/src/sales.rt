//! The number of a demonstration.
ghost use Rattle.std.specs.Prelude.{◌≡◌, ◌≢◌, ◌↔◌, ℕ, IfSome, IfNone, IsTrue, slice_index};
ghost use Rattle.std.specs.Fmt.{decimal};
ghost use Rattle.std.specs.Int.{IsInRange};
ghost use Rattle.poets_words.specs.Words.{IsMode};
ghost use Rattle.poets_words.specs.declared.mode.Mode.TheVariants as M;

use poets_value::MOST_SALES;

/// The number of sales that the text writes, from 1 to the most, without a sign or a leading zero.
pub(crate) fn sales_of(text: &str) -> Option<u32>
    ensures range { IfSome result (λ sales. IsMode (M.Demo sales)) }
    ensures written { IfSome result (λ sales. text.now ≡ decimal sales) }
    ensures none { IfNone result ((sales : ℕ) → IsMode (M.Demo sales) → text.now ≢ decimal sales) }
{
    match text.parse() {
        Ok(sales) if (1..=MOST_SALES).contains(&sales) && begins_with_nonzero_digit(text) => Some(
            sales,
        ),
        _ => None,
    }
}

// The text begins with a digit from 1 to 9.
fn begins_with_nonzero_digit(text: &str) -> bool
    ensures { IsTrue result ↔ IsInRange 49 57 (slice_index text.now 0) }
{
    matches!(text.as_bytes(), [b'1'..=b'9', ..])
}
