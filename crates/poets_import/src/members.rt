//! Members of objects.
ghost use Rattle.std.specs.Prelude.{◌≡◌, option_map, option_and_then};
ghost use Rattle.serde_json.specs.Find.{as_array};
ghost use Rattle.serde_json.specs.View.{view};
ghost use Rattle.poets_import.specs.code.Members as members;

use serde_json::Value as Json;

/// The text that a member is.
pub(crate) fn text_at<'a>(value: &'a Json, key: &str) -> Option<&'a str>
    ensures { option_map (λ t. t.now) result ≡ members.text_at key.now (view value.now) }
{
    value.get(key)?.as_str()
}

/// The text that the first item of an array is.
pub(crate) fn first_text(value: &Json) -> Option<&str>
    ensures { option_map (λ t. t.now) result ≡ members.first_text (view value.now) }
{
    value.get(0)?.as_str()
}

/// The number that a member is.
pub(crate) fn number_at(value: &Json, key: &str) -> Option<u64>
    ensures { result ≡ members.number_at key.now (view value.now) }
{
    value.get(key)?.as_u64()
}

/// The truth value that a member is.
pub(crate) fn truth_at(value: &Json, key: &str) -> Option<bool>
    ensures { result ≡ members.truth_at key.now (view value.now) }
{
    value.get(key)?.as_bool()
}

/// The items of the array that a member is.
pub(crate) fn items_at<'a>(value: &'a Json, key: &str) -> Option<&'a [Json]>
    ensures { option_map (λ items. members.items_in items.now) result ≡ members.items_at key.now (view value.now) }
{
    let items = value.get(key)?.as_array()?;
    Some(items.as_slice())
}

/// The items of an array.
pub(crate) fn items_in(value: &Json) -> Option<&[Json]>
    ensures { option_map (λ items. members.items_in items.now) result ≡ as_array (view value.now) }
{
    let items = value.as_array()?;
    Some(items.as_slice())
}
