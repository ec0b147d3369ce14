//! The parts of a JSON value, taken out of it without a copy.
ghost use Rattle.std.specs.Prelude.{◌≡◌, ◌&&◌, option_map, bytes_eq, string_bytes};
ghost use Rattle.serde_json.specs.Find.{as_str, as_array};
ghost use Rattle.serde_json.specs.View.{view, items_view};
ghost use Rattle.transcript.specs.Members.{two_members};

use serde_json::Value;

/// The values of an object with exactly these two members. The first name comes before the second in the order of
/// bytes.
pub(crate) fn two_members(value: Value, first: &str, second: &str) -> Option<(Value, Value)>
    ensures values { option_map (λ p. (view p.0, view p.1)) result
        ≡ two_members first.now second.now (view value) }
{
    let Value::Object(mut members) = value else {
        return None;
    };
    let (first_name, first_value) = members.pop_first()?;
    let (second_name, second_value) = members.pop_first()?;
    if !members.is_empty() {
        return None;
    }
    if are_named(&first_name, first, &second_name, second) {
        Some((first_value, second_value))
    } else {
        None
    }
}

/// Whether the two names are these.
fn are_named(first_name: &String, first: &str, second_name: &String, second: &str) -> bool
    ensures { result
        ≡ (bytes_eq (string_bytes first_name.now) first.now
        && bytes_eq (string_bytes second_name.now) second.now) }
{
    first_name.as_str() == first && second_name.as_str() == second
}

/// The bytes of a string.
pub(crate) fn text_in(value: Value) -> Option<Vec<u8>>
    ensures bytes { option_map (λ v. v.items) result ≡ as_str (view value) }
{
    let Value::String(text) = value else {
        return None;
    };
    Some(text.into_bytes())
}

/// The items of an array.
pub(crate) fn items_in(value: Value) -> Option<Vec<Value>>
    ensures items { option_map (λ v. items_view v.items) result ≡ as_array (view value) }
{
    let Value::Array(items) = value else {
        return None;
    };
    Some(items)
}
