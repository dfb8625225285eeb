//! The members of an object, by name and kind.

ghost use Rattle.std.specs.Prelude.{◌≡◌, map, option_map, string_bytes};
ghost use Rattle.std.specs.BTreeMap.{keys};
ghost use Rattle.std.specs.List.{list_all, list_any};
ghost use Rattle.std.specs.Str.{bytes_eq};
ghost use Rattle.serde_json.specs.View.{view, items_view, members_view};
ghost use Rattle.json_text.specs.Member as spec;

use serde_json::{Map, Value};

/// The members of an object that has no name but those listed.
pub fn members_among<'v>(value: &'v Value, names: &[&str]) -> Option<&'v Map<String, Value>>
    ensures { option_map (λ m. members_view m.now.entries) result
        ≡ spec.members_among (map (λ name. name.now) names.now) (view value.now) }
{
    let members = value.as_object()?;
    if has_only(members, names) {
        Some(members)
    } else {
        None
    }
}

/// Whether every name of the object is listed.
fn has_only(members: &Map<String, Value>, names: &[&str]) -> bool
    ensures { result ≡ list_all
        (λ key. list_any (λ listed. bytes_eq listed.now (string_bytes key)) names.now)
        (keys members.now) }
{
    members.keys().all(|name| names.contains(&name.as_str()))
}

/// The member of that name, if it is a text.
pub fn text_at<'v>(value: &'v Value, name: &str) -> Option<&'v str>
    ensures { option_map (λ text. text.now) result ≡ spec.text_at name.now (view value.now) }
{
    value.get(name)?.as_str()
}

/// The member of that name, if it is an array.
pub fn items_at<'v>(value: &'v Value, name: &str) -> Option<&'v Vec<Value>>
    ensures { option_map (λ list. items_view list.now.items) result
        ≡ spec.items_at name.now (view value.now) }
{
    value.get(name)?.as_array()
}

/// The value, if it is a whole number from 0 to 2^64 - 1, written without sign, fraction or
/// exponent.
pub fn unsigned_of(value: &Value) -> Option<u64>
    ensures { result ≡ spec.unsigned_of (view value.now) }
{
    value.as_u64()
}

/// The member of that name, if it is such a number.
pub fn unsigned_at(value: &Value, name: &str) -> Option<u64>
    ensures { result ≡ spec.unsigned_at name.now (view value.now) }
{
    value.get(name)?.as_u64()
}

/// The member of that name, if it is a whole number from -2^63 to 2^63 - 1, written without
/// fraction or exponent.
pub fn signed_at(value: &Value, name: &str) -> Option<i64>
    ensures { result ≡ spec.signed_at name.now (view value.now) }
{
    value.get(name)?.as_i64()
}
