// What stands at the keys of an object.
ghost use Rattle.std.specs.Prelude.{◌≡◌, Some, None, MatchOption, map, option_map, option_and_then};
ghost use Rattle.serde_json.specs.Find.{get};
ghost use Rattle.serde_json.specs.View.{view, members_view};
ghost use Rattle.std.specs.List.{list_any, list_all};
ghost use Rattle.vfs_names.specs.Path.{same_text};
ghost use Rattle.item_meta.specs.Object.{value_at, number_in, text_in, truth_in, keys_of, has_only};

use serde_json::{Map, Value};

pub(crate) fn number_at(value: &Value, key: &str) -> Option<u64>
    ensures { result ≡ number_in (value_at key.now (Some (view value.now))) }
{
    value.get(key).and_then(Value::as_u64)
}

pub(crate) fn text_at<'v>(value: &'v Value, key: &str) -> Option<&'v str>
    ensures { option_map (λ text. text.now) result
        ≡ text_in (value_at key.now (Some (view value.now))) }
{
    match value.get(key) {
        Some(found) => found.as_str(),
        None => None,
    }
}

pub(crate) fn truth_at(value: &Value, key: &str) -> Option<bool>
    ensures { result ≡ truth_in (value_at key.now (Some (view value.now))) }
{
    value.get(key).and_then(Value::as_bool)
}

/// Whether no other keys than these stand in the object.
pub(crate) fn has_only(value: &Value, names: &[&str]) -> bool
    ensures { result ≡ has_only (map (λ name. name.now) names.now) (Some (view value.now)) }
{
    match value.as_object() {
        Some(members) => are_among(members, names),
        None => true,
    }
}

fn are_among(members: &Map<String, Value>, names: &[&str]) -> bool
    ensures { result ≡ list_all (λ key. list_any (same_text key) (map (λ name. name.now) names.now))
        (keys_of (members_view members.now.entries)) }
{
    for key in members.keys() {
        if !is_among(key.as_str(), names) {
            return false;
        }
    }
    true
}

fn is_among(key: &str, names: &[&str]) -> bool
    ensures { result ≡ list_any (same_text key.now) (map (λ name. name.now) names.now) }
{
    for name in names {
        if key == *name {
            return true;
        }
    }
    false
}
