// What stands under a key of a TOML table.

ghost use Rattle.std.specs.Prelude.{◌≡◌, ◌||◌, map, option_map, option_copied, is_some, bytes_eq, string_bytes};
ghost use Rattle.std.specs.List.{list_all, list_any};
ghost use Rattle.std.specs.Map.{keys_of};
ghost use Rattle.toml.specs.Data.{get, get_member};
ghost use Rattle.toml.specs.View.{view, array_view, table_view};
ghost use Rattle.manifest_form.specs.Document.{array_at, elements_at, integer_at, text_at, has_keys, members_have_keys};

use toml::Value;
use toml::value::{Array, Table};

/// The array under a key.
#[tactic(auto, unfolding(crate::specs::Document::array_at))]
pub fn array<'a>(value: &'a Value, key: &str) -> Option<&'a Array>
    ensures { option_map (λ array. array_view array.now) result ≡ array_at key.now (view value.now) }
{
    value.get(key)?.as_array()
}

/// The elements of the array under a key; none where there is no array.
pub fn elements<'a>(value: &'a Value, key: &str) -> &'a [Value]
    ensures { map view result.now ≡ elements_at key.now (view value.now) }
{
    match array(value, key) {
        Some(array) => array.as_slice(),
        None => &[],
    }
}

/// Whether something stands under a key.
pub fn has(value: &Value, key: &str) -> bool
    ensures { result ≡ is_some (get key.now (view value.now)) }
{
    value.get(key).is_some()
}

/// The whole number under a key.
#[tactic(auto, unfolding(crate::specs::Document::integer_at))]
pub fn integer(value: &Value, key: &str) -> Option<i64>
    ensures { result ≡ integer_at key.now (view value.now) }
{
    value.get(key)?.as_integer()
}

/// The text under a key.
#[tactic(auto, unfolding(crate::specs::Document::text_at))]
pub fn text<'a>(value: &'a Value, key: &str) -> Option<&'a str>
    ensures { option_copied result ≡ text_at key.now (view value.now) }
{
    value.get(key)?.as_str()
}

/// Whether a table has all required keys, and no other but those that may be. What is no table has no keys that could
/// be wrong.
#[tactic(auto, unfolding(crate::specs::Document::has_keys))]
pub fn has_keys(value: &Value, required: &[&str], optional: &[&str]) -> bool
    ensures { result ≡ has_keys (map (λ key. key.now) required.now) (map (λ key. key.now) optional.now) (view value.now) }
{
    match value {
        Value::Table(table) => table_has_keys(table, required, optional),
        _ => true,
    }
}

fn table_has_keys(table: &Table, required: &[&str], optional: &[&str]) -> bool
    ensures { result ≡ members_have_keys (map (λ key. key.now) required.now) (map (λ key. key.now) optional.now) (table_view table.now) }
{
    has_all(table, required) && has_no_other(table, required, optional)
}

fn has_all(table: &Table, keys: &[&str]) -> bool
    ensures { result ≡ list_all (λ key. is_some (get_member key.now (table_view table.now))) keys.now }
{
    keys.iter().all(|key| has_member(table, *key))
}

fn has_member(table: &Table, key: &str) -> bool
    ensures { result ≡ is_some (get_member key.now (table_view table.now)) }
{
    table.contains_key(key)
}

fn has_no_other(table: &Table, required: &[&str], optional: &[&str]) -> bool
    ensures { result ≡ list_all (λ key. list_any (λ other. bytes_eq other.now (string_bytes key)) required.now || list_any (λ other. bytes_eq other.now (string_bytes key)) optional.now) (keys_of table.now.entries) }
{
    table
        .keys()
        .all(|key| is_known(required, optional, key.as_str()))
}

fn is_known(required: &[&str], optional: &[&str], key: &str) -> bool
    ensures { result ≡ (list_any (λ other. bytes_eq other.now key.now) required.now || list_any (λ other. bytes_eq other.now key.now) optional.now) }
{
    is_among(required, key) || is_among(optional, key)
}

fn is_among(names: &[&str], name: &str) -> bool
    ensures { result ≡ list_any (λ other. bytes_eq other.now name.now) names.now }
{
    names.iter().any(|other| *other == name)
}
