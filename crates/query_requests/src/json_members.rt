//! Members of JSON objects, each of one kind.
ghost use Rattle.std.specs.Prelude.{◌≡◌};
ghost use Rattle.serde_json.specs.Find.{get};
ghost use Rattle.serde_json.specs.View.{items_view, members_view, view};
ghost use Rattle.query_requests.specs.JsonMembers.{all_texts, count_of, flag_in, items_in, text_in};
ghost use Rattle.query_requests.specs.QueryReadings.{Gives};

use query_text::queries::QueryFault;
use serde_json::{Map, Value};

/// A member that is a string.
pub(crate) fn text_in<'v>(value: &'v Value, name: &str) -> Result<&'v str, QueryFault>
    ensures { Gives (λ text. text.now) result (text_in (get name.now (view value.now))) }
{
    match value.get(name) {
        Some(found) => match found.as_str() {
            Some(text) => Ok(text),
            None => Err(QueryFault::BadQuery),
        },
        None => Err(QueryFault::BadQuery),
    }
}

/// A member that is an array.
pub(crate) fn items_in<'v>(value: &'v Value, name: &str) -> Result<&'v Vec<Value>, QueryFault>
    ensures { Gives (λ items. items_view items.now.items) result (items_in (get name.now (view value.now))) }
{
    match value.get(name) {
        Some(found) => match found.as_array() {
            Some(items) => Ok(items),
            None => Err(QueryFault::BadQuery),
        },
        None => Err(QueryFault::BadQuery),
    }
}

/// A member that is true or false; where it is absent, false.
pub(crate) fn flag_in(value: &Value, name: &str) -> Result<bool, QueryFault>
    ensures { Gives (λ flag. flag) result (flag_in (get name.now (view value.now))) }
{
    match value.get(name) {
        Some(found) => match found.as_bool() {
            Some(flag) => Ok(flag),
            None => Err(QueryFault::BadQuery),
        },
        None => Ok(false),
    }
}

/// Whether each member is a string.
pub(crate) fn all_texts(map: &Map<String, Value>) -> bool
    ensures { result ≡ all_texts (members_view map.now.entries) }
{
    for (_key, value) in map {
        if !value.is_string() {
            return false;
        }
    }
    true
}

/// How many items there are.
pub(crate) fn count_of(items: &Vec<Value>) -> usize
    ensures { result ≡ count_of (items_view items.now.items) }
{
    items.len()
}
