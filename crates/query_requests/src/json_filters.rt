//! Filters in JSON.
ghost use Rattle.std.specs.Prelude.{◌≡◌, codes, length, option_map, unwrap_or, IfOk};
ghost use Rattle.serde_json.specs.Data.{no_members};
ghost use Rattle.serde_json.specs.Find.{get};
ghost use Rattle.serde_json.specs.View.{items_view, members_view, view};
ghost use Rattle.query_text.specs.FilterTexts.{filter_with};
ghost use Rattle.query_requests.specs.JsonFilters.{all_parts, each_parts, filters_in, part_filter, part_filters, parts_in, tag_filter, tag_filters, tags_in, test_text};
ghost use Rattle.query_requests.specs.JsonMembers.{texts_in};
ghost use Rattle.query_requests.specs.JsonParts.{all_seen, parts_seen};
ghost use Rattle.query_requests.specs.QueryReadings.{Gives, or_fault, with_front};
ghost use Rattle.query_text.specs.declared.queries.QueryFault.TheVariants.{BadFilter};

use crate::json_members::{all_texts, flag_in, text_in};
use query_text::cuts::name_of;
use query_text::filters::read_test;
use query_text::queries::{Filter, QueryFault, Test};
use serde_json::{Map, Value};
use std::alloc::{AllocError, Global};

/// What an object says of a filter.
#[derive(Clone, Copy)]
pub(crate) struct JsonFilter<'v> {
    key: &'v str,
    kind: &'v str,
    names: &'v str,
    group: bool,
}

/// Reads the filters of an object: those of its tags, which group, and then those that it lists.
#[tactic(auto, unfolding(crate::specs::JsonFilters::filters_in))]
pub(crate) fn read_json_filters(alloc: Global, value: &Value) -> Result<Vec<Filter>, QueryFault>
    ensures { Gives (λ filters. filters.items) result (filters_in (view value.now)) }
{
    let grouping = tags_in(alloc, value)?;
    let listed = all_parts(alloc, value)?;
    part_filters(alloc, listed.as_slice(), grouping)
}

/// The filters of the tags.
fn tags_in(alloc: Global, value: &Value) -> Result<Vec<Filter>, QueryFault>
    ensures { Gives (λ filters. filters.items) result (tags_in (view value.now)) }
{
    match tags_member(value)? {
        Some(tags) => tag_filters(alloc, tags),
        None => Ok(Vec::new(alloc)),
    }
}

/// The member of tags: an object of strings, or absent.
fn tags_member(value: &Value) -> Result<Option<&Map<String, Value>>, QueryFault>
    ensures { Gives (λ tags. unwrap_or (option_map (λ map. members_view map.now.entries) tags) no_members) result (texts_in (get (codes "tags") (view value.now))) }
{
    let Some(found) = value.get("tags") else {
        return Ok(None);
    };
    match found.as_object() {
        Some(map) if all_texts(map) => Ok(Some(map)),
        _ => Err(QueryFault::BadQuery),
    }
}

/// The filters of tags, in byte order of their keys.
fn tag_filters(alloc: Global, map: &Map<String, Value>) -> Result<Vec<Filter>, QueryFault>
    ensures { Gives (λ filters. filters.items) result (tag_filters 0 (members_view map.now.entries)) }
{
    let mut grouping = Vec::new(alloc);
    for (key, value) in map {
        let filter = tag_filter(alloc, grouping.len(), key.as_str(), value)?;
        grouping.push(filter)?;
    }
    Ok(grouping)
}

/// The filter of a tag.
fn tag_filter(alloc: Global, index: usize, key: &str, value: &Value) -> Result<Filter, QueryFault>
    ensures { Gives (λ filter. filter) result (tag_filter index key.now (view value.now)) }
{
    let Some(text) = value.as_str() else {
        return Err(QueryFault::BadFilter { index });
    };
    let test = read_test(alloc, text.as_bytes())?;
    filter_with(alloc, index, true, key, test)
}

/// The filter of a key and a test, where the key is a name and the test could be read.
fn filter_with(
    alloc: Global,
    index: usize,
    group: bool,
    key: &str,
    test: Option<Test>,
) -> Result<Filter, QueryFault>
    ensures { Gives (λ filter. filter) result (or_fault (BadFilter index) (filter_with group key.now test)) }
{
    let Some(test) = test else {
        return Err(QueryFault::BadFilter { index });
    };
    match name_of(alloc, key.as_bytes())? {
        Some(key) => Ok(Filter { key, test, group }),
        None => Err(QueryFault::BadFilter { index }),
    }
}

/// What the list of filters says, or nothing where it is absent.
fn all_parts(alloc: Global, value: &Value) -> Result<Vec<JsonFilter<'_>>, QueryFault>
    ensures { Gives (λ listed. all_seen listed.items) result (all_parts (get (codes "filters") (view value.now))) }
{
    let Some(found) = value.get("filters") else {
        return Ok(Vec::new(alloc));
    };
    match found.as_array() {
        Some(items) => each_parts(alloc, items),
        None => Err(QueryFault::BadQuery),
    }
}

fn each_parts(alloc: Global, items: &Vec<Value>) -> Result<Vec<JsonFilter<'_>>, QueryFault>
    ensures { Gives (λ listed. all_seen listed.items) result (each_parts (items_view items.now.items)) }
{
    let mut listed = Vec::new(alloc);
    for item in items.as_slice() {
        let parts = parts_in(item)?;
        listed.push(parts)?;
    }
    Ok(listed)
}

/// What an object says of a filter, where each member is of its kind.
#[tactic(auto, unfolding(crate::specs::JsonFilters::parts_in))]
fn parts_in(value: &Value) -> Result<JsonFilter<'_>, QueryFault>
    ensures { Gives parts_seen result (parts_in (view value.now)) }
{
    if !value.is_object() {
        return Err(QueryFault::BadQuery);
    }
    let kind = text_in(value, "type")?;
    let key = text_in(value, "tagk")?;
    let names = text_in(value, "filter")?;
    let group = flag_in(value, "groupBy")?;
    Ok(JsonFilter {
        key,
        kind,
        names,
        group,
    })
}

/// Adds the filters that the list says to those of the tags.
fn part_filters(
    alloc: Global,
    listed: &[JsonFilter<'_>],
    grouping: Vec<Filter>,
) -> Result<Vec<Filter>, QueryFault>
    ensures { Gives (λ filters. filters.items) result (with_front grouping.items (part_filters (length grouping.items) (all_seen listed.now))) }
{
    let mut filters = grouping;
    for parts in listed {
        let filter = part_filter(alloc, filters.len(), parts)?;
        filters.push(filter)?;
    }
    Ok(filters)
}

fn part_filter(alloc: Global, index: usize, parts: &JsonFilter<'_>) -> Result<Filter, QueryFault>
    ensures { Gives (λ filter. filter) result (part_filter index (parts_seen parts.now)) }
{
    let text = test_text(alloc, parts)?;
    let test = read_test(alloc, text.as_slice())?;
    filter_with(alloc, index, parts.group, parts.key, test)
}

/// The type and, in brackets, the names.
#[tactic(auto, using(std::proofs::lemmas::List::append_assoc))]
fn test_text(alloc: Global, parts: &JsonFilter<'_>) -> Result<Vec<u8>, AllocError>
    ensures { IfOk result (λ text. text.items ≡ test_text (parts_seen parts.now)) }
{
    let mut text = Vec::from_slice(alloc, parts.kind.as_bytes())?;
    text.push(b'(')?;
    text.extend_from_slice(parts.names.as_bytes())?;
    text.push(b')')?;
    Ok(text)
}
