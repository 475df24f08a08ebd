//! The tags of an element.
ghost use Rattle.std.specs.Prelude.{◌≡◌, ◌+◌, ◌<◌, ◌^◌, codes, length};
ghost use Rattle.serde_json.specs.Find.{get};
ghost use Rattle.serde_json.specs.View.{view, members_view};
ghost use Rattle.json_points.specs.Elements.{Gives, texts_in, all_texts, pairs_in, pair_in, name_in, bad_tags};
ghost use Rattle.tsd_base.specs.declared.points.PointFault.TheVariants.{TagKey, TagValue};

use crate::fault::{ElementFault, Member};
use serde_json::{Map, Value};
use std::alloc::Global;
use tsd_base::names::{Name, NameFault};
use tsd_base::points::PointFault;

/// The member of tags: an object of strings.
pub fn tags_member(element: &Value) -> Result<&Map<String, Value>, ElementFault>
    ensures { Gives (λ m. members_view m.now.entries) result (texts_in (get (codes "tags") (view element.now))) }
{
    let Some(value) = element.get("tags") else {
        return Err(bad_tags());
    };
    match value.as_object() {
        Some(map) if all_texts(map) => Ok(map),
        _ => Err(bad_tags()),
    }
}

fn bad_tags() -> ElementFault
    ensures { result ≡ bad_tags }
{
    ElementFault::BadMember {
        member: Member::Tags,
    }
}

/// Whether each member is a string.
fn all_texts(map: &Map<String, Value>) -> bool
    ensures { result ≡ all_texts (members_view map.now.entries) }
{
    for (_key, value) in map {
        if !value.is_string() {
            return false;
        }
    }
    true
}

/// The pairs of the members, in byte order of their keys.
pub fn read_pairs(
    alloc: Global,
    map: &Map<String, Value>,
) -> Result<Vec<(Name, Name)>, ElementFault>
    ensures { Gives (λ pairs. pairs.items) result (pairs_in 1 (members_view map.now.entries)) }
{
    let mut pairs = Vec::new(alloc);
    for (key, value) in map {
        let pair = read_pair(alloc, pairs.len() + 1, key.as_str(), value)?;
        pairs.push(pair)?;
    }
    Ok(pairs)
}

/// The pair of a member.
fn read_pair(
    alloc: Global,
    index: usize,
    key: &str,
    value: &Value,
) -> Result<(Name, Name), ElementFault>
    ensures { Gives (λ pair. pair) result (pair_in index key.now (view value.now)) }
{
    let Some(text) = value.as_str() else {
        return Err(bad_tags());
    };
    let key = read_key(alloc, index, key.as_bytes())?;
    let value = read_tag_value(alloc, index, text.as_bytes())?;
    Ok((key, value))
}

fn read_key(alloc: Global, index: usize, bytes: &[u8]) -> Result<Name, ElementFault>
    ensures { Gives (λ name. name) result (name_in (TagKey index) bytes.now) }
{
    match Name::read(alloc, bytes) {
        Ok(name) => Ok(name),
        Err(NameFault::OutOfMemory) => Err(ElementFault::OutOfMemory),
        Err(fault) => Err(ElementFault::Point {
            fault: PointFault::TagKey { index, fault },
        }),
    }
}

fn read_tag_value(alloc: Global, index: usize, bytes: &[u8]) -> Result<Name, ElementFault>
    ensures { Gives (λ name. name) result (name_in (TagValue index) bytes.now) }
{
    match Name::read(alloc, bytes) {
        Ok(name) => Ok(name),
        Err(NameFault::OutOfMemory) => Err(ElementFault::OutOfMemory),
        Err(fault) => Err(ElementFault::Point {
            fault: PointFault::TagValue { index, fault },
        }),
    }
}
