//! The parts of a reply's text, each appended to what was written.
ghost use Rattle.std.specs.Prelude.{◌≡◌, ◌==◌, ◌++◌, ℕ, List, true, [], ◌∷◌, map, IfOk, OnOk, if◌then◌else◌};
ghost use Rattle.json_reply.specs.Replies.{group_text, plain};
ghost use Rattle.json_reply.specs.Texts.{dot_text, keyed, listed, quoted, tag_text};

use crate::reply::Group;
use crate::time_text::{keyed, time_text};
use itoa::Buffer;
use short_bytes::short::Bytes;
use std::alloc::{AllocError, Global};
use std::collections::BTreeMap;
use tsd_base::dots::Dots;
use tsd_base::names::Name;

/// Appends the objects of groups.
pub fn write_groups(alloc: Global, out: &mut Vec<u8>, groups: &[Group]) -> Result<(), AllocError>
    ensures { OnOk result (out.new.items ≡ out.old.items ++ listed (map group_text (map plain groups.now))) }
{
    for (index, group) in groups.iter().enumerate() {
        write_comma(out, index)?;
        write_group(alloc, out, group)?;
    }
    Ok(())
}

fn write_group(alloc: Global, out: &mut Vec<u8>, group: &Group) -> Result<(), AllocError>
    ensures { OnOk result (out.new.items ≡ out.old.items ++ group_text (plain group.now)) }
{
    out.extend_from_slice(b"{\"aggregateTags\":[")?;
    write_keys(out, group.aggregate_tags.as_slice())?;
    out.extend_from_slice(b"],\"dps\":{")?;
    write_dots(alloc, out, group.ms, &group.dps)?;
    out.extend_from_slice(b"},\"metric\":")?;
    write_name(out, &group.metric)?;
    out.extend_from_slice(b",\"tags\":{")?;
    write_tags(out, group.tags.as_slice())?;
    out.extend_from_slice(b"}}")
}

/// Appends a name in quotes. Names need no escapes.
fn write_name(out: &mut Vec<u8>, name: &Name) -> Result<(), AllocError>
    ensures { OnOk result (out.new.items ≡ out.old.items ++ quoted name.now) }
{
    write_quoted(out, name.bytes())
}

fn write_quoted(out: &mut Vec<u8>, text: &[u8]) -> Result<(), AllocError>
    ensures { OnOk result (out.new.items ≡ out.old.items ++ quoted text.now) }
{
    out.extend_from_slice(b"\"")?;
    out.extend_from_slice(text)?;
    out.extend_from_slice(b"\"")
}

/// Appends a comma before each item but the first.
pub fn write_comma(out: &mut Vec<u8>, index: usize) -> Result<(), AllocError>
    ensures { OnOk result (out.new.items ≡ out.old.items ++ (if index == 0 then [] else 44 ∷ [])) }
{
    if index > 0 {
        out.extend_from_slice(b",")?;
    }
    Ok(())
}

pub fn write_keys(out: &mut Vec<u8>, keys: &[Name]) -> Result<(), AllocError>
    ensures { OnOk result (out.new.items ≡ out.old.items ++ listed (map quoted keys.now)) }
{
    for (index, key) in keys.iter().enumerate() {
        write_comma(out, index)?;
        write_name(out, key)?;
    }
    Ok(())
}

fn write_tags(out: &mut Vec<u8>, tags: &[(Name, Name)]) -> Result<(), AllocError>
    ensures { OnOk result (out.new.items ≡ out.old.items ++ listed (map tag_text tags.now)) }
{
    for (index, tag) in tags.iter().enumerate() {
        write_comma(out, index)?;
        write_tag(out, tag)?;
    }
    Ok(())
}

fn write_tag(out: &mut Vec<u8>, tag: &(Name, Name)) -> Result<(), AllocError>
    ensures { OnOk result (out.new.items ≡ out.old.items ++ tag_text tag.now) }
{
    write_name(out, &tag.0)?;
    out.extend_from_slice(b":")?;
    write_name(out, &tag.1)
}

/// Appends values under their times, in byte order of the times' texts.
fn write_dots(alloc: Global, out: &mut Vec<u8>, ms: bool, dots: &Dots) -> Result<(), AllocError>
    ensures { OnOk result (out.new.items ≡ out.old.items ++ listed (map dot_text (keyed ms dots.now))) }
{
    let dots = dots.list();
    let start = out.len();
    if write_rising(alloc, out, ms, dots)? {
        return Ok(());
    }
    out.truncate(start);
    write_entries(out, &keyed(alloc, ms, dots)?)
}

/// Appends values under their times as they come, and answers whether the times' texts rose. It stops before the first that doesn't.
fn write_rising(
    alloc: Global,
    out: &mut Vec<u8>,
    ms: bool,
    dots: &[(u64, i64)],
) -> Result<bool, AllocError>
    ensures all { IfOk result (λ rose. rose ≡ true → out.new.items ≡ out.old.items ++ listed (map dot_text (keyed ms dots.now))) }
    ensures some { OnOk result ((more : List ℕ) × (out.new.items ≡ out.old.items ++ more)) }
{
    let mut last = Bytes::none();
    for (index, (time, value)) in dots.iter().enumerate() {
        let text = time_text(alloc, ms, *time)?;
        if text <= last {
            return Ok(false);
        }
        write_comma(out, index)?;
        write_dot(out, &text, *value)?;
        last = text;
    }
    Ok(true)
}

fn write_entries(out: &mut Vec<u8>, keyed: &BTreeMap<Bytes, i64>) -> Result<(), AllocError>
    ensures { OnOk result (out.new.items ≡ out.old.items ++ listed (map dot_text keyed.now.entries)) }
{
    for (index, (time, value)) in keyed.iter().enumerate() {
        write_comma(out, index)?;
        write_dot(out, time, *value)?;
    }
    Ok(())
}

fn write_dot(out: &mut Vec<u8>, time: &Bytes, value: i64) -> Result<(), AllocError>
    ensures { OnOk result (out.new.items ≡ out.old.items ++ dot_text (time.now, value)) }
{
    write_quoted(out, time.list())?;
    out.extend_from_slice(b":")?;
    out.extend_from_slice(Buffer::new().format(value).as_bytes())
}
