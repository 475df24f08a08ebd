//! The objects that tell of series.
ghost use Rattle.std.specs.Prelude.{◌≡◌, ◌++◌, map, OnOk};
ghost use Rattle.json_reply.specs.Texts.{listed, quoted, tag_text};
ghost use Rattle.http_series.specs.SeriesReplies.{count_text, found_text, identifier_text, line_text, names_text, point_text, tags_text, time_text, tsuid_text, value_text};

use json_reply::json_text::write_comma;
use series_meta::{Last, Line};
use short_bytes::short::Bytes;
use std::alloc::{AllocError, Global};
use tsd_base::decimals::{write_number, write_signed};
use tsd_base::names::Name;
use tsd_base::tags::Tags;

/// Appends a text in quotes, which needs no escapes.
pub(crate) fn write_quoted(out: &mut Vec<u8>, text: &[u8]) -> Result<(), AllocError>
    ensures { OnOk result (out.new.items ≡ out.old.items ++ quoted text.now) }
{
    out.extend_from_slice(b"\"")?;
    out.extend_from_slice(text)?;
    out.extend_from_slice(b"\"")
}

/// Appends a tag.
fn write_tag(out: &mut Vec<u8>, tag: &(Name, Name)) -> Result<(), AllocError>
    ensures { OnOk result (out.new.items ≡ out.old.items ++ tag_text tag.now) }
{
    write_quoted(out, tag.0.bytes())?;
    out.extend_from_slice(b":")?;
    write_quoted(out, tag.1.bytes())
}

/// Appends tags with commas between them.
fn write_pairs(out: &mut Vec<u8>, pairs: &[(Name, Name)]) -> Result<(), AllocError>
    ensures { OnOk result (out.new.items ≡ out.old.items ++ listed (map tag_text pairs.now)) }
{
    for (index, pair) in pairs.iter().enumerate() {
        write_comma(out, index)?;
        write_tag(out, pair)?;
    }
    Ok(())
}

/// Appends an object of tags.
fn write_tags(out: &mut Vec<u8>, tags: &Tags) -> Result<(), AllocError>
    ensures { OnOk result (out.new.items ≡ out.old.items ++ tags_text tags.now) }
{
    out.extend_from_slice(b"{")?;
    write_pairs(out, tags.pairs())?;
    out.extend_from_slice(b"}")
}

/// Appends an identifier in lower-case hexadecimal digits.
fn write_tsuid(alloc: Global, out: &mut Vec<u8>, tsuid: &[u8]) -> Result<(), AllocError>
    ensures { OnOk result (out.new.items ≡ out.old.items ++ tsuid_text tsuid.now) }
{
    let digits = hex::encode(alloc, tsuid)?;
    write_quoted(out, digits.as_bytes())
}

/// Appends the object of a series that was found.
pub(crate) fn write_line(alloc: Global, out: &mut Vec<u8>, line: &Line) -> Result<(), AllocError>
    ensures { OnOk result (out.new.items ≡ out.old.items ++ line_text line.now) }
{
    write_count(out, line.count)?;
    write_found(alloc, out, line)?;
    Ok(())
}

/// Appends the count of a series that was found, at the beginning of its object.
fn write_count(out: &mut Vec<u8>, count: u64) -> Result<(), AllocError>
    ensures { OnOk result (out.new.items ≡ out.old.items ++ count_text count) }
{
    out.extend_from_slice(b"{\"count\":")?;
    write_number(count, out)?;
    Ok(())
}

/// Appends the tags and the identifier of a series that was found, at the end of its object.
fn write_found(alloc: Global, out: &mut Vec<u8>, line: &Line) -> Result<(), AllocError>
    ensures { OnOk result (out.new.items ≡ out.old.items ++ found_text line.now) }
{
    out.extend_from_slice(b",\"tags\":")?;
    write_tags(out, &line.tags)?;
    write_identifier(alloc, out, &line.tsuid)?;
    out.extend_from_slice(b"}")
}

/// Appends the object of the last point of a series.
pub(crate) fn write_point(
    alloc: Global,
    out: &mut Vec<u8>,
    metric: &Name,
    tags: &Tags,
    last: &Last,
) -> Result<(), AllocError>
    ensures { OnOk result (out.new.items ≡ out.old.items ++ point_text metric.now tags.now last.now) }
{
    write_names(out, metric, tags)?;
    write_time(out, last)?;
    write_identifier(alloc, out, &last.tsuid)?;
    write_value(out, last)?;
    Ok(())
}

/// Appends the names of a series, at the beginning of its object.
fn write_names(out: &mut Vec<u8>, metric: &Name, tags: &Tags) -> Result<(), AllocError>
    ensures { OnOk result (out.new.items ≡ out.old.items ++ names_text metric.now tags.now) }
{
    out.extend_from_slice(b"{\"metric\":")?;
    write_quoted(out, metric.bytes())?;
    out.extend_from_slice(b",\"tags\":")?;
    write_tags(out, tags)
}

/// Appends the time of a point.
fn write_time(out: &mut Vec<u8>, last: &Last) -> Result<(), AllocError>
    ensures { OnOk result (out.new.items ≡ out.old.items ++ time_text last.now) }
{
    out.extend_from_slice(b",\"timestamp\":")?;
    write_number(last.time, out)?;
    Ok(())
}

/// Appends the identifier of a series.
fn write_identifier(alloc: Global, out: &mut Vec<u8>, tsuid: &Bytes) -> Result<(), AllocError>
    ensures { OnOk result (out.new.items ≡ out.old.items ++ identifier_text tsuid.now) }
{
    out.extend_from_slice(b",\"tsuid\":")?;
    write_tsuid(alloc, out, tsuid.list())?;
    Ok(())
}

/// Appends the value of a point, at the end of its object.
fn write_value(out: &mut Vec<u8>, last: &Last) -> Result<(), AllocError>
    ensures { OnOk result (out.new.items ≡ out.old.items ++ value_text last.now) }
{
    out.extend_from_slice(b",\"value\":")?;
    write_signed(last.value, out)?;
    out.extend_from_slice(b"}")
}
