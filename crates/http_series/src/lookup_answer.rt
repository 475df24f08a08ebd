//! The answer to a lookup.
ghost use Rattle.std.specs.Prelude.{◌≡◌, ◌++◌, map, Err, IfOk, MatchResult, Ok, OnOk};
ghost use Rattle.cell_model.specs.Stops.{CountsStops};
ghost use Rattle.json_reply.specs.Texts.{listed};
ghost use Rattle.series_meta.specs.MetaFaults.{is_stop};
ghost use Rattle.series_meta.specs.declared.meta_faults.MetaFault.TheVariants as meta;
ghost use Rattle.http_series.specs.SeriesAnswers.{LookupTells, plain_text};
ghost use Rattle.http_series.specs.SeriesReplies.{limit_text, line_text, lookup_text, metric_text};
ghost use Rattle.http_series.specs.SeriesRequests.{lookup_asked};

use crate::lookup_request::LookupRequest;
use crate::series_objects::{write_line, write_quoted};
use cell_model::Rows;
use json_reply::json_text::write_comma;
use series_meta::{Line, MetaFault, lookup};
use std::alloc::{AllocError, Global};
use tsd_base::decimals::write_number;
use tsd_base::names::Name;
use uid_table::Uids;

/// Looks up series, and answers with the text that tells of them, or with why there is none.
///
/// It fails as `series_meta::lookup` does, and for want of memory for the text.
pub fn answer_lookup<R: Rows + Drop>(
    alloc: Global,
    names: &mut Uids<R>,
    request: &LookupRequest,
) -> Result<Vec<u8>, MetaFault>
    ensures tells { LookupTells (lookup_asked request.now) (R.seen names.old.rows) (plain_text result) (R.seen names.new.rows) }
    ensures stops { CountsStops is_stop result (R.stops names.old.rows) (R.stops names.new.rows) }
{
    match lookup(alloc, names, &request.sub, request.limit) {
        Ok(lines) => text_or(lookup_text(alloc, request, lines.as_slice())),
        Err(fault) => Err(fault),
    }
}

/// The text, or the want of memory for it.
pub(crate) fn text_or(text: Result<Vec<u8>, AllocError>) -> Result<Vec<u8>, MetaFault>
    ensures { MatchResult text (λ text. result ≡ Ok text) (λ _. result ≡ Err meta.OutOfMemory) }
{
    match text {
        Ok(text) => Ok(text),
        Err(_) => Err(MetaFault::OutOfMemory),
    }
}

/// The text that tells of series which were looked up.
fn lookup_text(
    alloc: Global,
    request: &LookupRequest,
    lines: &[Line],
) -> Result<Vec<u8>, AllocError>
    ensures { IfOk result (λ text. text.items ≡ lookup_text (lookup_asked request.now) lines.now) }
{
    let mut text = Vec::new(alloc);
    write_limit(&mut text, request.limit)?;
    write_metric(&mut text, &request.sub.metric)?;
    write_lines(alloc, &mut text, lines)?;
    text.extend_from_slice(b"],\"type\":\"LOOKUP\"}")?;
    Ok(text)
}

/// Appends at most how many series were asked for, at the beginning of the text.
fn write_limit(out: &mut Vec<u8>, limit: u32) -> Result<(), AllocError>
    ensures { OnOk result (out.new.items ≡ out.old.items ++ limit_text limit) }
{
    out.extend_from_slice(b"{\"limit\":")?;
    write_number(u64::from(limit), out)?;
    Ok(())
}

/// Appends of which metric they are.
fn write_metric(out: &mut Vec<u8>, metric: &Name) -> Result<(), AllocError>
    ensures { OnOk result (out.new.items ≡ out.old.items ++ metric_text metric.now) }
{
    out.extend_from_slice(b",\"metric\":")?;
    write_quoted(out, metric.bytes())?;
    out.extend_from_slice(b",\"results\":[")?;
    Ok(())
}

/// Appends the objects of series with commas between them.
fn write_lines(alloc: Global, out: &mut Vec<u8>, lines: &[Line]) -> Result<(), AllocError>
    ensures { OnOk result (out.new.items ≡ out.old.items ++ listed (map line_text lines.now)) }
{
    for (index, line) in lines.iter().enumerate() {
        write_comma(out, index)?;
        write_line(alloc, out, line)?;
    }
    Ok(())
}
