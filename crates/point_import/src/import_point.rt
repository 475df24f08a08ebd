//! The put of a point by its text.
ghost use Rattle.std.specs.Prelude.{◌≡◌, Ok as Reads};
ghost use Rattle.cell_model.specs.Seen.{IsPossible};
ghost use Rattle.cell_model.specs.Stops.{CountsStops, is_stop};
ghost use Rattle.tsd_base.specs.Points.{data_point, point_of};
ghost use Rattle.tsd_base.specs.TextParts.{HasTextParts};
ghost use Rattle.uid_table.specs.KnownSeries.{IsShownSeries};
ghost use Rattle.point_put.specs.PutFaults.{put_fault};
ghost use Rattle.point_lines.specs.OpenRules.{AllowsAll};
ghost use Rattle.point_import.specs.PutPoints.{IsFaultOfOpen, IsFaultOfRows, PutsPoint, PutsText, SaysPut, TellsFault, TellsUnread, is_memory};

use crate::import_names::name_point;
use cell_model::Rows;
use cell_model::answers::RowsFault;
use point_put::{Config, PutFault, TextFault, put_next, put_text};
use std::alloc::Global;
use tsd_base::kinds::Kind;
use tsd_base::point_text::read_point;
use tsd_base::points::{Point, PointFault};
use tsd_base::text_parts::{TextParts, parts_of};
use tsd_hooks::UidRule;
use uid_table::Uids;
use uid_table::known_series::KnownSeries;

/// Names of each kind are given ids, and each point gets a cell of its own.
const ALL_KINDS: Config = Config {
    auto_metric: true,
    auto_tag_key: true,
    auto_tag_value: true,
    appends: false,
};

/// What became of a text that isn't blank.
#[derive(Drop)]
pub(crate) enum TextOutcome {
    /// Its point was put.
    Taken,
    /// For one of its point's names there is no id left: the kind of the first such name.
    Full { kind: Kind },
    /// It is no point.
    Unread { fault: PointFault },
}

/// Puts the point of a text that isn't blank. The rule for new names is one that allows each of them.
///
/// Of a series that is known by its text no name is read and nothing is asked. Else each of its names is given its id before the next one
/// is asked, so that ids come in the order in which names first come.
#[inline]
pub(crate) fn import_text<R: Rows + Drop>(
    alloc: Global,
    names: &mut Uids<R>,
    rule: &UidRule,
    text: &[u8],
) -> Result<TextOutcome, RowsFault>
    requires allows { AllowsAll rule.now.patterns }
    ensures puts { PutsText rule.now.patterns text.now (R.seen names.old.rows) result (R.seen names.new.rows) }
    ensures stops { CountsStops is_stop result (R.stops names.old.rows) (R.stops names.new.rows) }
{
    match parts_of(text) {
        Some(parts) => match names.take_series(parts.metric, parts.tags) {
            Some(series) => import_known(alloc, names, rule, text, &parts, series),
            None => import_new(alloc, names, rule, text),
        },
        None => import_new(alloc, names, rule, text),
    }
}

/// Puts the point of a text of a known series.
#[inline]
fn import_known<R: Rows + Drop>(
    alloc: Global,
    names: &mut Uids<R>,
    rule: &UidRule,
    text: &[u8],
    parts: &TextParts<'_>,
    series: Box<KnownSeries>,
) -> Result<TextOutcome, RowsFault>
    requires parts { HasTextParts text.now parts.now }
    requires shown { IsShownSeries (R.seen names.old.rows) series.value }
    requires metric { series.value.metric ≡ parts.now.metric.now }
    requires tags { series.value.tags ≡ parts.now.tags.now }
    ensures puts { PutsText rule.now.patterns text.now (R.seen names.old.rows) result (R.seen names.new.rows) }
    ensures stops { CountsStops is_stop result (R.stops names.old.rows) (R.stops names.new.rows) }
{
    let mut series = series;
    let put = put_next(
        alloc,
        names,
        &ALL_KINDS,
        &mut series.placed,
        parts.time,
        parts.fine,
        parts.value,
    );
    names.keep_series(series);
    match put {
        Ok(()) => Ok(TextOutcome::Taken),
        Err(fault) => Err(fault_of_rows(fault)),
    }
}

/// A fault of a step, as one of the rows.
fn fault_of_rows(fault: PutFault) -> RowsFault
    requires { IsFaultOfRows fault }
    ensures { fault ≡ put_fault result }
{
    match fault {
        PutFault::Unknown { .. } => unreachable!(),
        PutFault::Filtered { .. } => unreachable!(),
        PutFault::Exhausted { .. } => unreachable!(),
        PutFault::OutOfMemory => RowsFault::OutOfMemory,
        PutFault::Stopped => RowsFault::Stopped,
    }
}

/// Puts the point of a text whose series isn't known, if it has one. Then the series is known, where there is memory for it.
fn import_new<R: Rows + Drop>(
    alloc: Global,
    names: &mut Uids<R>,
    rule: &UidRule,
    text: &[u8],
) -> Result<TextOutcome, RowsFault>
    requires allows { AllowsAll rule.now.patterns }
    ensures puts { PutsText rule.now.patterns text.now (R.seen names.old.rows) result (R.seen names.new.rows) }
    ensures stops { CountsStops is_stop result (R.stops names.old.rows) (R.stops names.new.rows) }
{
    match read_point(alloc, text) {
        Ok(point) => match import_read(alloc, names, rule, text, &point) {
            Ok(None) => Ok(TextOutcome::Taken),
            Ok(Some(kind)) => Ok(TextOutcome::Full { kind }),
            Err(fault) => Err(fault),
        },
        Err(fault) => unread(fault),
    }
}

/// What becomes of a text in which no point was read: want of memory is no refusal.
fn unread(fault: PointFault) -> Result<TextOutcome, RowsFault>
    ensures { TellsUnread fault result }
{
    if is_memory(&fault) {
        return Err(RowsFault::OutOfMemory);
    }
    Ok(TextOutcome::Unread { fault })
}

/// Whether there was no memory for a point.
fn is_memory(fault: &PointFault) -> bool
    ensures { result ≡ is_memory fault.now }
{
    match fault {
        PointFault::OutOfMemory => true,
        _ => false,
    }
}

/// Puts the point that a text reads as.
fn import_read<R: Rows + Drop>(
    alloc: Global,
    names: &mut Uids<R>,
    rule: &UidRule,
    text: &[u8],
    point: &Point,
) -> Result<Option<Kind>, RowsFault>
    requires allows { AllowsAll rule.now.patterns }
    requires reads { point_of text.now ≡ Reads (data_point point.now) }
    ensures puts { PutsPoint rule.now.patterns (data_point point.now) (R.seen names.old.rows) result (R.seen names.new.rows) }
    ensures stops { CountsStops is_stop result (R.stops names.old.rows) (R.stops names.new.rows) }
{
    match name_point(alloc, names, rule, point) {
        Ok(None) => put_named(alloc, names, rule, text, point),
        Ok(Some(kind)) => Ok(Some(kind)),
        Err(fault) => Err(fault),
    }
}

/// Puts the point that a text reads as, whose names have ids.
fn put_named<R: Rows + Drop>(
    alloc: Global,
    names: &mut Uids<R>,
    rule: &UidRule,
    text: &[u8],
    point: &Point,
) -> Result<Option<Kind>, RowsFault>
    requires allows { AllowsAll rule.now.patterns }
    requires reads { point_of text.now ≡ Reads (data_point point.now) }
    requires possible { IsPossible (R.seen names.old.rows) }
    ensures says { SaysPut rule.now.patterns (data_point point.now) (R.seen names.old.rows) result (R.seen names.new.rows) }
    ensures stops { CountsStops is_stop result (R.stops names.old.rows) (R.stops names.new.rows) }
{
    match put_text(alloc, names, rule, &ALL_KINDS, text) {
        Ok(stored) => {
            stored.keep(names);
            Ok(None)
        }
        // The text was read before, so there was no memory to read it once more.
        Err(TextFault::Unread { .. }) => Err(RowsFault::OutOfMemory),
        Err(TextFault::Unput { fault }) => exhausted_or(fault),
    }
}

/// The kind of which no id is left, or why there was no put.
fn exhausted_or(fault: PutFault) -> Result<Option<Kind>, RowsFault>
    requires known { IsFaultOfOpen fault }
    ensures { TellsFault fault result }
{
    match fault {
        PutFault::Unknown { .. } => unreachable!(),
        PutFault::Filtered { .. } => unreachable!(),
        PutFault::Exhausted { kind } => Ok(Some(kind)),
        PutFault::OutOfMemory => Err(RowsFault::OutOfMemory),
        PutFault::Stopped => Err(RowsFault::Stopped),
    }
}
