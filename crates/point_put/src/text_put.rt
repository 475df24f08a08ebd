//! Putting a point by its text.
ghost use Rattle.std.specs.Prelude.{◌≡◌, ◌≤◌, length, IfOk, IfSome, Ok as Reads};
ghost use Rattle.tsd_base.specs.Points.{DataPoint, data_point, point_of};
ghost use Rattle.tsd_base.specs.TextParts.{HasTextParts};
ghost use Rattle.cell_model.specs.Calls.{Leaves};
ghost use Rattle.uid_table.specs.IdSteps.{MadeSo};
ghost use Rattle.uid_table.specs.KnownSeries.{IsShownSeries};
ghost use Rattle.uid_table.specs.PlacedPoints.{IsPlaced};
ghost use Rattle.point_put.specs.Admissions.{Admission, admission};
ghost use Rattle.point_put.specs.StoredTexts.{MayBeKept};
ghost use Rattle.point_put.specs.TextPuts.{IsFewFor, TextSays, is_text_stop};

use crate::config::Config;
use crate::fault::TextFault;
use crate::placed_put::{put_first, put_next};
use crate::put_point::put;
use crate::stored_text::StoredText;
use cell_model::answers::Stored;
use cell_model::rows::Rows;
use qual_codec::Bytes;
use std::alloc::{AllocError, Global};
use tsd_base::point_text::read_point;
use tsd_base::text_parts::{TextParts, parts_of};
use tsd_hooks::UidRule;
use uid_table::known_series::KnownSeries;
use uid_table::placed_point::PlacedPoint;
use uid_table::uids::Uids;

/// Puts the point of a text, and answers its row: exactly what reading the point and putting it gives, with the first fault.
///
/// A text that has no point does nothing. Else the answer is that of [`put`](crate::put), for the point that
/// [`read_point`] reads. Where the texts of its metric and its tags are those of a series that the store knows, no name is read and
/// nothing is asked; else the series is known by these texts once its point was put. The answer goes back by
/// [`StoredText::keep`].
pub fn put_text<R: Rows + Drop>(
    alloc: Global,
    names: &mut Uids<R>,
    rule: &UidRule,
    config: &Config,
    text: &[u8],
) -> Result<StoredText, TextFault>
    ensures says { TextSays (admission config.now rule.now.patterns) text.now (R.seen names.old.rows) result (R.seen names.new.rows) }
    ensures kept { IfOk result (MayBeKept (R.seen names.new.rows)) }
    ensures few { (point : DataPoint) → point_of text.now ≡ Reads point → MadeSo (R.seen names.old.rows) (IsFewFor point) (R.seen names.new.rows) }
    ensures leaves { Leaves is_text_stop result (R.seen names.new.rows) (R.stops names.old.rows) (R.stops names.new.rows) }
{
    match parts_of(text) {
        Some(parts) => put_parts(alloc, names, rule, config, text, &parts),
        None => put_unknown(alloc, names, rule, config, text),
    }
}

/// Puts the point of a text of these parts.
fn put_parts<R: Rows + Drop>(
    alloc: Global,
    names: &mut Uids<R>,
    rule: &UidRule,
    config: &Config,
    text: &[u8],
    parts: &TextParts<'_>,
) -> Result<StoredText, TextFault>
    requires parts { HasTextParts text.now parts.now }
    ensures says { TextSays (admission config.now rule.now.patterns) text.now (R.seen names.old.rows) result (R.seen names.new.rows) }
    ensures kept { IfOk result (MayBeKept (R.seen names.new.rows)) }
    ensures few { (point : DataPoint) → point_of text.now ≡ Reads point → MadeSo (R.seen names.old.rows) (IsFewFor point) (R.seen names.new.rows) }
    ensures leaves { Leaves is_text_stop result (R.seen names.new.rows) (R.stops names.old.rows) (R.stops names.new.rows) }
{
    match names.take_series(parts.metric, parts.tags) {
        Some(series) => put_known(alloc, names, config, text, parts, series),
        None => put_new(alloc, names, rule, config, text, parts),
    }
}

/// Puts the point of a text of a known series.
#[inline]
fn put_known<R: Rows + Drop>(
    alloc: Global,
    names: &mut Uids<R>,
    config: &Config,
    text: &[u8],
    parts: &TextParts<'_>,
    series: Box<KnownSeries>,
) -> Result<StoredText, TextFault>
    requires parts { HasTextParts text.now parts.now }
    requires shown { IsShownSeries (R.seen names.old.rows) series.value }
    requires metric { series.value.metric ≡ parts.now.metric.now }
    requires tags { series.value.tags ≡ parts.now.tags.now }
    ensures says { (c : Admission) → c.config.appends ≡ config.now.appends → TextSays c text.now (R.seen names.old.rows) result (R.seen names.new.rows) }
    ensures kept { IfOk result (MayBeKept (R.seen names.new.rows)) }
    ensures few { MadeSo (R.seen names.old.rows) (λ list. length list ≤ 1) (R.seen names.new.rows) }
    ensures leaves { Leaves is_text_stop result (R.seen names.new.rows) (R.stops names.old.rows) (R.stops names.new.rows) }
{
    let mut series = series;
    match put_next(
        alloc,
        names,
        config,
        &mut series.placed,
        parts.time,
        parts.fine,
        parts.value,
    ) {
        Ok(()) => Ok(StoredText::Known { series }),
        Err(fault) => {
            names.keep_series(series);
            Err(TextFault::Unput { fault })
        }
    }
}

/// Puts the point of a text whose series isn't known. Then it is, where there is memory for it.
fn put_new<R: Rows + Drop>(
    alloc: Global,
    names: &mut Uids<R>,
    rule: &UidRule,
    config: &Config,
    text: &[u8],
    parts: &TextParts<'_>,
) -> Result<StoredText, TextFault>
    requires parts { HasTextParts text.now parts.now }
    ensures says { TextSays (admission config.now rule.now.patterns) text.now (R.seen names.old.rows) result (R.seen names.new.rows) }
    ensures kept { IfOk result (MayBeKept (R.seen names.new.rows)) }
    ensures few { (point : DataPoint) → point_of text.now ≡ Reads point → MadeSo (R.seen names.old.rows) (IsFewFor point) (R.seen names.new.rows) }
    ensures leaves { Leaves is_text_stop result (R.seen names.new.rows) (R.stops names.old.rows) (R.stops names.new.rows) }
{
    let point = match read_point(alloc, text) {
        Ok(point) => point,
        Err(fault) => return Err(TextFault::Unread { fault }),
    };
    match put_first(alloc, names, rule, config, point) {
        Ok(placed) => Ok(StoredText::New {
            stored: know(alloc, names, text, parts, placed),
        }),
        Err(fault) => Err(TextFault::Unput { fault }),
    }
}

/// Makes a series known by the texts of its point, where there is memory for it, and answers the point's row.
fn know<R: Rows + Drop>(
    alloc: Global,
    names: &mut Uids<R>,
    text: &[u8],
    parts: &TextParts<'_>,
    placed: PlacedPoint,
) -> Stored
    requires parts { HasTextParts text.now parts.now }
    requires reads { point_of text.now ≡ Reads (data_point placed.point) }
    requires placed { IsPlaced (R.seen names.old.rows) placed }
    ensures same { names.new ≡ names.old }
    ensures row { result.row ≡ placed.row }
    ensures base { result.base ≡ placed.base }
{
    let base = placed.base;
    let Ok(row) = placed.row.again(alloc) else {
        return Stored {
            row: placed.row,
            base,
        };
    };
    if let Ok(series) = series_of(alloc, parts, placed) {
        names.add_series(series);
    }
    Stored { row, base }
}

/// A series by its texts.
fn series_of(
    alloc: Global,
    parts: &TextParts<'_>,
    placed: PlacedPoint,
) -> Result<Box<KnownSeries>, AllocError>
    ensures metric { IfOk result (λ b. b.value.metric ≡ parts.now.metric.now) }
    ensures tags { IfOk result (λ b. b.value.tags ≡ parts.now.tags.now) }
    ensures placed { IfOk result (λ b. b.value.placed ≡ placed) }
{
    let metric = Bytes::of(alloc, parts.metric)?;
    let tags = Bytes::of(alloc, parts.tags)?;
    Ok(Box::new(
        alloc,
        KnownSeries {
            tags,
            metric,
            slot: 0,
            placed,
        },
    )?)
}

/// Puts the point of a text, which stays unknown.
fn put_unknown<R: Rows + Drop>(
    alloc: Global,
    names: &mut Uids<R>,
    rule: &UidRule,
    config: &Config,
    text: &[u8],
) -> Result<StoredText, TextFault>
    ensures says { TextSays (admission config.now rule.now.patterns) text.now (R.seen names.old.rows) result (R.seen names.new.rows) }
    ensures kept { IfOk result (MayBeKept (R.seen names.new.rows)) }
    ensures few { (point : DataPoint) → point_of text.now ≡ Reads point → MadeSo (R.seen names.old.rows) (IsFewFor point) (R.seen names.new.rows) }
    ensures leaves { Leaves is_text_stop result (R.seen names.new.rows) (R.stops names.old.rows) (R.stops names.new.rows) }
{
    let point = match read_point(alloc, text) {
        Ok(point) => point,
        Err(fault) => return Err(TextFault::Unread { fault }),
    };
    match put(alloc, names, rule, config, &point) {
        Ok(stored) => Ok(StoredText::New { stored }),
        Err(fault) => Err(TextFault::Unput { fault }),
    }
}
