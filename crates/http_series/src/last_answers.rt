//! The answer to a request for last points.
ghost use Rattle.std.specs.Prelude.{◌≡◌, ◌≤◌, ◌++◌, [], ◌∷◌, codes, drop, map, Err, IfErr, IfOk, OnOk};
ghost use Rattle.tsd_base.specs.declared.times.TheConstants.{LAST_TIME};
ghost use Rattle.cell_model.specs.Deeds.{Since};
ghost use Rattle.cell_model.specs.Seen.{InEach};
ghost use Rattle.cell_model.specs.Stops.{CountsStops};
ghost use Rattle.series_meta.specs.LatestPoints.{LastSays};
ghost use Rattle.series_meta.specs.MetaFaults.{is_stop};
ghost use Rattle.http_series.specs.SeriesAnswers.{FoundSays, LastsTell, PointsAsked, RefusedAt, behind_commas, plain_text};
ghost use Rattle.http_series.specs.SeriesReplies.{point_text, point_texts};
ghost use Rattle.http_series.specs.SeriesRequests.{asking, askings, lasts_asked};

use crate::last_request::{LastRequest, SeriesName};
use crate::lookup_answer::text_or;
use crate::series_objects::write_point;
use cell_model::Rows;
use series_meta::{Last, MetaFault, last};
use std::alloc::{AllocError, Global};
use uid_table::Uids;

/// Asks for the last points of series up to the moment `now` in milliseconds, one after the other, and answers with the text that tells of
/// those that there are, or with why there is none.
///
/// The first fault of a series ends it, as `series_meta::last` has them. It fails for want of memory for the text, too.
pub fn answer_lasts<R: Rows + Drop>(
    alloc: Global,
    names: &mut Uids<R>,
    request: &LastRequest,
    now: u64,
) -> Result<Vec<u8>, MetaFault>
    requires now { now ≤ LAST_TIME }
    requires back { request.now.back ≤ 8784 }
    ensures tells { LastsTell (askings now (lasts_asked request.now)) (R.seen names.old.rows) (plain_text result) (R.seen names.new.rows) }
    ensures stops { CountsStops is_stop result (R.stops names.old.rows) (R.stops names.new.rows) }
{
    match ask_lasts(alloc, names, request.series.as_slice(), now, request.back) {
        Ok(points) => text_or(points_text(alloc, points.as_slice())),
        Err(fault) => Err(fault),
    }
}

/// Asks for the last points of series, one after the other, and gives the texts of those that there are, each behind a comma.
fn ask_lasts<R: Rows + Drop>(
    alloc: Global,
    names: &mut Uids<R>,
    series: &[SeriesName],
    now: u64,
    back: u32,
) -> Result<Vec<u8>, MetaFault>
    requires now { now ≤ LAST_TIME }
    requires back { back ≤ 8784 }
    ensures since { Since (R.seen names.old.rows) (R.seen names.new.rows) }
    ensures ok { IfOk result (λ points. InEach (R.seen names.new.rows) (λ h. PointsAsked h (R.seen names.old.rows).caller (R.seen names.old.rows).length (map (asking now back) series.now) points.items (R.seen names.new.rows).length)) }
    ensures err { IfErr result (λ fault. InEach (R.seen names.new.rows) (λ h. RefusedAt h (R.seen names.old.rows).caller (R.seen names.old.rows).length (map (asking now back) series.now) fault (R.seen names.new.rows).length)) }
    ensures stops { CountsStops is_stop result (R.stops names.old.rows) (R.stops names.new.rows) }
{
    let mut points = Vec::new(alloc);
    for one in series {
        match ask_one(alloc, names, &mut points, one, now, back) {
            Ok(()) => {}
            Err(fault) => return Err(fault),
        }
    }
    Ok(points)
}

/// Asks for the last point of a series, and appends its text behind a comma, where it has one.
fn ask_one<R: Rows + Drop>(
    alloc: Global,
    names: &mut Uids<R>,
    points: &mut Vec<u8>,
    one: &SeriesName,
    now: u64,
    back: u32,
) -> Result<(), MetaFault>
    requires now { now ≤ LAST_TIME }
    requires back { back ≤ 8784 }
    ensures ok { OnOk result (FoundSays (asking now back one.now) (R.seen names.old.rows) points.old.items points.new.items (R.seen names.new.rows)) }
    ensures err { IfErr result (λ fault. LastSays (asking now back one.now) (R.seen names.old.rows) (Err fault) (R.seen names.new.rows)) }
    ensures stops { CountsStops is_stop result (R.stops names.old.rows) (R.stops names.new.rows) }
{
    let found = match last(alloc, names, &one.metric, &one.tags, now, back) {
        Ok(found) => found,
        Err(fault) => return Err(fault),
    };
    match add_point(alloc, points, one, &found) {
        Ok(()) => Ok(()),
        Err(_) => Err(MetaFault::OutOfMemory),
    }
}

/// Appends the text of the last point of a series behind a comma, where it has one.
fn add_point(
    alloc: Global,
    points: &mut Vec<u8>,
    one: &SeriesName,
    found: &Option<Last>,
) -> Result<(), AllocError>
    ensures { OnOk result (points.new.items ≡ points.old.items ++ behind_commas (point_texts one.now.metric one.now.tags found.now)) }
{
    match found {
        Some(last) => add_text(alloc, points, one, last),
        None => Ok(()),
    }
}

/// Appends the text of the last point of a series behind a comma.
fn add_text(
    alloc: Global,
    points: &mut Vec<u8>,
    one: &SeriesName,
    last: &Last,
) -> Result<(), AllocError>
    ensures { OnOk result (points.new.items ≡ points.old.items ++ behind_commas (point_text one.now.metric one.now.tags last.now ∷ [])) }
{
    points.extend_from_slice(b",")?;
    write_point(alloc, points, &one.metric, &one.tags, last)?;
    Ok(())
}

/// The text of an array of the objects whose texts these are, each behind a comma.
fn points_text(alloc: Global, points: &[u8]) -> Result<Vec<u8>, AllocError>
    ensures { IfOk result (λ text. text.items ≡ codes "[" ++ (drop 1 points.now ++ codes "]")) }
{
    let mut text = Vec::new(alloc);
    text.extend_from_slice(b"[")?;
    text.extend_from_slice(behind_first(points))?;
    text.extend_from_slice(b"]")?;
    Ok(text)
}

/// The bytes behind the first.
fn behind_first(bytes: &[u8]) -> &[u8]
    ensures { result.now ≡ drop 1 bytes.now }
{
    match bytes.split_first() {
        Some((_, rest)) => rest,
        None => bytes,
    }
}
