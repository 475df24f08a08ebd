//! The points of all lines, series by series and form by form.
ghost use Rattle.std.specs.Prelude.{◌≡◌, [], All, None as Nothing, Ok as Reads, Some as Found, IfOk, MatchOption, OnErr, OnOk};
ghost use Rattle.tsd_base.specs.Points.{DataPoint, data_point, point_of};
ghost use Rattle.tsd_base.specs.TextParts.{HasTextParts};
ghost use Rattle.cell_model.specs.Seen.{Seen};
ghost use Rattle.cell_model.specs.Stops.{CountsStops, is_stop};
ghost use Rattle.batch_job.specs.AddedTexts.{AddsAt, AddsKnown, AddsText, AddsValue};
ghost use Rattle.point_lines.specs.OpenRules.{AllowsAll};
ghost use Rattle.batch_job.specs.Pending.{Gathers, AddsPoint, so_far};
ghost use Rattle.point_lines.specs.NameIds.{no_names};
ghost use Rattle.batch_job.specs.PendingSeries.{KeepTexts, StandsAt, all_values};
ghost use Rattle.batch_job.specs.PointLines.{judged_point, judged_text};
ghost use Rattle.batch_job.specs.SeriesTexts.{IsKnownBy};
ghost use Rattle.batch_job.specs.SeriesValues.{series_of_point, values_in};
ghost use Rattle.batch_job.specs.Storing.{IsNaming};

use crate::pending_ids::note_series;
use crate::pending_series::PendingSeries;
use crate::point_line::{Judgement, LineOutcome, judge};
use crate::series_text::{SeriesText, hash_parts, text_of};
use cell_model::Rows;
use cell_model::answers::RowsFault;
use guess_table::{Guesses, Round};
use indexmap::IndexMap;
use line_stream::line::is_blank;
use std::alloc::{AllocError, Global};
use std::marker::Model;
use tsd_base::kinds::Kind;
use tsd_base::names::Name;
use tsd_base::points::Point;
use tsd_base::tags::Tags;
use tsd_base::text_parts::{TextParts, parts_of};
use tsd_hooks::UidRule;
use uid_table::Uids;

/// The points that were read so far. The names in them have their ids in a store.
///
/// Contracts see it as the list of the series in each form, of a metric with its tags, in milliseconds or not, each with its
/// values, in the order in which they first came.
#[derive(Drop)]
pub struct Gathered {
    series: IndexMap<((Name, Tags), bool), PendingSeries>,
    // Where a series may be, by a hash of its text.
    places: Guesses<u32>,
    // Which series may come next.
    round: Round,
}

impl Model for Gathered {
    ghost use Rattle.std.specs.Prelude.{List, ℕ, ℤ};
    ghost use Rattle.batch_job.specs.SeriesValues.{Series};
    ghost use Rattle.batch_job.specs.PendingSeries.{KeepTexts, all_values};

    ghost Value = { List (Series × List (ℕ × ℤ)) };

    ghost view = { λ g. all_values g.series.entries };

    ghost invariant = { λ g. KeepTexts g.series.entries };
}

impl Gathered {
    /// No points.
    pub fn make(alloc: Global) -> Gathered
        ensures { (s : Seen) → IsNaming no_names s → Gathers [] (so_far s result) }
    {
        Gathered {
            series: IndexMap::new(alloc),
            places: Guesses::make(alloc),
            round: Round::make(),
        }
    }

    /// Reads the text of one more line, which may be blank, a point or neither. The rule for new names is one that allows each of
    /// them.
    ///
    /// A series is known by the text by which it came last: then neither its names nor its tags are read again. After a fault what
    /// was gathered is as it was; some of the line's names may have got their ids.
    pub fn add_text<R: Rows + Drop>(
        &mut self,
        alloc: Global,
        store: &mut Uids<R>,
        rule: &UidRule,
        text: &[u8],
    ) -> Result<LineOutcome, RowsFault>
        requires allows { AllowsAll rule.now.patterns }
        ensures adds { IfOk result (λ outcome. AddsText (so_far (R.seen store.old.rows) self.old) (judged_text text.now) outcome (so_far (R.seen store.new.rows) self.new)) }
        ensures err { OnErr result (self.new ≡ self.old) }
        ensures stops { CountsStops is_stop result (R.stops store.old.rows) (R.stops store.new.rows) }
    {
        if is_blank(text) {
            return Ok(LineOutcome::Blank);
        }
        match parts_of(text) {
            Some(parts) => self.add_parts(alloc, store, rule, text, &parts),
            None => self.add_read(alloc, store, rule, text, None, 0),
        }
    }

    /// Reads a text of these parts, of the series that comes next or of any other.
    #[inline]
    fn add_parts<R: Rows + Drop>(
        &mut self,
        alloc: Global,
        store: &mut Uids<R>,
        rule: &UidRule,
        text: &[u8],
        parts: &TextParts<'_>,
    ) -> Result<LineOutcome, RowsFault>
        requires allows { AllowsAll rule.now.patterns }
        requires parts { HasTextParts text.now parts.now }
        ensures adds { IfOk result (λ outcome. AddsText (so_far (R.seen store.old.rows) self.old) (judged_point (point_of text.now)) outcome (so_far (R.seen store.new.rows) self.new)) }
        ensures err { OnErr result (self.new ≡ self.old) }
        ensures stops { CountsStops is_stop result (R.stops store.old.rows) (R.stops store.new.rows) }
    {
        match self.add_next(parts) {
            Ok(true) => Ok(LineOutcome::Taken),
            Ok(false) => self.add_other(alloc, store, rule, text, parts),
            Err(AllocError) => Err(RowsFault::OutOfMemory),
        }
    }

    /// Reads a text of these parts, of any series.
    fn add_other<R: Rows + Drop>(
        &mut self,
        alloc: Global,
        store: &mut Uids<R>,
        rule: &UidRule,
        text: &[u8],
        parts: &TextParts<'_>,
    ) -> Result<LineOutcome, RowsFault>
        requires allows { AllowsAll rule.now.patterns }
        requires parts { HasTextParts text.now parts.now }
        ensures adds { IfOk result (λ outcome. AddsText (so_far (R.seen store.old.rows) self.old) (judged_point (point_of text.now)) outcome (so_far (R.seen store.new.rows) self.new)) }
        ensures err { OnErr result (self.new ≡ self.old) }
        ensures stops { CountsStops is_stop result (R.stops store.old.rows) (R.stops store.new.rows) }
    {
        let hash = hash_parts(parts);
        match self.add_known(hash, parts) {
            Ok(true) => Ok(LineOutcome::Taken),
            Ok(false) => self.add_read(alloc, store, rule, text, text_of(alloc, parts), hash),
            Err(AllocError) => Err(RowsFault::OutOfMemory),
        }
    }

    /// Adds the value of the parts of a text, where its series is the one that comes next; the answer says whether it is. It fails
    /// only for want of memory.
    #[inline]
    fn add_next(&mut self, parts: &TextParts<'_>) -> Result<bool, AllocError>
        ensures known { IfOk result (λ known. AddsKnown parts.now self.old known self.new) }
        ensures err { OnErr result (self.new ≡ self.old) }
    {
        match self.round.guess() {
            Some(at) => self.add_at(at, parts),
            None => Ok(false),
        }
    }

    /// Adds the value of the parts of a text, where its series is found by them; the answer says whether it is. It fails only for
    /// want of memory.
    #[inline]
    fn add_known(&mut self, hash: u64, parts: &TextParts<'_>) -> Result<bool, AllocError>
        ensures known { IfOk result (λ known. AddsKnown parts.now self.old known self.new) }
        ensures err { OnErr result (self.new ≡ self.old) }
    {
        match self.places.guess(hash) {
            Some(at) => self.add_at(at, parts),
            None => Ok(false),
        }
    }

    /// Adds the value of the parts of a text to the series at a place, where it is known by them; the answer says whether it is. It
    /// fails only for want of memory.
    #[inline]
    fn add_at(&mut self, at: u32, parts: &TextParts<'_>) -> Result<bool, AllocError>
        ensures known { IfOk result (λ known. AddsKnown parts.now self.old known self.new) }
        ensures err { OnErr result (self.new ≡ self.old) }
    {
        self.round.came(at);
        push_known(&mut self.series, at as usize, parts)
    }

    /// Reads a text as a point, and keeps the text by which its series is known, where there is one.
    fn add_read<R: Rows + Drop>(
        &mut self,
        alloc: Global,
        store: &mut Uids<R>,
        rule: &UidRule,
        text: &[u8],
        known: Option<SeriesText>,
        hash: u64,
    ) -> Result<LineOutcome, RowsFault>
        requires allows { AllowsAll rule.now.patterns }
        requires known { (p : DataPoint) → point_of text.now ≡ Reads p → IsKnownBy (series_of_point p) known }
        ensures adds { IfOk result (λ outcome. AddsText (so_far (R.seen store.old.rows) self.old) (judged_point (point_of text.now)) outcome (so_far (R.seen store.new.rows) self.new)) }
        ensures err { OnErr result (self.new ≡ self.old) }
        ensures stops { CountsStops is_stop result (R.stops store.old.rows) (R.stops store.new.rows) }
    {
        match judge(alloc, text) {
            Ok(Judgement::Taken { point }) => {
                match self.add_point(alloc, store, rule, point, known, hash)? {
                    Some(kind) => Ok(LineOutcome::Full { kind }),
                    None => Ok(LineOutcome::Taken),
                }
            }
            Ok(Judgement::Refused { text }) => Ok(LineOutcome::Refused { text }),
            Err(AllocError) => Err(RowsFault::OutOfMemory),
        }
    }

    /// Adds a point, whose series this text reads as. The answer is a kind that has no id left for one of the point's names: that
    /// of the first such name.
    fn add_point<R: Rows + Drop>(
        &mut self,
        alloc: Global,
        store: &mut Uids<R>,
        rule: &UidRule,
        point: Point,
        known: Option<SeriesText>,
        hash: u64,
    ) -> Result<Option<Kind>, RowsFault>
        requires allows { AllowsAll rule.now.patterns }
        requires known { IsKnownBy (series_of_point (data_point point)) known }
        ensures adds { IfOk result (λ full. AddsPoint (so_far (R.seen store.old.rows) self.old) (data_point point) full (so_far (R.seen store.new.rows) self.new)) }
        ensures err { OnErr result (self.new ≡ self.old) }
        ensures stops { CountsStops is_stop result (R.stops store.old.rows) (R.stops store.new.rows) }
    {
        let Point {
            metric,
            tags,
            time,
            fine,
            value,
        } = point;
        // For the proof: these are a name and tags.
        let _ = metric.bytes();
        let _ = tags.pairs();
        let series = ((metric, tags), fine);
        if let Some(at) = place_of(&self.series, &series) {
            keep_place(&mut self.places, &mut self.round, hash, at);
            let Ok(()) = push_at(&mut self.series, &series, at, time, value, known) else {
                return Err(RowsFault::OutOfMemory);
            };
            return Ok(None);
        }
        if let Some(kind) = note_series(alloc, store, rule, &series.0.0, &series.0.1)? {
            return Ok(Some(kind));
        }
        let Ok(()) = self.begin(alloc, series, time, value, known, hash) else {
            return Err(RowsFault::OutOfMemory);
        };
        Ok(None)
    }

    /// Begins a series in one form.
    fn begin(
        &mut self,
        alloc: Global,
        series: ((Name, Tags), bool),
        time: u64,
        value: i64,
        known: Option<SeriesText>,
        hash: u64,
    ) -> Result<(), AllocError>
        requires new { values_in self.old series ≡ Nothing }
        requires known { IsKnownBy series known }
        ensures adds { OnOk result (AddsValue series [] (time, value) self.old self.new) }
        ensures err { OnErr result (self.new ≡ self.old) }
    {
        let at = self.series.len();
        let pending = PendingSeries::make(alloc, time, value, known)?;
        self.series.insert(series, pending)?;
        self.places.grow(at + 1, 0);
        keep_place(&mut self.places, &mut self.round, hash, at);
        Ok(())
    }

    /// The series, each once, in the order in which they first came.
    pub fn into_series(self) -> IndexMap<((Name, Tags), bool), PendingSeries>
        ensures values { all_values result.entries ≡ self }
        ensures found { All (λ e. values_in self e.0 ≡ Found e.1) self }
    {
        let Gathered {
            series,
            places: _,
            round: _,
        } = self;
        // For the proof: no two series are the same.
        let _ = series.iter();
        series
    }
}

/// Adds the value of the parts of a text to the series at a place, where it is known by them; the answer says whether it is. It
/// fails only for want of memory.
#[inline]
fn push_known(
    series: &mut IndexMap<((Name, Tags), bool), PendingSeries>,
    at: usize,
    parts: &TextParts<'_>,
) -> Result<bool, AllocError>
    ensures known { KeepTexts series.old.entries → IfOk result (λ known. AddsKnown parts.now (all_values series.old.entries) known (all_values series.new.entries)) }
    ensures err { OnErr result (all_values series.new.entries ≡ all_values series.old.entries) }
    ensures kept { KeepTexts series.old.entries → KeepTexts series.new.entries }
{
    match series.get_index_mut(at) {
        Some(pending) => pending.push_of(parts),
        None => Ok(false),
    }
}

/// Remembers where a series is that came.
fn keep_place(places: &mut Guesses<u32>, round: &mut Round, hash: u64, at: usize) {
    if let Ok(at) = u32::try_from(at) {
        places.keep(hash, at);
        round.came(at);
    }
}

/// The place of a series.
fn place_of(
    all: &IndexMap<((Name, Tags), bool), PendingSeries>,
    series: &((Name, Tags), bool),
) -> Option<usize>
    ensures { MatchOption result (values_in (all_values all.now.entries) series.now ≡ Nothing) (StandsAt all.now.entries series.now) }
{
    match all.get_full(series) {
        Some(found) => Some(found.0),
        None => None,
    }
}

/// Adds a value to the series at its place, and keeps the text by which it is known, where there is one. It fails only for want of
/// memory.
fn push_at(
    all: &mut IndexMap<((Name, Tags), bool), PendingSeries>,
    series: &((Name, Tags), bool),
    at: usize,
    time: u64,
    value: i64,
    known: Option<SeriesText>,
) -> Result<(), AllocError>
    requires at { StandsAt all.old.entries series.now at }
    requires known { IsKnownBy series.now known }
    ensures adds { OnOk result (AddsAt all.old.entries series.now (time, value) all.new.entries) }
    ensures err { OnErr result (all_values all.new.entries ≡ all_values all.old.entries) }
    ensures kept { KeepTexts all.old.entries → KeepTexts all.new.entries }
{
    match all.get_index_mut(at) {
        Some(pending) => pending.push(time, value, known),
        None => unreachable!(),
    }
}
