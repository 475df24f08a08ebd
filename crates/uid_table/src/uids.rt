//! Rows with the ids of names.
ghost use Rattle.std.specs.Prelude.{◌≡◌, ◌≤◌, [], IfOk, IfErr, IfSome};
ghost use Rattle.cell_model.specs.Stops.{CountsStops, is_stop};
ghost use Rattle.cell_model.specs.Calls.{Leaves};
ghost use Rattle.uid_table.specs.IdAnswers.{answered_id, is_resolve_stop, is_assign_stop};
ghost use Rattle.uid_table.specs.Shown.{HasShown, KnowsName, HasShownName};
ghost use Rattle.tsd_base.specs.Alphabet.{IsName};
ghost use Rattle.cell_model.specs.IdRows.{name_row};
ghost use Rattle.lru.specs.LruCache.{lru_cache};
ghost use Rattle.uid_table.specs.Cache.{KeepsIds, KeepsNames, StaysWithin};
ghost use Rattle.uid_table.specs.KnownSeries.{IsShownSeries};
ghost use Rattle.uid_table.specs.Suggest.{AllLooks, Suggests};
ghost use Rattle.uid_table.specs.IdSteps.{MadeSo, ResolveMade, AssignMade, NameMade};

use crate::assign::look_or_give;
use crate::cache::{
    IdKey, Ids, NameKey, Names, forget, keep_id, keep_name, kept_id, kept_name, name_key,
    nothing_kept,
};
use crate::id_answers::{AssignFault, Assigned, ResolveFault};
use crate::id_name::name_in;
use crate::id_reads::look;
use crate::known_series::{KnownSeries, SeriesTable};
use crate::suggest::suggest_in;
use cell_model::answers::{Bumped, Claimed, RowsFault, Stopped};
use cell_model::row::{Cells, Drops, Found, Row};
use cell_model::rows::Rows;
use qual_codec::Bytes;
use row_key::{Table, Widths};
use std::alloc::{AllocError, Global};
use std::marker::Model;
use tsd_base::kinds::Kind;
use tsd_base::names::Name;
use tsd_base::points::Point;
use tsd_hooks::UidRule;

/// How many pairs of a name and its id the callers of a program keep, which is what [`Uids::over`] is given.
pub const KEPT_PAIRS: u32 = 10_000;

/// Rows, with calls that give ids to names and find the names of ids.
///
/// Pairs of a name and its id are kept, so that they needn't be read again: those that `resolve` and `assign` found or gave,
/// by the name, and those that `name_of` found, by the id. Of either, at most the number that [`Uids::over`] was given are
/// kept, of all kinds together, and for one more the least recently used goes. A pair for which there is no memory isn't
/// kept. An id stays its name's, so what is kept stays true whatever other callers do.
///
/// Series are kept too, by the texts of their metric and tags ([`Uids::take_series`]), up to 262,144 of them.
///
/// It is itself [`Rows`], and passes each step on. Contracts see it as the rows and the two lists of pairs that are kept.
#[derive(Drop)]
pub struct Uids<R: Rows + Drop> {
    rows: R,
    ids: Ids,
    names: Names,
    series: SeriesTable,
}

impl<R: Rows + Drop> Model for Uids<R> {
    ghost use Rattle.uid_table.specs.Cache.{IsCapped, KeepsIds, KeepsNames};
    ghost use Rattle.uid_table.specs.KnownSeries.{KeepsSeries};
    ghost use Rattle.uid_table.specs.NamedRows.{NamedRows};

    ghost Value = { NamedRows R };

    ghost view = { λ u. record { rows = u.rows; ids = u.ids; names = u.names } };

    ghost invariant = { λ u. KeepsIds (R.seen u.rows) u.ids.entries × KeepsNames (R.seen u.rows) u.names.entries × KeepsSeries (R.seen u.rows) u.series × IsCapped u.ids u.names };
}

impl<R: Rows + Drop> Uids<R> {
    /// The rows, with at most `cap` pairs kept by name, and at most `cap` by id. It is from 1 to 1,000,000.
    ///
    /// No pair is kept yet, and memory for a pair is taken when it comes. Where there is none for the two empty caches, the
    /// rows are handed back as they were.
    pub fn over(alloc: Global, rows: R, cap: u32) -> Result<Uids<R>, (AllocError, R)>
        requires least { 1 ≤ cap }
        requires most { cap ≤ 1000000 }
        ensures ok { IfOk result (λ uids. uids ≡ record { rows = rows; ids = lru_cache [] cap; names = lru_cache [] cap }) }
        ensures err { IfErr result (λ refused. refused.1 ≡ rows) }
    {
        match nothing_kept(alloc, cap) {
            Ok((ids, names)) => Ok(Uids {
                rows,
                ids,
                names,
                series: SeriesTable::make(alloc),
            }),
            Err(refused) => Err((refused, rows)),
        }
    }

    /// The rows.
    pub fn part(self) -> R
        ensures { result ≡ self.rows }
    {
        let Uids {
            rows,
            ids: _,
            names: _,
            series: _,
        } = self;
        rows
    }

    /// Forgets the pairs and the series that are kept, so that each is read anew. How many may be kept stays as it is.
    pub fn drop_cache(&mut self)
        ensures { self.new ≡ record self.old { ids = lru_cache [] self.old.ids.cap; names = lru_cache [] self.old.names.cap } }
    {
        forget(&mut self.ids, &mut self.names);
        self.series.clear();
    }

    /// Takes out the series of these texts, where it is kept: of the metric, and of what stands behind the value of a point. It goes
    /// back by [`Uids::keep_series`].
    #[inline]
    pub fn take_series(&mut self, metric: &[u8], tags: &[u8]) -> Option<Box<KnownSeries>>
        ensures same { self.new ≡ self.old }
        ensures shown { IfSome result (λ b. IsShownSeries (R.seen self.old.rows) b.value) }
        ensures metric { IfSome result (λ b. b.value.metric ≡ metric.now) }
        ensures tags { IfSome result (λ b. b.value.tags ≡ tags.now) }
    {
        self.series.take(metric, tags)
    }

    /// Keeps a series that was taken out.
    #[inline]
    pub fn keep_series(&mut self, known: Box<KnownSeries>)
        requires { IsShownSeries (R.seen self.old.rows) known.value }
        ensures { self.new ≡ self.old }
    {
        self.series.keep(known);
    }

    /// Keeps one more series. A later one may take its place.
    pub fn add_series(&mut self, known: Box<KnownSeries>)
        requires { IsShownSeries (R.seen self.old.rows) known.value }
        ensures { self.new ≡ self.old }
    {
        self.series.add(known);
    }

    /// The id of a name, by one read, or by none where the pair is kept.
    ///
    /// `Unknown` exactly where that read found no cell of this kind for the name, which is not kept. What it found is kept.
    pub fn resolve(&mut self, alloc: Global, kind: Kind, name: &Name) -> Result<u32, ResolveFault>
        ensures made { MadeSo (R.seen self.old.rows) (ResolveMade (R.seen self.old.rows).base.widths kind name.now result) (R.seen self.new.rows) }
        ensures id { IfOk result (HasShown (R.seen self.new.rows) kind name.now) }
        ensures leaves { Leaves is_resolve_stop result (R.seen self.new.rows) (R.stops self.old.rows) (R.stops self.new.rows) }
        ensures kept_ids { StaysWithin self.old.ids self.new.ids }
        ensures kept_names { self.new.names ≡ self.old.names }
    {
        let Ok(key) = name_key(alloc, kind, name) else {
            return Err(ResolveFault::OutOfMemory);
        };
        resolve_in(&mut self.rows, &mut self.ids, alloc, key)
    }

    /// The id of a name, which is given one where it has none and the rule allows it.
    ///
    /// Where the pair is kept it is `Existing`, by no step. Else it reads the cell of the name. Where there is none the rule
    /// is asked. A name that it doesn't allow is `Filtered`, by no further step; a name that has an id is never asked of it.
    /// For one that it allows it bumps the counter of the kind, claims the new id for the name, and then the name with this id. Where another caller was
    /// faster with the last of these, the name has the other's id, and the own one is nobody's. The id that the name has is
    /// kept. What was done before a fault stays done.
    pub fn assign(
        &mut self,
        alloc: Global,
        rule: &UidRule,
        kind: Kind,
        name: &Name,
    ) -> Result<Assigned, AssignFault>
        ensures made { MadeSo (R.seen self.old.rows) (AssignMade (R.seen self.old.rows).base.widths rule.now.patterns kind name.now result) (R.seen self.new.rows) }
        ensures id { IfOk result (λ a. HasShown (R.seen self.new.rows) kind name.now (answered_id a)) }
        ensures leaves { Leaves is_assign_stop result (R.seen self.new.rows) (R.stops self.old.rows) (R.stops self.new.rows) }
        ensures kept_ids { StaysWithin self.old.ids self.new.ids }
        ensures kept_names { self.new.names ≡ self.old.names }
    {
        let Ok(key) = name_key(alloc, kind, name) else {
            return Err(AssignFault::OutOfMemory);
        };
        assign_in(&mut self.rows, &mut self.ids, alloc, rule, name, key)
    }

    /// The name of an id that a name is known to have, by one read, or by none where the pair is kept.
    ///
    /// What it found is kept. Where there was no memory for the name, that read may have been made.
    pub fn name_of(&mut self, alloc: Global, kind: Kind, id: u32) -> Result<Name, RowsFault>
        requires { KnowsName (R.seen self.old.rows) kind id }
        ensures made { MadeSo (R.seen self.old.rows) (NameMade (R.seen self.old.rows).base.widths kind id result) (R.seen self.new.rows) }
        ensures name { IfOk result (HasShownName (R.seen self.new.rows) kind id) }
        ensures leaves { Leaves is_stop result (R.seen self.new.rows) (R.stops self.old.rows) (R.stops self.new.rows) }
        ensures kept_ids { self.new.ids ≡ self.old.ids }
        ensures kept_names { StaysWithin self.old.names self.new.names }
    {
        name_of_in(&mut self.rows, &mut self.names, alloc, IdKey { kind, id })
    }

    /// The first names of a kind that begin with a prefix, in byte order, at most `max` of them, which is from 1 to 10,000.
    ///
    /// They are the first of a set that has each such name which had an id before the call, and none that has no id after it.
    pub fn suggest(
        &mut self,
        alloc: Global,
        kind: Kind,
        prefix: &[u8],
        max: u32,
    ) -> Result<Vec<Name>, RowsFault>
        requires least { 1 ≤ max }
        requires most { max ≤ 10000 }
        ensures names { IfOk result (λ names. Suggests (R.seen self.old.rows) kind prefix.now max names.items (R.seen self.new.rows)) }
        ensures made { MadeSo (R.seen self.old.rows) AllLooks (R.seen self.new.rows) }
        ensures stops { CountsStops is_stop result (R.stops self.old.rows) (R.stops self.new.rows) }
        ensures kept_ids { self.new.ids ≡ self.old.ids }
        ensures kept_names { self.new.names ≡ self.old.names }
    {
        suggest_in(&mut self.rows, alloc, kind, prefix, max)
    }
}

/// The id of the name of a key, by what is kept or by a read.
fn resolve_in<R: Rows>(
    rows: &mut R,
    ids: &mut Ids,
    alloc: Global,
    key: NameKey,
) -> Result<u32, ResolveFault>
    requires row { key.row ≡ name_row key.row.bytes }
    requires named { IsName key.row.bytes }
    requires kept { KeepsIds (R.seen rows.old) ids.old.entries }
    ensures made { MadeSo (R.seen rows.old) (ResolveMade (R.seen rows.old).base.widths key.kind key.row.bytes result) (R.seen rows.new) }
    ensures id { IfOk result (HasShown (R.seen rows.new) key.kind key.row.bytes) }
    ensures leaves { Leaves is_resolve_stop result (R.seen rows.new) (R.stops rows.old) (R.stops rows.new) }
    ensures kept { KeepsIds (R.seen rows.new) ids.new.entries }
    ensures cap { StaysWithin ids.old ids.new }
{
    match kept_id(ids, &key) {
        Some(id) => Ok(id),
        None => resolve_anew(rows, ids, alloc, key),
    }
}

/// The id of the name of a key, by a read. It is kept.
fn resolve_anew<R: Rows>(
    rows: &mut R,
    ids: &mut Ids,
    alloc: Global,
    key: NameKey,
) -> Result<u32, ResolveFault>
    requires row { key.row ≡ name_row key.row.bytes }
    requires named { IsName key.row.bytes }
    requires kept { KeepsIds (R.seen rows.old) ids.old.entries }
    ensures made { MadeSo (R.seen rows.old) (ResolveMade (R.seen rows.old).base.widths key.kind key.row.bytes result) (R.seen rows.new) }
    ensures id { IfOk result (HasShown (R.seen rows.new) key.kind key.row.bytes) }
    ensures leaves { Leaves is_resolve_stop result (R.seen rows.new) (R.stops rows.old) (R.stops rows.new) }
    ensures kept { KeepsIds (R.seen rows.new) ids.new.entries }
    ensures cap { StaysWithin ids.old ids.new }
{
    let kind = key.kind;
    let shown = look(rows, alloc, kind, &key.row)?;
    match shown {
        Some(id) => {
            keep_id(ids, key, id);
            Ok(id)
        }
        None => Err(ResolveFault::Unknown { kind }),
    }
}

/// The id of the name of a key, by what is kept, by a read, or by a giving.
fn assign_in<R: Rows>(
    rows: &mut R,
    ids: &mut Ids,
    alloc: Global,
    rule: &UidRule,
    name: &Name,
    key: NameKey,
) -> Result<Assigned, AssignFault>
    requires row { key.row ≡ name_row key.row.bytes }
    requires named { IsName key.row.bytes }
    requires same { key.row.bytes ≡ name.now }
    requires kept { KeepsIds (R.seen rows.old) ids.old.entries }
    ensures made { MadeSo (R.seen rows.old) (AssignMade (R.seen rows.old).base.widths rule.now.patterns key.kind key.row.bytes result) (R.seen rows.new) }
    ensures id { IfOk result (λ a. HasShown (R.seen rows.new) key.kind key.row.bytes (answered_id a)) }
    ensures leaves { Leaves is_assign_stop result (R.seen rows.new) (R.stops rows.old) (R.stops rows.new) }
    ensures kept { KeepsIds (R.seen rows.new) ids.new.entries }
    ensures cap { StaysWithin ids.old ids.new }
{
    match kept_id(ids, &key) {
        Some(id) => Ok(Assigned::Existing { id }),
        None => assign_anew(rows, ids, alloc, rule, name, key),
    }
}

/// The id of the name of a key, by a read or by a giving. It is kept.
fn assign_anew<R: Rows>(
    rows: &mut R,
    ids: &mut Ids,
    alloc: Global,
    rule: &UidRule,
    name: &Name,
    key: NameKey,
) -> Result<Assigned, AssignFault>
    requires row { key.row ≡ name_row key.row.bytes }
    requires named { IsName key.row.bytes }
    requires same { key.row.bytes ≡ name.now }
    requires kept { KeepsIds (R.seen rows.old) ids.old.entries }
    ensures made { MadeSo (R.seen rows.old) (AssignMade (R.seen rows.old).base.widths rule.now.patterns key.kind key.row.bytes result) (R.seen rows.new) }
    ensures id { IfOk result (λ a. HasShown (R.seen rows.new) key.kind key.row.bytes (answered_id a)) }
    ensures leaves { Leaves is_assign_stop result (R.seen rows.new) (R.stops rows.old) (R.stops rows.new) }
    ensures kept { KeepsIds (R.seen rows.new) ids.new.entries }
    ensures cap { StaysWithin ids.old ids.new }
{
    let assigned = look_or_give(rows, alloc, rule, key.kind, name, &key.row)?;
    keep_id(ids, key, assigned.id());
    Ok(assigned)
}

/// The name of the id of a key, by what is kept or by a read.
fn name_of_in<R: Rows>(
    rows: &mut R,
    names: &mut Names,
    alloc: Global,
    key: IdKey,
) -> Result<Name, RowsFault>
    requires known { KnowsName (R.seen rows.old) key.kind key.id }
    requires kept { KeepsNames (R.seen rows.old) names.old.entries }
    ensures made { MadeSo (R.seen rows.old) (NameMade (R.seen rows.old).base.widths key.kind key.id result) (R.seen rows.new) }
    ensures name { IfOk result (HasShownName (R.seen rows.new) key.kind key.id) }
    ensures leaves { Leaves is_stop result (R.seen rows.new) (R.stops rows.old) (R.stops rows.new) }
    ensures kept { KeepsNames (R.seen rows.new) names.new.entries }
    ensures cap { StaysWithin names.old names.new }
{
    match kept_name(names, alloc, key) {
        Ok(Some(name)) => Ok(name),
        Ok(None) => name_anew(rows, names, alloc, key),
        Err(AllocError) => Err(RowsFault::OutOfMemory),
    }
}

/// The name of the id of a key, by a read. It is kept.
fn name_anew<R: Rows>(
    rows: &mut R,
    names: &mut Names,
    alloc: Global,
    key: IdKey,
) -> Result<Name, RowsFault>
    requires known { KnowsName (R.seen rows.old) key.kind key.id }
    requires kept { KeepsNames (R.seen rows.old) names.old.entries }
    ensures made { MadeSo (R.seen rows.old) (NameMade (R.seen rows.old).base.widths key.kind key.id result) (R.seen rows.new) }
    ensures name { IfOk result (HasShownName (R.seen rows.new) key.kind key.id) }
    ensures leaves { Leaves is_stop result (R.seen rows.new) (R.stops rows.old) (R.stops rows.new) }
    ensures kept { KeepsNames (R.seen rows.new) names.new.entries }
    ensures cap { StaysWithin names.old names.new }
{
    let name = name_in(rows, alloc, key.kind, key.id)?;
    keep_name(names, alloc, key, &name);
    Ok(name)
}

impl<R: Rows + Drop> Rows for Uids<R> {
    ghost seen = { λ u. R.seen u.rows };

    ghost stops = { λ u. R.stops u.rows };

    ghost spare = { λ u. R.spare u.rows };

    fn widths(&self) -> Widths {
        self.rows.widths()
    }

    fn read(&mut self, alloc: Global, row: &Row) -> Result<Cells, RowsFault> {
        self.rows.read(alloc, row)
    }

    fn next_row(
        &mut self,
        alloc: Global,
        table: Table,
        from: &Bytes,
        to: &Bytes,
    ) -> Result<Option<Found>, RowsFault> {
        self.rows.next_row(alloc, table, from, to)
    }

    fn bump(&mut self, kind: Kind) -> Result<Bumped, Stopped> {
        self.rows.bump(kind)
    }

    fn claim(
        &mut self,
        alloc: Global,
        row: &Row,
        qual: &Bytes,
        value: &Bytes,
    ) -> Result<Claimed, RowsFault> {
        self.rows.claim(alloc, row, qual, value)
    }

    #[inline(always)]
    fn put_point(
        &mut self,
        alloc: Global,
        point: &Point,
        row: &Row,
        qual: &Bytes,
        value: &Bytes,
    ) -> Result<(), RowsFault> {
        self.rows.put_point(alloc, point, row, qual, value)
    }

    #[inline(always)]
    fn append_point(
        &mut self,
        alloc: Global,
        point: &Point,
        row: &Row,
        piece: &Bytes,
    ) -> Result<(), RowsFault> {
        self.rows.append_point(alloc, point, row, piece)
    }

    fn put_merged(
        &mut self,
        alloc: Global,
        row: &Row,
        qual: &Bytes,
        value: &Bytes,
    ) -> Result<(), RowsFault> {
        self.rows.put_merged(alloc, row, qual, value)
    }

    fn drop_cells(&mut self, row: Row, which: Drops) -> Result<u64, Stopped> {
        self.rows.drop_cells(row, which)
    }
}
