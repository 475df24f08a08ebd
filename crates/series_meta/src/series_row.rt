//! The row of a series, by the ids of its names.
ghost use Rattle.std.specs.Prelude.{◌≡◌, ◌≢◌, ◌≤◌, ◌<◌, ◌+◌, ◌++◌, [], ◌∷◌, All, IfOk, drop, length, take};
ghost use Rattle.std.specs.List.Sorted.{IsPermutation};
ghost use Rattle.arrayvec.specs.ArrayVec.{array_vec_len};
ghost use Rattle.tsd_base.specs.TagList.{IsTags};
ghost use Rattle.tsd_base.specs.declared.times.TheConstants.{LAST_TIME};
ghost use Rattle.row_key.specs.Key.{IsKey};
ghost use Rattle.cell_model.specs.Layout.{tag_names};
ghost use Rattle.cell_model.specs.Calls.{Leaves};
ghost use Rattle.cell_model.specs.Seen.{IsPossible};
ghost use Rattle.uid_table.specs.Shown.{HasShown};
ghost use Rattle.uid_table.specs.ShownKeys.{IdsShown, PairsShown, Rising};
ghost use Rattle.point_put.specs.ShownIds.{StandsAt};
ghost use Rattle.metric_scan.specs.AskFaults.{is_stop};
ghost use Rattle.metric_scan.specs.ResolvedIds.{Resolves};
ghost use Rattle.series_meta.specs.SeriesRows.{IsShownKey, series_id, series_names};

use arrayvec::ArrayVec;
use cell_model::Rows;
use metric_scan::AskFault;
use qual_codec::Bytes;
use row_hours::base_of;
use row_key::{RowKey, Widths, write_key};
use std::alloc::{AllocError, Global};
use tsd_base::kinds::Kind;
use tsd_base::names::Name;
use tsd_base::tags::Tags;
use uid_table::id_answers::ResolveFault;
use uid_table::uids::Uids;

/// The id of a name, by one read, or by none where it is kept.
fn resolve_name<R: Rows + Drop>(
    alloc: Global,
    names: &mut Uids<R>,
    kind: Kind,
    name: &Name,
) -> Result<u32, AskFault>
    ensures says { Resolves (R.seen names.old.rows) ((kind, name.now) ∷ []) (λ s id. HasShown s kind name.now id) result (R.seen names.new.rows) }
    ensures leaves { Leaves is_stop result (R.seen names.new.rows) (R.stops names.old.rows) (R.stops names.new.rows) }
{
    match names.resolve(alloc, kind, name) {
        Ok(id) => Ok(id),
        Err(ResolveFault::Unknown { kind }) => {
            let Ok(name) = name.again(alloc) else {
                return Err(AskFault::OutOfMemory);
            };
            Err(AskFault::Unknown { kind, name })
        }
        Err(ResolveFault::OutOfMemory) => Err(AskFault::OutOfMemory),
        Err(ResolveFault::Stopped) => Err(AskFault::Stopped),
    }
}

/// Where a pair of this id would stand among pairs that rise by their first ids.
fn place_of(pairs: &[(u32, u32)], id: u32) -> usize
    requires rising { Rising pairs.now }
    requires new { All (λ p. p.0 ≢ id) pairs.now }
    ensures { StandsAt pairs.now id result }
{
    for (at, pair) in pairs.iter().enumerate() {
        if pair.0 > id {
            return at;
        }
    }
    pairs.len()
}

/// Adds a pair to pairs that rise by their first ids.
fn add_pair(pairs: &mut ArrayVec<(u32, u32), 8>, pair: (u32, u32))
    requires rising { Rising pairs.old.items }
    requires new { All (λ p. p.0 ≢ pair.0) pairs.old.items }
    requires room { array_vec_len pairs.old < 8 }
    ensures rising { Rising pairs.new.items }
    ensures permuted { IsPermutation (pair ∷ pairs.old.items) pairs.new.items }
{
    let at = place_of(pairs.as_slice(), pair.0);
    pairs.insert(at, pair);
}

/// The ids of a tag.
fn tag_ids<R: Rows + Drop>(
    alloc: Global,
    names: &mut Uids<R>,
    tag: &(Name, Name),
) -> Result<(u32, u32), AskFault>
    ensures says { Resolves (R.seen names.old.rows) (tag_names (tag.now ∷ [])) (λ s ids. IdsShown s tag.now ids) result (R.seen names.new.rows) }
    ensures leaves { Leaves is_stop result (R.seen names.new.rows) (R.stops names.old.rows) (R.stops names.new.rows) }
{
    let key = resolve_name(alloc, names, Kind::TagKey, &tag.0)?;
    let value = resolve_name(alloc, names, Kind::TagValue, &tag.1)?;
    Ok((key, value))
}

/// The ids of tags, rising by those of their keys.
fn pairs_of<R: Rows + Drop>(
    alloc: Global,
    names: &mut Uids<R>,
    tags: &[(Name, Name)],
) -> Result<ArrayVec<(u32, u32), 8>, AskFault>
    requires tags { IsTags tags.now }
    requires possible { IsPossible (R.seen names.old.rows) }
    ensures says { Resolves (R.seen names.old.rows) (tag_names tags.now) (λ s pairs. PairsShown s tags.now pairs.items) result (R.seen names.new.rows) }
    ensures leaves { Leaves is_stop result (R.seen names.new.rows) (R.stops names.old.rows) (R.stops names.new.rows) }
{
    let mut pairs = ArrayVec::new();
    for tag in tags {
        let pair = tag_ids(alloc, names, tag)?;
        add_pair(&mut pairs, pair);
    }
    Ok(pairs)
}

/// The key of the row of a series in the hour of a moment, whose names are resolved in their order.
pub(crate) fn series_key<R: Rows + Drop>(
    alloc: Global,
    names: &mut Uids<R>,
    metric: &Name,
    tags: &Tags,
    now: u64,
) -> Result<RowKey, AskFault>
    requires { now ≤ LAST_TIME }
    ensures says { Resolves (R.seen names.old.rows) (series_names metric.now tags.now) (λ s key. IsShownKey s metric.now tags.now now key) result (R.seen names.new.rows) }
    ensures leaves { Leaves is_stop result (R.seen names.new.rows) (R.stops names.old.rows) (R.stops names.new.rows) }
{
    let id = resolve_name(alloc, names, Kind::Metric, metric)?;
    let pairs = pairs_of(alloc, names, tags.pairs())?;
    Ok(RowKey {
        metric: id,
        base: base_of(now),
        pairs,
    })
}

/// Adds bytes, for which there is room.
fn add_bytes(made: &mut ArrayVec<u8, 72>, bytes: &[u8])
    requires { array_vec_len made.old + length bytes.now ≤ 72 }
    ensures items { made.new.items ≡ made.old.items ++ bytes.now }
    ensures len { array_vec_len made.new ≡ array_vec_len made.old + length bytes.now }
{
    let Ok(()) = made.try_extend_from_slice(bytes) else {
        unreachable!()
    };
}

/// The bytes of a row without those of its hour, where the ids of metrics have so many bytes.
fn without_hour(alloc: Global, bytes: &[u8], metric_width: u8) -> Result<Bytes, AllocError>
    requires least { metric_width + 4 ≤ length bytes.now }
    requires most { length bytes.now ≤ 72 }
    ensures { IfOk result (λ made. made ≡ take metric_width bytes.now ++ drop (metric_width + 4) bytes.now) }
{
    let at = metric_width as usize;
    let mut made = ArrayVec::new();
    add_bytes(&mut made, &bytes[..at]);
    add_bytes(&mut made, &bytes[at + 4..]);
    Bytes::of(alloc, made.as_slice())
}

/// The identifier of a key's series: the bytes of the row without those of its hour.
pub(crate) fn series_id(alloc: Global, key: &RowKey, widths: Widths) -> Result<Bytes, AllocError>
    requires { IsKey widths key.now }
    ensures { IfOk result (λ bytes. bytes ≡ series_id widths key.now) }
{
    let row = write_key(key, widths);
    without_hour(alloc, row.as_slice(), widths.metric)
}
