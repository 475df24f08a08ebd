//! The ids of each kind that are left.
ghost use Rattle.std.specs.Prelude.{◌≡◌, ◌≤◌};
ghost use Rattle.row_key.specs.IdWidths.{IsWidth, most_ids};
ghost use Rattle.listing_print.specs.IdsLeft.{AreIds, all_ids, first_of, least_of, lesser, passed_all, up_to, without};

use cell_model::Body;
use qual_codec::Bytes;
use row_key::{Widths, id_bytes};

/// The ids of a kind that are left: from one on up to the last one.
#[derive(Clone, Copy, Debug, PartialEq, Eq)]
pub(crate) struct Left {
    pub(crate) next: u64,
    pub(crate) last: u64,
}

/// The ids that are left of each kind.
#[derive(Clone, Copy, Debug, PartialEq, Eq)]
pub(crate) struct IdsLeft {
    pub(crate) metric: Left,
    pub(crate) tag_key: Left,
    pub(crate) tag_value: Left,
}

/// All ids of each kind of a store, up to its counter.
pub(crate) fn all_ids<B: Body>(body: &B) -> IdsLeft
    ensures { result ≡ all_ids (B.content body.now) }
{
    let counters = body.tally().ids;
    IdsLeft {
        metric: up_to(counters[0]),
        tag_key: up_to(counters[1]),
        tag_value: up_to(counters[2]),
    }
}

/// The ids of a kind with so many.
fn up_to(count: u64) -> Left
    ensures { result ≡ up_to count }
{
    Left {
        next: 1,
        last: count,
    }
}

/// The bytes of the first id that is left, if there is one.
fn first_of(width: u8, left: Left) -> Option<Bytes>
    requires width { IsWidth width }
    requires most { left.last ≤ most_ids width }
    ensures { result ≡ first_of width left }
{
    if left.next <= left.last {
        let bytes = id_bytes(left.next as u32, width);
        Some(Bytes::short(bytes.as_slice()))
    } else {
        None
    }
}

/// The lesser of two, where both are there.
fn lesser(one: Option<Bytes>, other: Option<Bytes>) -> Option<Bytes>
    ensures { result ≡ lesser one other }
{
    let Some(a) = one else {
        return other;
    };
    let Some(b) = other else {
        return Some(a);
    };
    if b.list().cmp(a.list()).is_lt() {
        Some(b)
    } else {
        Some(a)
    }
}

/// The least bytes of an id that is left, if there is one.
pub(crate) fn least_of(widths: Widths, ids: IdsLeft) -> Option<Bytes>
    requires { AreIds widths ids }
    ensures { result ≡ least_of widths ids }
{
    let metric = first_of(widths.metric, ids.metric);
    let tag_key = first_of(widths.tag_key, ids.tag_key);
    let tag_value = first_of(widths.tag_value, ids.tag_value);
    lesser(lesser(metric, tag_key), tag_value)
}

/// The ids of a kind without the first one, where its bytes are these.
fn without(width: u8, left: Left, bytes: &[u8]) -> Left
    requires width { IsWidth width }
    requires most { left.last ≤ most_ids width }
    ensures { result ≡ without width left bytes.now }
{
    if let Some(first) = first_of(width, left) {
        if first.list() == bytes {
            return Left {
                next: left.next + 1,
                last: left.last,
            };
        }
    }
    left
}

/// The ids of each kind without those whose bytes these are.
pub(crate) fn passed_all(widths: Widths, ids: IdsLeft, bytes: &[u8]) -> IdsLeft
    requires { AreIds widths ids }
    ensures { result ≡ passed_all widths ids bytes.now }
{
    IdsLeft {
        metric: without(widths.metric, ids.metric, bytes),
        tag_key: without(widths.tag_key, ids.tag_key, bytes),
        tag_value: without(widths.tag_value, ids.tag_value, bytes),
    }
}
