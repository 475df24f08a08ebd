//! The key of a point row, as numbers and as bytes.
ghost use Rattle.std.specs.Prelude.{◌≡◌, ℕ, ◌+◌, ◌*◌, ◌<◌, ◌≤◌, ◌↔◌, ◌++◌, [], ◌∷◌, length, take, drop, All, IsTrue, Result};
ghost use Rattle.std.specs.List.{flat_map};
ghost use Rattle.row_key.specs.IdWidths.{most_ids};
ghost use Rattle.row_key.specs.Key.{CountsPairs, HasParts, HasZeroId, IsKey, ReadsAs, Rises, Small, hour_len, key_bytes, pair_bytes, pair_len};

use crate::ids::{id_of, push_all, push_id};
use crate::widths::Widths;
use arrayvec::ArrayVec;
use row_hours::HOUR;

/// The key of a point row: the data points of one series in one hour.
#[derive(Debug, PartialEq, Eq, PartialOrd, Ord, Drop)]
pub struct RowKey {
    /// The id of the metric, from 1 to the greatest of its width.
    pub metric: u32,
    /// The second at which the hour begins, counted from the start of 1970: a multiple of [`HOUR`].
    pub base: u32,
    /// For each tag, of which there are 1 to 8, the id of its key and that of its value, rising by the first.
    pub pairs: ArrayVec<(u32, u32), 8>,
}

/// What keeps some bytes from being the key of a point row.
#[derive(Clone, Copy, Debug, PartialEq, Eq)]
pub enum KeyFault {
    /// The row hasn't as many bytes as a metric, a base and n tags, for any n from 0 to 8.
    Length,
    /// The row has as many bytes as a metric and a base, and no tag.
    NoPairs,
    /// An id is 0.
    ZeroId,
    /// The base is no multiple of [`HOUR`].
    BaseNotHour,
    /// The ids of the tags' keys don't rise.
    PairsNotRising,
}

/// The bytes of a key: the metric, the base in 4, and for each tag the id of its key and that of its value, each id in the bytes of its kind.
/// Each number has its highest byte first. No memory is taken.
pub fn write_key(key: &RowKey, widths: Widths) -> ArrayVec<u8, 72>
    requires { IsKey widths key.now }
    ensures { result.items ≡ key_bytes widths key.now }
{
    let mut row = ArrayVec::new();
    push_id(&mut row, widths.metric, key.metric);
    push_all(&mut row, key.base.to_be_bytes().as_slice());
    for pair in key.pairs.as_slice() {
        push_id(&mut row, widths.tag_key, pair.0);
        push_id(&mut row, widths.tag_value, pair.1);
    }
    row
}

/// The ids of the first tag.
fn first_pair(bytes: &[u8], widths: Widths) -> (u32, u32)
    requires { pair_len widths ≤ length bytes.now }
    ensures bytes { pair_bytes widths result ≡ take (pair_len widths) bytes.now }
    ensures small { Small widths result }
{
    let key = widths.tag_key as usize;
    let len = key + widths.tag_value as usize;
    (
        id_of(&bytes[..key], widths.tag_key),
        id_of(&bytes[key..len], widths.tag_value),
    )
}

/// What stands behind the first tag.
fn behind_pair(bytes: &[u8], widths: Widths) -> &[u8]
    requires { pair_len widths ≤ length bytes.now }
    ensures { result.now ≡ drop (pair_len widths) bytes.now }
{
    &bytes[widths.tag_key as usize + widths.tag_value as usize..]
}

/// The ids of the tags.
fn pairs_of(bytes: &[u8], widths: Widths) -> ArrayVec<(u32, u32), 8>
    requires { (n : ℕ) × (n ≤ 8) × (length bytes.now ≡ n * pair_len widths) }
    ensures bytes { bytes.now ≡ flat_map (pair_bytes widths) result.items }
    ensures ids { All (Small widths) result.items }
    ensures len { length result.items * pair_len widths ≡ length bytes.now }
{
    let mut pairs = ArrayVec::new();
    let mut rest = bytes;
    'tags: while !rest.is_empty() {
        pairs.push(first_pair(rest, widths));
        rest = behind_pair(rest, widths);
    }
    pairs
}

/// The numbers of a row that is as long as a key.
fn parts_of(row: &[u8], widths: Widths) -> RowKey
    requires { (n : ℕ) × (1 ≤ n) × (n ≤ 8) × (length row.now ≡ hour_len widths + n * pair_len widths) }
    ensures { HasParts widths row.now result }
{
    let at = widths.metric as usize;
    RowKey {
        metric: id_of(&row[..at], widths.metric),
        base: u32::from_be_bytes([row[at], row[at + 1], row[at + 2], row[at + 3]]),
        pairs: pairs_of(&row[at + 4..], widths),
    }
}

fn has_zero_id(key: &RowKey) -> bool
    ensures { IsTrue result ↔ HasZeroId key.now }
{
    key.metric == 0
        || key
            .pairs
            .as_slice()
            .iter()
            .any(|pair| pair.0 == 0 || pair.1 == 0)
}

fn rises(key: &RowKey) -> bool
    ensures { IsTrue result ↔ Rises key.now }
{
    let pairs = key.pairs.as_slice();
    for i in 1..pairs.len() {
        if pairs[i].0 <= pairs[i - 1].0 {
            return false;
        }
    }
    true
}

/// How many tags a row of so many bytes has, where there is such a number up to 8.
fn pair_count(len: usize, widths: Widths) -> Option<usize>
    ensures { CountsPairs widths len result }
{
    let hour = widths.metric as usize + 4;
    let pair = widths.tag_key as usize + widths.tag_value as usize;
    if len < hour {
        return None;
    }
    let count = (len - hour) / pair;
    if count > 8 || count * pair != len - hour {
        return None;
    }
    Some(count)
}

/// The key whose bytes these are.
///
/// Where they are no key's, the error is the first of these that holds: [`KeyFault::NoPairs`] and [`KeyFault::Length`]
/// by the number of bytes alone, then [`KeyFault::ZeroId`], [`KeyFault::BaseNotHour`] and [`KeyFault::PairsNotRising`].
pub fn read_key(row: &[u8], widths: Widths) -> Result<RowKey, KeyFault>
    // The answer is what the row reads as.
    ensures reads { ReadsAs widths row.now result }
    // It reads as nothing else.
    ensures alone { (answer : Result RowKey KeyFault) → ReadsAs widths row.now answer → answer ≡ result }
{
    let Some(count) = pair_count(row.len(), widths) else {
        return Err(KeyFault::Length);
    };
    if count == 0 {
        return Err(KeyFault::NoPairs);
    }
    let key = parts_of(row, widths);
    if has_zero_id(&key) {
        return Err(KeyFault::ZeroId);
    }
    if key.base % HOUR != 0 {
        return Err(KeyFault::BaseNotHour);
    }
    if !rises(&key) {
        return Err(KeyFault::PairsNotRising);
    }
    Ok(key)
}
