//! The tags of a series.
ghost use Rattle.std.specs.Prelude.{◌≡◌, ◌<◌, ◌≤◌, length, IfOk, MatchResult};
ghost use Rattle.tsd_base.specs.declared.tags.TagsFault.TheVariants.{OutOfMemory};
ghost use Rattle.tsd_base.specs.TagList.{RiseByKey, StandsAt, WouldStandAt, TagsAreOrdered, is_same_tags, tags_cmp};
ghost use Rattle.tsd_base.specs.TagOrder.{is_same_tags_equiv, tags_cmp_total, tags_ties, tags_po, tags_input, same_input};
ghost use Rattle.tsd_base.specs.Tags.{IsTags, GivesTags, Adds, Refuses, tags_of};
ghost use Rattle.std.specs.Prelude.{Some, Ok, IsTrue, refl};
ghost use Rattle.std.specs.Cmp as laws;

use crate::names::Name;
use std::alloc::{AllocError, AllocFailed, Global};
use std::cmp::Ordering;
use std::collections::BTreeMap;
use std::hash::{Hash, Hasher};
use std::marker::Model;

/// The most tags that a point can have.
pub const MOST_TAGS: usize = 8;

/// The 1 to 8 tags of a series: pairs of a key and a value, rising by key.
///
/// Contracts see it as the list of the pairs.
#[derive(Drop)]
pub struct Tags {
    pairs: Vec<(Name, Name)>,
}

impl Model for Tags {
    ghost use Rattle.std.specs.Prelude.{List, ℕ};
    ghost use Rattle.tsd_base.specs.TagList.{IsTags};

    ghost Value = { List (List ℕ × List ℕ) };

    ghost view = { λ t. t.pairs.items };

    ghost invariant = { λ t. IsTags t.pairs.items };
}

/// Why pairs are no tags.
#[derive(Debug, Drop)]
pub enum TagsFault {
    /// There is no pair.
    NoTags,
    /// The first pair, from the left, that has another value than an earlier pair of its key is one of `key`.
    TwoValues { key: Name },
    /// There are `count` distinct keys, more than 8.
    TooManyTags { count: usize },
    /// There was no memory for the tags.
    OutOfMemory,
}

impl From<AllocError> for TagsFault {
    ghost from_gives = { λ _ fault. fault ≡ OutOfMemory };

    fn from(_failed: AllocError) -> TagsFault {
        TagsFault::OutOfMemory
    }
}

impl<T: Drop> From<AllocFailed<T>> for TagsFault {
    ghost from_gives = { λ _ fault. fault ≡ OutOfMemory };

    fn from(_failed: AllocFailed<T>) -> TagsFault {
        TagsFault::OutOfMemory
    }
}

impl Tags {
    /// Makes tags of pairs in any order. A pair that stands twice counts once.
    pub fn build(alloc: Global, pairs: Vec<(Name, Name)>) -> Result<Tags, TagsFault>
        ensures gives { GivesTags result pairs.items }
        ensures tagged { IfOk result IsTags }
    {
        if pairs.is_empty() {
            return Err(TagsFault::NoTags);
        }
        if pairs.len() > MOST_TAGS {
            return many(alloc, pairs);
        }
        if are_tags(&pairs) {
            return Ok(Tags { pairs });
        }
        few(alloc, pairs)
    }

    /// The pairs, rising by key.
    #[inline]
    pub fn pairs(&self) -> &[(Name, Name)]
        ensures pairs { result.now ≡ self.now }
        ensures are_tags { IsTags self.now }
    {
        self.pairs.as_slice()
    }
}

/// Any two tags compare, and only equal ones tie.
pub fn tags_are_ordered()
    ensures { TagsAreOrdered }
{}

impl PartialEq for Tags {
    ghost eq = { is_same_tags };

    ghost laws = { laws.partial_equiv_from_equiv is_same_tags_equiv };

    #[inline]
    fn eq(&self, other: &Self) -> bool {
        self.pairs() == other.pairs()
    }
}

impl Eq for Tags {
    ghost laws = { is_same_tags_equiv };
}

impl PartialOrd for Tags {
    ghost partial_cmp = { λ x y. Some (tags_cmp x y) };

    ghost laws = { tags_po };

    #[inline]
    fn partial_cmp(&self, other: &Self) -> Option<Ordering> {
        Some(self.cmp(other))
    }
}

/// Tags are in the order of their pairs from the left, each by key and then by value.
impl Ord for Tags {
    ghost cmp = { tags_cmp };

    ghost total = { tags_cmp_total };

    ghost matches_partial_cmp = { λ x y. refl };

    ghost matches_eq = { tags_ties };

    #[inline]
    fn cmp(&self, other: &Self) -> Ordering {
        self.pairs().cmp(&other.pairs())
    }
}

impl Hash for Tags {
    ghost hash_input = { tags_input };

    ghost respects_eq = { same_input };

    #[inline]
    fn hash<H: Hasher>(&self, state: &mut H) {
        self.pairs().hash(state);
    }
}

/// The place of a key among pairs that rise by key, or where it would stand.
fn place_of(pairs: &[(Name, Name)], key: &[u8]) -> Result<usize, usize>
    requires { RiseByKey pairs.now }
    ensures { MatchResult result (StandsAt pairs.now key.now) (WouldStandAt pairs.now key.now) }
{
    let mut at = pairs.len();
    while at > 0 {
        match pairs[at - 1].0.bytes().cmp(&key) {
            Ordering::Less => return Err(at),
            Ordering::Equal => return Ok(at - 1),
            Ordering::Greater => at -= 1,
        }
    }
    Err(0)
}

/// Adds a pair to pairs that rise by key.
fn add(sorted: &mut Vec<(Name, Name)>, key: Name, value: Name) -> Result<(), TagsFault>
    requires { RiseByKey sorted.old.items }
    ensures { MatchResult result (λ _. Adds (key, value) sorted.old.items sorted.new.items) (Refuses (key, value) sorted.old.items) }
{
    let text = value.bytes();
    match place_of(sorted, key.bytes()) {
        Ok(at) => {
            let earlier = sorted[at].1.bytes();
            if earlier == text {
                Ok(())
            } else {
                Err(TagsFault::TwoValues { key })
            }
        }
        Err(at) => {
            sorted.insert(at, (key, value))?;
            Ok(())
        }
    }
}

/// Adds a pair to a map of keys to values.
fn add_to_map(map: &mut BTreeMap<Name, Name>, key: Name, value: Name) -> Result<(), TagsFault>
    requires { RiseByKey map.old.entries }
    ensures { MatchResult result (λ _. Adds (key, value) map.old.entries map.new.entries) (Refuses (key, value) map.old.entries) }
{
    let text = value.bytes();
    match map.get(&key) {
        Some(earlier) => {
            let earlier = earlier.bytes();
            if earlier == text {
                Ok(())
            } else {
                Err(TagsFault::TwoValues { key })
            }
        }
        None => {
            map.insert(key, value)?;
            Ok(())
        }
    }
}

/// Whether each key is behind those before it, as most often where few pairs are given.
fn are_tags(pairs: &[(Name, Name)]) -> bool
    ensures { IsTrue result → 1 ≤ length pairs.now → length pairs.now ≤ 8 → (tags_of pairs.now ≡ Ok pairs.now) × IsTags pairs.now }
{
    for i in 0..pairs.len() {
        let _ = pairs[i].1.bytes();
        let Err(at) = place_of(&pairs[..i], pairs[i].0.bytes()) else {
            return false;
        };
        if at < i {
            return false;
        }
    }
    true
}

/// Tags of 1 to 8 pairs, by insertion in order.
fn few(alloc: Global, pairs: Vec<(Name, Name)>) -> Result<Tags, TagsFault>
    requires some { 1 ≤ length pairs.items }
    requires most { length pairs.items ≤ 8 }
    ensures gives { GivesTags result pairs.items }
    ensures tagged { IfOk result IsTags }
{
    let mut sorted = Vec::with_capacity(alloc, pairs.len())?;
    for (key, value) in pairs {
        add(&mut sorted, key, value)?;
    }
    Ok(Tags { pairs: sorted })
}

/// Tags of any number of pairs, in the time of a sort.
fn many(alloc: Global, pairs: Vec<(Name, Name)>) -> Result<Tags, TagsFault>
    requires { 1 ≤ length pairs.items }
    ensures gives { GivesTags result pairs.items }
    ensures tagged { IfOk result IsTags }
{
    let mut map = BTreeMap::new(alloc);
    for (key, value) in pairs {
        add_to_map(&mut map, key, value)?;
    }
    let count = map.len();
    if count > MOST_TAGS {
        return Err(TagsFault::TooManyTags { count });
    }
    let pairs = listed(alloc, map)?;
    Ok(Tags { pairs })
}

/// The pairs of a map, rising by key.
fn listed(alloc: Global, map: BTreeMap<Name, Name>) -> Result<Vec<(Name, Name)>, AllocError>
    ensures { IfOk result (λ pairs. pairs.items ≡ map.entries) }
{
    map.into_iter().collect(alloc)
}
