//! Pairs of a name and its id that are kept, so that they needn't be read again.
ghost use Rattle.std.specs.Prelude.{◌≡◌, ◌≤◌, ◌++◌, [], Contains, IfOk, IfSome};
ghost use Rattle.std.specs.Hash as fed;
ghost use Rattle.std.proofs.Common.{rules};
ghost use Rattle.std.specs.Cmp.Rules.{hashing};
ghost use Rattle.uid_table.specs.KindNumbers.{kind_number};
ghost use Rattle.lru.specs.LruCache.{lru_cache};
ghost use Rattle.tsd_base.specs.Alphabet.{IsName};
ghost use Rattle.cell_model.specs.IdRows.{name_row};
ghost use Rattle.cell_model.specs.Seen.{Seen};
ghost use Rattle.uid_table.specs.Cache.{AreAmong, IsShownId, IsShownName, KeepsIds, KeepsNames, StaysWithin};

use cell_model::row::Row;
use lru::LruCache;
use row_key::Table;
use std::alloc::{AllocError, Global};
use std::hash::{Hash, Hasher};
use std::num::NonZeroUsize;
use tsd_base::kinds::Kind;
use tsd_base::names::Name;

/// What an id is kept by: the row of its name in the table of ids, and its kind.
#[derive(PartialEq, Eq, Drop)]
pub struct NameKey {
    pub kind: Kind,
    pub row: Row,
}

/// What a name is kept by.
#[derive(Clone, Copy, PartialEq, Eq)]
pub struct IdKey {
    pub kind: Kind,
    pub id: u32,
}

/// A kind as a number, for hashing.
fn kind_number(kind: Kind) -> u8
    ensures { result ≡ kind_number kind }
{
    match kind {
        Kind::Metric => 0,
        Kind::TagKey => 1,
        Kind::TagValue => 2,
    }
}

impl Hash for NameKey {
    ghost hash_input = { λ k. fed.u8 (kind_number k.kind) ++ fed.str k.row.bytes };

    ghost respects_eq = { Prim.search (hashing, rules) };

    #[inline]
    fn hash<H: Hasher>(&self, state: &mut H) {
        state.write_u8(kind_number(self.kind));
        self.row.bytes.hash(state);
    }
}

impl Hash for IdKey {
    ghost hash_input = { λ k. fed.u8 (kind_number k.kind) ++ fed.u32 k.id };

    ghost respects_eq = { Prim.search (hashing, rules) };

    #[inline]
    fn hash<H: Hasher>(&self, state: &mut H) {
        state.write_u8(kind_number(self.kind));
        self.id.hash(state);
    }
}

/// What the id of a name is kept by. It takes memory only where the name has more than 30 bytes.
pub fn name_key(alloc: Global, kind: Kind, name: &Name) -> Result<NameKey, AllocError>
    ensures key { IfOk result (λ key. (key.kind ≡ kind) × (key.row.bytes ≡ name.now)) }
    ensures row { IfOk result (λ key. key.row ≡ name_row key.row.bytes) }
    ensures named { IsName name.now }
{
    let row = Row {
        table: Table::Ids,
        bytes: name.copy_bytes(alloc)?,
    };
    Ok(NameKey { kind, row })
}

/// Ids by the names that have them. A cache has at most as many pairs as its capacity, which no call here changes.
pub type Ids = LruCache<NameKey, u32>;

/// Names by the ids that they have.
pub type Names = LruCache<IdKey, Name>;

/// Nothing is kept yet, and at most `cap` pairs of each will be.
pub fn nothing_kept(alloc: Global, cap: u32) -> Result<(Ids, Names), AllocError>
    requires { 1 ≤ cap }
    ensures { IfOk result (λ kept. (kept.0 ≡ lru_cache [] cap) × (kept.1 ≡ lru_cache [] cap)) }
{
    let Some(cap) = NonZeroUsize::new(cap as usize) else {
        unreachable!()
    };
    Ok((LruCache::sparse(alloc, cap)?, LruCache::sparse(alloc, cap)?))
}

/// Forgets what is kept. How many pairs may be kept stays as it is.
pub fn forget(ids: &mut Ids, names: &mut Names)
    ensures ids { ids.new ≡ lru_cache [] ids.old.cap }
    ensures names { names.new ≡ lru_cache [] names.old.cap }
{
    ids.clear();
    names.clear();
}

/// The id that is kept for a name.
pub fn kept_id(ids: &mut Ids, key: &NameKey) -> Option<u32>
    ensures found { IfSome result (λ id. Contains ids.old.entries (key.now, id)) }
    ensures kept { AreAmong ids.new.entries ids.old.entries }
    ensures cap { StaysWithin ids.old ids.new }
{
    ids.get(key).copied()
}

/// Keeps the id of a name, where there is memory for it.
pub fn keep_id(ids: &mut Ids, key: NameKey, id: u32)
    ensures shown { (s : Seen) → KeepsIds s ids.old.entries → IsShownId s (key, id) → KeepsIds s ids.new.entries }
    ensures cap { StaysWithin ids.old ids.new }
{
    let _ = ids.put(key, id);
}

/// A copy of the name that is kept for an id.
pub fn kept_name(names: &mut Names, alloc: Global, key: IdKey) -> Result<Option<Name>, AllocError>
    ensures found { IfOk result (λ found. IfSome found (λ name. Contains names.old.entries (key, name))) }
    ensures kept { AreAmong names.new.entries names.old.entries }
    ensures cap { StaysWithin names.old names.new }
{
    match names.get(&key) {
        Some(name) => Ok(Some(name.again(alloc)?)),
        None => Ok(None),
    }
}

/// Keeps a copy of the name of an id, where there is memory for it.
pub fn keep_name(names: &mut Names, alloc: Global, key: IdKey, name: &Name)
    ensures shown { (s : Seen) → KeepsNames s names.old.entries → IsShownName s (key, name.now) → KeepsNames s names.new.entries }
    ensures cap { StaysWithin names.old names.new }
{
    if let Ok(name) = name.again(alloc) {
        let _ = names.put(key, name);
    }
}
