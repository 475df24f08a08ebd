//! Cells of any lengths in one block of bytes, which contracts see as a list. They stand apart from strips, since the two forms of a
//! block have nothing in common but what they are seen as.
ghost use Rattle.std.specs.Prelude.{◌≡◌, ◌≤◌, ◌<◌, ◌+◌, ℕ, [], ◌∷◌, ◌++◌, take, length, IfOk, IsOk, OnOk, OnErr, slice_index_or, slice_set, insert};
ghost use Rattle.std.specs.List.{remove as without};
ghost use Rattle.cell_blocks.specs.Packed.{stamped_at, overwritten, span_at, Extends, Tells};
ghost use Rattle.qual_codec.specs.declared.cells.Cell.{Cell};

use crate::room::{make_room, place};
use std::alloc::{AllocError, Global};
use std::marker::Model;

// The greatest length, in bytes, that a cell's parts can have, and the greatest place.
const MOST: usize = 4294967295;

// Lengths below this one stand in the head.
const LONG: u16 = 65535;

// A head with its lengths, and the place of its bytes. Where `value_len` is `LONG`, `at` is the place of the lengths among
// the long ones.
#[derive(Clone, Copy, Drop)]
struct Head {
    version: u64,
    at: u32,
    qual_len: u16,
    value_len: u16,
}

// The place and the lengths of a cell of which one is too long for a head.
#[derive(Clone, Copy, Drop)]
struct Long {
    at: u32,
    qual_len: u32,
    value_len: u32,
}

// What a head tells.
#[derive(Clone, Copy, Drop)]
struct Span {
    at: u32,
    qual_len: u32,
    value_len: u32,
    version: u64,
}

/// Cells by index. Each takes 16 bytes beside its own bytes, and no memory of its own: the bytes of all of them are one block.
#[derive(Drop)]
pub struct MixedCells {
    heads: Vec<Head>,
    bytes: Vec<u8>,
    longs: Vec<Long>,
    // How many bytes no head has any more.
    waste: usize,
    alloc: Global,
}

impl Model for MixedCells {
    ghost use Rattle.std.specs.Prelude.{List};
    ghost use Rattle.qual_codec.specs.declared.cells.Cell.{Cell};

    ghost Value = { List Cell };

    ghost use Rattle.cell_blocks.specs.Packed.{cells_at, spans, IsKept};

    ghost view = { λ b. cells_at b.bytes.items (spans b.longs.items b.heads.items) };

    ghost invariant = { λ b. IsKept b.bytes.items b.longs.items b.heads.items };
}

// What this head tells.
#[inline]
fn spread(longs: &Vec<Long>, head: Head) -> Span
    ensures { result ≡ span_at longs.now.items head }
{
    if head.value_len < LONG {
        return Span {
            at: head.at,
            qual_len: head.qual_len as u32,
            value_len: head.value_len as u32,
            version: head.version,
        };
    }
    match longs.get(head.at as usize) {
        Some(long) => Span {
            at: long.at,
            qual_len: long.qual_len,
            value_len: long.value_len,
            version: head.version,
        },
        None => Span {
            at: 0,
            qual_len: 0,
            value_len: 0,
            version: head.version,
        },
    }
}

// A head that tells this.
#[inline]
fn shorten(longs: &mut Vec<Long>, span: Span) -> Result<Head, AllocError>
    ensures head { IfOk result (λ h. Tells longs.new.items h span) }
    ensures longs { Extends longs.old.items longs.new.items }
{
    if span.qual_len < LONG as u32 && span.value_len < LONG as u32 {
        return Ok(Head {
            version: span.version,
            at: span.at,
            qual_len: span.qual_len as u16,
            value_len: span.value_len as u16,
        });
    }
    let at = longs.len();
    if at > MOST {
        return Err(AllocError);
    }
    longs.push(Long {
        at: span.at,
        qual_len: span.qual_len,
        value_len: span.value_len,
    })?;
    Ok(Head {
        version: span.version,
        at: at as u32,
        qual_len: LONG,
        value_len: LONG,
    })
}

// Puts a qualifier and a value behind the block.
#[inline]
fn append(
    bytes: &mut Vec<u8>,
    longs: &mut Vec<Long>,
    qual: &[u8],
    value: &[u8],
    version: u64,
) -> Result<Head, AllocError>
    ensures head { IfOk result (λ h. Tells longs.new.items h (record { at = length bytes.old.items; qual_len = length qual.now; value_len = length value.now; version = version })) }
    ensures longs { Extends longs.old.items longs.new.items }
    ensures bytes { OnOk result (bytes.new.items ≡ bytes.old.items ++ qual.now ++ value.now) }
    ensures err { OnErr result (bytes.new.items ≡ bytes.old.items) }
{
    let at = bytes.len();
    if at > MOST || qual.len() > MOST || value.len() > MOST {
        return Err(AllocError);
    }
    let span = Span {
        at: at as u32,
        qual_len: qual.len() as u32,
        value_len: value.len() as u32,
        version,
    };
    let head = shorten(longs, span)?;
    make_room(bytes, qual.len() + value.len())?;
    bytes.extend_from_slice(qual)?;
    if let Err(refused) = bytes.extend_from_slice(value) {
        bytes.truncate(at);
        return Err(refused);
    }
    Ok(head)
}

/// Writes these bytes in place of those from `at` on.
#[inline]
pub fn overwrite(bytes: &mut Vec<u8>, at: usize, written: &[u8])
    requires { at + length written.now ≤ length bytes.old.items }
    ensures { bytes.new.items ≡ overwritten bytes.old.items at written.now }
{
    bytes[at..at + written.len()].copy_from_slice(written);
}

// The waste when these bytes have no head any more.
fn wasted(waste: usize, span: Span) -> usize {
    waste.saturating_add(span.qual_len as usize + span.value_len as usize)
}

impl MixedCells {
    /// No cells.
    pub fn make(alloc: Global) -> MixedCells
        ensures { result ≡ [] }
    {
        MixedCells {
            heads: Vec::new(alloc),
            bytes: Vec::new(alloc),
            longs: Vec::new(alloc),
            waste: 0,
            alloc,
        }
    }

    /// How many cells there are.
    #[inline]
    pub fn len(&self) -> usize
        ensures { result ≡ length self.now }
    {
        self.heads.len()
    }

    /// The same, and that one more can be counted.
    #[inline]
    pub fn count(&self) -> usize
        ensures len { result ≡ length self.now }
        ensures few { result < 9223372036854775808 }
    {
        self.heads.len()
    }

    /// The qualifier of the cell at `i`.
    #[inline]
    #[tactic(auto, using(crate::proofs::Spans::cell_is))]
    pub fn qual(&self, i: usize) -> &[u8]
        requires { i < length self.now }
        ensures { (d : Cell) → result.now ≡ (slice_index_or self.now i d).qual }
    {
        let span = spread(&self.longs, self.heads[i]);
        let at = span.at as usize;
        &self.bytes[at..at + span.qual_len as usize]
    }

    /// The value of the cell at `i`.
    #[inline]
    #[tactic(auto, using(crate::proofs::Spans::cell_is))]
    pub fn value(&self, i: usize) -> &[u8]
        requires { i < length self.now }
        ensures { (d : Cell) → result.now ≡ (slice_index_or self.now i d).value }
    {
        let span = spread(&self.longs, self.heads[i]);
        let at = span.at as usize + span.qual_len as usize;
        &self.bytes[at..at + span.value_len as usize]
    }

    /// The version of the cell at `i`.
    #[inline]
    pub fn version(&self, i: usize) -> u64
        requires { i < length self.now }
        ensures { (d : Cell) → result ≡ (slice_index_or self.now i d).version }
    {
        self.heads[i].version
    }

    /// Puts a cell before the one at `i`, or behind the last one. It fails for want of memory, or where the
    /// block, the qualifier or the value has 4 GiB.
    pub fn insert(
        &mut self,
        i: usize,
        qual: &[u8],
        value: &[u8],
        version: u64,
    ) -> Result<(), AllocError>
        requires { i ≤ length self.old }
        ensures ok { OnOk result (self.new ≡ insert self.old i (record { qual = qual.now; value = value.now; version = version })) }
        ensures err { OnErr result (self.new ≡ self.old) }
    {
        self.tidy()?;
        self.insert_behind(i, qual, value, version)
    }

    /// Writes another cell over the one at `i`. It is written in its place where it has the same lengths, which can't fail;
    /// else it fails as [`MixedCells::insert`] does.
    pub fn set(
        &mut self,
        i: usize,
        qual: &[u8],
        value: &[u8],
        version: u64,
    ) -> Result<(), AllocError>
        requires { i < length self.old }
        ensures ok { OnOk result (self.new ≡ slice_set self.old i (record { qual = qual.now; value = value.now; version = version })) }
        ensures in_place { (d : Cell) → length (slice_index_or self.old i d).qual ≡ length qual.now → length (slice_index_or self.old i d).value ≡ length value.now → IsOk result }
        ensures err { OnErr result (self.new ≡ self.old) }
    {
        let head = self.heads[i];
        let span = spread(&self.longs, head);
        if span.qual_len as usize == qual.len() && span.value_len as usize == value.len() {
            let at = span.at as usize;
            overwrite(&mut self.bytes, at, qual);
            overwrite(&mut self.bytes, at + qual.len(), value);
            self.heads[i] = Head { version, ..head };
            return Ok(());
        }
        self.tidy()?;
        self.set_behind(i, qual, value, version)
    }

    /// Sets the version of the cell at `i`.
    #[tactic(auto, using(crate::proofs::Spans::restamp_kept, crate::proofs::Spans::restamp_cells))]
    pub fn stamp(&mut self, i: usize, version: u64)
        requires { i < length self.old }
        ensures { (d : Cell) → self.new ≡ slice_set self.old i (stamped_at (slice_index_or self.old i d) version) }
    {
        let head = self.heads[i];
        self.heads[i] = Head { version, ..head };
    }

    /// Takes the cell at `i` out. Memory that few cells are left in is given back, if there is memory for a smaller block.
    pub fn remove(&mut self, i: usize)
        requires { i < length self.old }
        ensures { self.new ≡ without self.old i }
    {
        self.take_out(i);
        self.shrink();
    }

    /// The same cells once more.
    pub fn again(&self, alloc: Global) -> Result<MixedCells, AllocError>
        ensures { IfOk result (λ made. made ≡ self.now) }
    {
        Ok(MixedCells {
            heads: Vec::from_slice(alloc, self.heads.as_slice())?,
            bytes: Vec::from_slice(alloc, self.bytes.as_slice())?,
            longs: Vec::from_slice(alloc, self.longs.as_slice())?,
            waste: self.waste,
            alloc,
        })
    }

    // The same cells in a block without waste.
    #[tactic(auto, using(crate::proofs::Packed::copied, crate::proofs::Packed::taken_length, std::proofs::lemmas::List::take_all))]
    fn rebuilt(&self, alloc: Global) -> Result<MixedCells, AllocError>
        ensures { IfOk result (λ made. made ≡ self.now) }
    {
        let mut made = MixedCells::make(alloc);
        for i in 0..self.len() {
            made.insert_behind(i, self.qual(i), self.value(i), self.version(i))?;
        }
        Ok(made)
    }

    // Rebuilds the block where more than half of it is waste.
    fn tidy(&mut self) -> Result<(), AllocError>
        ensures { self.new ≡ self.old }
    {
        if self.waste > self.bytes.len() / 2 {
            let made = self.rebuilt(self.alloc)?;
            *self = made;
        }
        Ok(())
    }

    // Rebuilds the block where few of its heads or less than half of its bytes are left, if there is memory. Since its last
    // rebuild the cells fell to less than half by then, or their bytes did.
    fn shrink(&mut self)
        ensures { self.new ≡ self.old }
    {
        if self.is_loose() {
            if let Ok(made) = self.rebuilt(self.alloc) {
                *self = made;
            }
        }
    }

    // Whether the heads have room for 16, and 16 times as many as there are, or most bytes are waste.
    fn is_loose(&self) -> bool {
        let room = self.heads.capacity();
        room >= 16 && room / 16 >= self.heads.len() || self.waste > self.bytes.len() / 2
    }

    #[tactic(auto, using(crate::proofs::Spans::removed_kept, crate::proofs::Spans::removed_cells))]
    fn take_out(&mut self, i: usize)
        requires { i < length self.old }
        ensures { self.new ≡ without self.old i }
    {
        let head = self.heads.remove(i);
        self.waste = wasted(self.waste, spread(&self.longs, head));
    }

    #[tactic(auto, using(crate::proofs::Spans::put_kept, crate::proofs::Spans::put_cells, crate::proofs::Spans::headless_kept, crate::proofs::Spans::headless_cells, crate::proofs::Spans::failed_kept, crate::proofs::Spans::failed_cells))]
    fn insert_behind(
        &mut self,
        i: usize,
        qual: &[u8],
        value: &[u8],
        version: u64,
    ) -> Result<(), AllocError>
        requires { i ≤ length self.old }
        ensures ok { OnOk result (self.new ≡ insert self.old i (record { qual = qual.now; value = value.now; version = version })) }
        ensures err { OnErr result (self.new ≡ self.old) }
    {
        let head = append(&mut self.bytes, &mut self.longs, qual, value, version)?;
        if let Err(refused) = place(&mut self.heads, i, head) {
            self.waste = wasted(self.waste, spread(&self.longs, head));
            return Err(refused);
        }
        Ok(())
    }

    #[tactic(auto, using(crate::proofs::Spans::reset_kept, crate::proofs::Spans::reset_cells, crate::proofs::Spans::failed_kept, crate::proofs::Spans::failed_cells))]
    fn set_behind(
        &mut self,
        i: usize,
        qual: &[u8],
        value: &[u8],
        version: u64,
    ) -> Result<(), AllocError>
        requires { i < length self.old }
        ensures ok { OnOk result (self.new ≡ slice_set self.old i (record { qual = qual.now; value = value.now; version = version })) }
        ensures err { OnErr result (self.new ≡ self.old) }
    {
        let head = append(&mut self.bytes, &mut self.longs, qual, value, version)?;
        let old = self.heads[i];
        self.heads[i] = head;
        self.waste = wasted(self.waste, spread(&self.longs, old));
        Ok(())
    }
}
