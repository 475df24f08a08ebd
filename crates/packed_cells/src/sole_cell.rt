//! The only cell of a row.
ghost use Rattle.std.specs.Prelude.{◌≡◌, ◌↔◌, ◌+◌, ◌≤◌, ℕ, Some, IfOk, IfSome, IsSome, IsTrue, length, option_map, true, List, if◌then◌else◌};
ghost use Rattle.std.specs.FinMap.{empty, get, insert, len};
ghost use Rattle.cell_blocks.specs.Packed.{overwritten, stamped_at};
ghost use Rattle.packed_cells.specs.Keyed.{cells_in, stamped, goes, without};
ghost use Rattle.cell_blocks.specs.Seeks.{Rises};
ghost use Rattle.packed_cells.specs.SoleCells.{sole_map};

use crate::even_cells::EvenCells;
use crate::plain_cells::PlainCells;
use cell_blocks::block::Block;
use std::alloc::{AllocError, Global};
use std::marker::Model;

// The most bytes of a qualifier and a value together.
const ROOM: usize = 30;

/// One cell whose qualifier and value have up to 30 bytes together. It takes no memory of its own: most rows of names and of ids
/// have one cell, and so has a point row until its second point comes.
///
/// Contracts see it as the cell.
#[derive(Drop)]
pub struct SoleCell {
    // With the lowest byte first. All of the cell are bytes, so that it takes no more than these.
    version: [u8; 8],
    qual_len: u8,
    value_len: u8,
    // The qualifier, and the value behind it.
    bytes: [u8; 30],
    alloc: Global,
}

impl Model for SoleCell {
    ghost use Rattle.qual_codec.specs.declared.cells.Cell.{Cell};
    ghost use Rattle.packed_cells.specs.SoleCells.{sole_cell, Fits};

    ghost Value = { Cell };

    ghost view = { λ s. sole_cell s.version s.qual_len s.value_len s.bytes };

    ghost invariant = { λ s. Fits s.qual_len s.value_len s.bytes };
}

// Writes these bytes in place of those from `at` on.
fn write_at(bytes: &mut [u8; 30], at: usize, written: &[u8])
    requires { at + length written.now ≤ 30 }
    ensures { bytes.new ≡ overwritten bytes.old at written.now }
{
    bytes[at..at + written.len()].copy_from_slice(written);
}

impl SoleCell {
    /// This cell, if its bytes are few enough.
    #[tactic(auto, using(crate::proofs::Soles::both_qual, crate::proofs::Soles::both_value, crate::proofs::Soles::both_length))]
    pub fn of(alloc: Global, qual: &[u8], value: &[u8], version: u64) -> Option<SoleCell>
        ensures cell { IfSome result (λ cell. cell ≡ record { qual = qual.now; value = value.now; version = version }) }
        ensures fits { length qual.now + length value.now ≤ 30 → IsSome result }
    {
        if qual.len() > ROOM {
            return None;
        }
        if value.len() > ROOM - qual.len() {
            return None;
        }
        let mut bytes = [0u8; 30];
        write_at(&mut bytes, 0, qual);
        write_at(&mut bytes, qual.len(), value);
        Some(SoleCell {
            version: version.to_le_bytes(),
            qual_len: qual.len() as u8,
            value_len: value.len() as u8,
            bytes,
            alloc,
        })
    }

    /// The same, as the map of a row.
    pub fn first(alloc: Global, qual: &[u8], value: &[u8], version: u64) -> Option<SoleCell>
        ensures { IfSome result (λ cell. sole_map cell ≡ insert empty qual.now (value.now, version)) }
    {
        match SoleCell::of(alloc, qual, value, version) {
            Some(cell) => Some(cell),
            None => None,
        }
    }

    /// Where the memory of more cells is taken.
    pub fn alloc(&self) -> Global {
        self.alloc
    }

    /// How many cells there are.
    pub fn len(&self) -> usize
        ensures { result ≡ len (sole_map self.now) }
    {
        1
    }

    // The qualifier.
    #[tactic(auto, using(crate::proofs::Soles::few))]
    fn qual(&self) -> &[u8]
        ensures qual { result.now ≡ self.now.qual }
        ensures few { length self.now.qual + length self.now.value ≤ 30 }
    {
        &self.bytes[..self.qual_len as usize]
    }

    // Whether the qualifier is this one.
    fn is_of(&self, qual: &[u8]) -> bool
        ensures { IsTrue result ↔ (qual.now ≡ self.now.qual) }
    {
        qual == self.qual()
    }

    // The bytes of the value.
    fn bytes(&self) -> &[u8]
        ensures { result.now ≡ self.now.value }
    {
        let at = self.qual_len as usize;
        &self.bytes[at..at + self.value_len as usize]
    }

    // The version.
    fn version(&self) -> u64
        ensures { result ≡ self.now.version }
    {
        u64::from_le_bytes(self.version)
    }

    // Writes another version.
    fn set_version(&mut self, version: u64)
        ensures { self.new ≡ stamped_at self.old version }
    {
        self.version = version.to_le_bytes();
    }

    // Writes another value, if its bytes are few enough, and answers whether it was written.
    fn set_value(&mut self, value: &[u8], version: u64) -> bool
        ensures cell { self.new ≡ (if result then record { qual = self.old.qual; value = value.now; version = version } else self.old) }
        ensures same { length value.now ≡ length self.old.value → result ≡ true }
    {
        match SoleCell::of(self.alloc(), self.qual(), value, version) {
            Some(cell) => {
                *self = cell;
                true
            }
            None => false,
        }
    }

    /// The value, where the cell has this qualifier.
    pub fn value(&self, qual: &[u8]) -> Option<&[u8]>
        ensures { option_map (λ v. v.now) result ≡ option_map (λ c. c.0) (get (sole_map self.now) qual.now) }
    {
        if self.is_of(qual) {
            Some(self.bytes())
        } else {
            None
        }
    }

    /// Writes the value of this qualifier over the older one, if that is there and this one's bytes are few enough, and answers whether
    /// it was written.
    pub fn set(&mut self, qual: &[u8], value: &[u8], version: u64) -> bool
        ensures cells { sole_map self.new ≡ (if result then insert (sole_map self.old) qual.now (value.now, version) else sole_map self.old) }
        ensures in_place { (v : List ℕ) (n : ℕ) → get (sole_map self.old) qual.now ≡ Some (v, n) → length v ≡ length value.now → result ≡ true }
    {
        if self.is_of(qual) {
            self.set_value(value, version)
        } else {
            false
        }
    }

    /// Sets the version, where the cell has this qualifier.
    pub fn stamp(&mut self, qual: &[u8], version: u64)
        ensures { sole_map self.new ≡ stamped (sole_map self.old) qual.now version }
    {
        if self.is_of(qual) {
            self.set_version(version);
        }
    }

    /// Whether the cell has this qualifier and its version isn't above this one. Without it no cell is left.
    pub fn goes(&self, qual: &[u8], version: u64) -> bool
        ensures gone { result ≡ goes (get (sole_map self.now) qual.now) version }
        ensures rest { without (sole_map self.now) qual.now version ≡ (if result then empty else sole_map self.now) }
    {
        if self.is_of(qual) {
            self.version() <= version
        } else {
            false
        }
    }

    /// A block of the cell. It fails only for want of memory.
    pub fn again(&self, alloc: Global) -> Result<Block, AllocError>
        ensures same { IfOk result (λ cells. cells ≡ cells_in (sole_map self.now)) }
        ensures rises { IfOk result (λ cells. Rises cells) }
    {
        let mut cells = Block::make(alloc);
        cells.insert(0, self.qual(), self.bytes(), self.version())?;
        Ok(cells)
    }

    /// The cell as the first of many. It fails only for want of memory.
    pub fn plain(&self, alloc: Global) -> Result<PlainCells, AllocError>
        ensures { IfOk result (λ cells. cells ≡ sole_map self.now) }
    {
        Ok(PlainCells::of(self.again(alloc)?))
    }

    /// The cell as the first of many at even steps, where it suits. It fails only for want of memory.
    pub fn even(&self, alloc: Global) -> Result<Option<EvenCells>, AllocError>
        ensures { IfOk result (λ r. IfSome r (λ cells. cells ≡ sole_map self.now)) }
    {
        let mut cells = EvenCells::make(alloc);
        if cells.push(self.qual(), self.bytes(), self.version())? {
            Ok(Some(cells))
        } else {
            Ok(None)
        }
    }
}
