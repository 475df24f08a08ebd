//! The cells of one row beside its column, to which points are appended.
ghost use Rattle.std.specs.Prelude.{◌≡◌, ◌≢◌, ℕ, List, None, Some, IfOk, IsOk, OnOk, OnErr, length, option_map};
ghost use Rattle.std.specs.FinMap.{get, insert, len, remove};
ghost use Rattle.qual_codec.specs.CellDots.{column_qual};
ghost use Rattle.cell_blocks.specs.Seeks.{Rises};
ghost use Rattle.packed_cells.specs.Keyed.{CellMap, appended, cells_in, stamped, goes, without};

use crate::plain_cells::PlainCells;
use cell_blocks::block::Block;
use cell_blocks::mixed_cells::overwrite;
use cell_blocks::room::make_room;
use qual_codec::is_column;
use std::alloc::{AllocError, Global};
use std::marker::Model;
use std::mem::replace;

/// The cells of a row, with the column's value in a list of its own, so that what is appended is copied alone.
///
/// Contracts see it as the finite map from each qualifier to its value and version.
#[derive(Drop)]
pub struct AppendedCells {
    // The cells but the column.
    cells: PlainCells,
    value: Vec<u8>,
    version: u64,
    alloc: Global,
}

impl Model for AppendedCells {
    ghost use Rattle.std.specs.Prelude.{◌≡◌, None};
    ghost use Rattle.std.specs.FinMap.{get, insert};
    ghost use Rattle.qual_codec.specs.CellDots.{column_qual};
    ghost use Rattle.packed_cells.specs.Keyed.{CellMap, coded_cells};

    ghost Value = { CellMap };

    ghost coded = { coded_cells };

    ghost view = { λ r. insert r.cells column_qual (r.value.items, r.version) };

    ghost invariant = { λ r. get r.cells column_qual ≡ None };
}

impl AppendedCells {
    /// The cells, which have no column, and a column of this value.
    pub fn of(alloc: Global, cells: PlainCells, value: Vec<u8>, version: u64) -> AppendedCells
        requires { get cells column_qual ≡ None }
        ensures { result ≡ insert cells column_qual (value.items, version) }
    {
        AppendedCells {
            cells,
            value,
            version,
            alloc,
        }
    }

    /// How many cells there are.
    #[inline]
    #[tactic(auto, using(crate::proofs::Columns::len_beside))]
    pub fn len(&self) -> usize
        ensures { result ≡ len self.now }
    {
        self.cells.count() + 1
    }

    /// A copy of the cells by index, from the least qualifier. It fails only for want of memory.
    pub fn again(&self, alloc: Global) -> Result<Block, AllocError>
        ensures same { IfOk result (λ cells. cells ≡ cells_in self.now) }
        ensures rises { IfOk result (λ cells. Rises cells) }
    {
        let mut cells = PlainCells::of(self.cells.again(alloc)?);
        cells.put_among(&[5, 0, 0], self.value.as_slice(), self.version)?;
        Ok(cells.into_block())
    }

    /// The value of this qualifier's cell, if it is there.
    #[inline]
    pub fn value(&self, qual: &[u8]) -> Option<&[u8]>
        ensures { option_map (λ v. v.now) result ≡ option_map (λ c. c.0) (get self.now qual.now) }
    {
        if is_column(qual) {
            Some(self.value.as_slice())
        } else {
            self.cells.value(qual)
        }
    }

    /// Adds these bytes behind the column's value, and gives it this version. It fails only for want of memory.
    #[inline]
    pub fn append(&mut self, piece: &[u8], version: u64) -> Result<(), AllocError>
        ensures ok { OnOk result (self.new ≡ appended self.old piece.now version) }
        ensures err { OnErr result (self.new ≡ self.old) }
    {
        make_room(&mut self.value, piece.len())?;
        self.value.extend_from_slice(piece)?;
        self.version = version;
        Ok(())
    }

    /// Writes the cell of this qualifier, over its older one too. Where that has a value of the same length, this can't
    /// fail; else it fails for want of memory, or where the block, the qualifier or the value has 4 GiB.
    pub fn put(&mut self, qual: &[u8], value: &[u8], version: u64) -> Result<(), AllocError>
        ensures ok { OnOk result (self.new ≡ insert self.old qual.now (value.now, version)) }
        ensures err { OnErr result (self.new ≡ self.old) }
        ensures in_place { (v : List ℕ) (n : ℕ) → get self.old qual.now ≡ Some (v, n) → length v ≡ length value.now → IsOk result }
    {
        if is_column(qual) {
            return self.put_column(value, version);
        }
        self.cells.put_among(qual, value, version)
    }

    // Writes the column over what it was.
    fn put_column(&mut self, value: &[u8], version: u64) -> Result<(), AllocError>
        ensures ok { OnOk result (self.new ≡ insert self.old column_qual (value.now, version)) }
        ensures err { OnErr result (self.new ≡ self.old) }
        ensures in_place { (v : List ℕ) (n : ℕ) → get self.old column_qual ≡ Some (v, n) → length v ≡ length value.now → IsOk result }
    {
        if value.len() == self.value.len() {
            overwrite(&mut self.value, 0, value);
        } else {
            self.value = Vec::from_slice(self.alloc, value)?;
        }
        self.version = version;
        Ok(())
    }

    /// Sets the version of this qualifier's cell, if it is there.
    #[inline]
    pub fn stamp(&mut self, qual: &[u8], version: u64)
        ensures { self.new ≡ stamped self.old qual.now version }
    {
        if is_column(qual) {
            self.version = version;
        } else {
            self.cells.stamp_among(qual, version);
        }
    }

    /// Whether the column's version isn't above this one.
    #[inline]
    pub fn column_goes(&self, version: u64) -> bool
        ensures { result ≡ goes (get self.now column_qual) version }
    {
        self.version <= version
    }

    /// Gives the cells but the column.
    pub fn take(&mut self) -> PlainCells
        ensures { result ≡ remove self.old column_qual }
    {
        replace(&mut self.cells, PlainCells::of(Block::make(self.alloc)))
    }

    /// Takes out the cell of a qualifier that isn't the column's, as [`PlainCells::remove`] does.
    pub fn remove(&mut self, qual: &[u8], version: u64) -> bool
        requires { qual.now ≢ column_qual }
        ensures gone { result ≡ goes (get self.old qual.now) version }
        ensures rest { self.new ≡ without self.old qual.now version }
    {
        self.cells.remove(qual, version)
    }
}
