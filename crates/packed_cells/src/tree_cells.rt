//! The cells of one row in a tree, which moves few of them for one that comes among many.
ghost use Rattle.std.specs.Prelude.{◌≡◌, ℕ, List, Some, IfOk, IsOk, IsTrue, OnOk, OnErr, length, option_map, if◌then◌else◌};
ghost use Rattle.std.specs.FinMap.{get, insert, len};
ghost use Rattle.cell_blocks.specs.Seeks.{Rises};
ghost use Rattle.packed_cells.specs.TreeCells.{tree_cells};
ghost use Rattle.packed_cells.specs.Keyed.{CellMap, cells_in, map_of, stamped, goes, without};

use cell_blocks::block::Block;
use cell_blocks::mixed_cells::overwrite;
use std::alloc::{AllocError, Global};
use std::collections::BTreeMap;
use std::marker::Model;

// A cell but its qualifier.
#[derive(Drop)]
struct TreeCell {
    value: Vec<u8>,
    version: u64,
}

/// The cells of a row by qualifier. Each has memory of its own, more than it takes in a [`Block`].
///
/// Contracts see it as the finite map from each qualifier to its value and version.
#[derive(Drop)]
pub struct TreeCells {
    cells: BTreeMap<Vec<u8>, TreeCell>,
    alloc: Global,
}

impl Model for TreeCells {
    ghost use Rattle.packed_cells.specs.Keyed.{CellMap, coded_cells, map_of};
    ghost use Rattle.packed_cells.specs.TreeCells.{tree_cells};

    ghost Value = { CellMap };

    ghost coded = { coded_cells };

    ghost view = { λ r. map_of (tree_cells r.cells.entries) };
}

impl TreeCells {
    /// The cells of a block. It fails only for want of memory.
    pub fn of(alloc: Global, cells: &Block) -> Result<TreeCells, AllocError>
        ensures { IfOk result (λ made. made ≡ map_of cells.now) }
    {
        let mut made = TreeCells {
            cells: BTreeMap::new(alloc),
            alloc,
        };
        let mut left = cells.len();
        while left > 0 {
            left -= 1;
            made.put(cells.qual(left), cells.value(left), cells.version(left))?;
        }
        Ok(made)
    }

    /// How many cells there are.
    pub fn len(&self) -> usize
        ensures { result ≡ len self.now }
    {
        self.cells.len()
    }

    /// A copy of the cells by index, from the least qualifier. It fails only for want of memory.
    pub fn again(&self, alloc: Global) -> Result<Block, AllocError>
        ensures same { IfOk result (λ cells. cells ≡ cells_in self.now) }
        ensures rises { IfOk result (λ cells. Rises cells) }
    {
        copy_of(alloc, &self.cells)
    }

    /// The value of this qualifier's cell, if it is there.
    pub fn value(&self, qual: &[u8]) -> Option<&[u8]>
        ensures { option_map (λ v. v.now) result ≡ option_map (λ c. c.0) (get self.now qual.now) }
    {
        match self.cells.get(qual) {
            Some(cell) => Some(cell.value.as_slice()),
            None => None,
        }
    }

    /// Writes the cell of this qualifier, over its older one too. Where that has a value of the same length, this can't
    /// fail; else it fails for want of memory.
    pub fn put(&mut self, qual: &[u8], value: &[u8], version: u64) -> Result<(), AllocError>
        ensures ok { OnOk result (self.new ≡ insert self.old qual.now (value.now, version)) }
        ensures err { OnErr result (self.new ≡ self.old) }
        ensures in_place { (v : List ℕ) (n : ℕ) → get self.old qual.now ≡ Some (v, n) → length v ≡ length value.now → IsOk result }
    {
        if self.put_over(qual, value, version) {
            return Ok(());
        }
        let value = Vec::from_slice(self.alloc, value)?;
        let key = Vec::from_slice(self.alloc, qual)?;
        self.cells.insert(key, TreeCell { value, version })?;
        Ok(())
    }

    // Writes a value over one of the same length, if there is one, and answers whether there was.
    fn put_over(&mut self, qual: &[u8], value: &[u8], version: u64) -> bool
        ensures put { self.new ≡ (if result then insert self.old qual.now (value.now, version) else self.old) }
        ensures there { (v : List ℕ) (n : ℕ) → get self.old qual.now ≡ Some (v, n) → length v ≡ length value.now → IsTrue result }
    {
        let Some(cell) = self.cells.get_mut(qual) else {
            return false;
        };
        if cell.value.len() != value.len() {
            return false;
        }
        overwrite(&mut cell.value, 0, value);
        cell.version = version;
        true
    }

    /// Sets the version of this qualifier's cell, if it is there.
    pub fn stamp(&mut self, qual: &[u8], version: u64)
        ensures { self.new ≡ stamped self.old qual.now version }
    {
        if let Some(cell) = self.cells.get_mut(qual) {
            cell.version = version;
        }
    }

    /// Takes this qualifier's cell out, if it is there and its version isn't above this one, and answers whether it went.
    /// It needs no memory, and gives that of the cell back.
    pub fn remove(&mut self, qual: &[u8], version: u64) -> bool
        ensures gone { result ≡ goes (get self.old qual.now) version }
        ensures rest { self.new ≡ without self.old qual.now version }
    {
        let Some(cell) = self.cells.get(qual) else {
            return false;
        };
        if cell.version > version {
            return false;
        }
        self.cells.remove(qual);
        true
    }
}

// A copy of the cells by index, from the least qualifier.
fn copy_of(alloc: Global, cells: &BTreeMap<Vec<u8>, TreeCell>) -> Result<Block, AllocError>
    ensures same { IfOk result (λ made. made ≡ tree_cells cells.now.entries) }
    ensures rises { IfOk result (λ made. Rises made) }
{
    let mut made = Block::make(alloc);
    for (qual, cell) in cells.iter() {
        made.push(qual.as_slice(), cell.value.as_slice(), cell.version)?;
    }
    Ok(made)
}
