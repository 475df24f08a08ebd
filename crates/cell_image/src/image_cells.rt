//! The image of a store, of which one row is held at a time beside it.
ghost use Rattle.std.specs.Prelude.{◌≡◌, ◌+◌, ◌≤◌, [], ◌∷◌, ◌++◌, None, Err, length, IfOk, IsTrue, OnOk};
ghost use Rattle.cell_model.specs.declared.row.ListLine.{ListLine as AnyLine};
ghost use Rattle.cell_model.specs.declared.row.Row.{Row as AnyRow};
ghost use Rattle.cell_model.specs.Sound.{IsSound};
ghost use Rattle.cell_image.specs.Images.{fits};
ghost use Rattle.cell_image.specs.StoreImages.{AddsLine, EndedCells, HoldsCells, HoldsStore, ImagesStore, TookCells, joins_cells, large_with};

use crate::image_writer::{fits, push_cell, push_head};
use crate::no_sink::NoSink;
use cell_model::{Body, ListLine};
use listing_print::{GiveFault, LineTaker, walk_body};
use std::alloc::{AllocError, Global};
use tsd_io::ports::Sink;

/// The image of a store, or why it has none.
#[derive(Drop)]
pub enum StoreImage {
    /// A part of the cell with this number, from 1, is too long for its length.
    TooLarge { cell: u64 },
    /// The head and the cells, which make the image.
    Whole { head: Vec<u8>, cells: Vec<u8> },
}

/// Makes the image of a sound store in memory, row by row. It fails only for want of memory.
pub fn store_image<B: Body>(alloc: Global, body: &B) -> Result<StoreImage, AllocError>
    requires covers { (row : AnyRow) → IsTrue (B.covers body.now row) }
    requires sound { IsSound (B.content body.now) }
    ensures { IfOk result (ImagesStore (B.content body.now)) }
{
    let gathered = gather_cells(alloc, body)?;
    match gathered.large {
        Some(cell) => Ok(StoreImage::TooLarge { cell }),
        None => {
            let mut head = Vec::new(alloc);
            push_head(&mut head, body.widths(), gathered.number)?;
            Ok(StoreImage::Whole {
                head,
                cells: gathered.cells,
            })
        }
    }
}

/// Gathers the cells of a sound store as an image has them. It fails only for want of memory.
fn gather_cells<B: Body>(alloc: Global, body: &B) -> Result<ImageCells, AllocError>
    requires covers { (row : AnyRow) → IsTrue (B.covers body.now row) }
    requires sound { IsSound (B.content body.now) }
    ensures { IfOk result (HoldsStore (B.content body.now)) }
{
    let mut gathered = ImageCells::make(alloc);
    match walk_body(alloc, &mut NoSink, &mut gathered, body) {
        Ok(()) => Ok(gathered),
        Err(_) => Err(AllocError),
    }
}

/// Cells as an image has them, behind one another: all of them, unless one is too large.
#[derive(Drop)]
struct ImageCells {
    cells: Vec<u8>,
    number: u64,
    large: Option<u64>,
}

impl ImageCells {
    /// No cells.
    fn make(alloc: Global) -> ImageCells
        ensures { HoldsCells [] result }
    {
        ImageCells {
            cells: Vec::new(alloc),
            number: 0,
            large: None,
        }
    }

    /// Adds a cell behind the others. It fails only for want of memory.
    fn add(&mut self, cell: &ListLine) -> Result<(), AllocError>
        ensures { OnOk result (AddsLine cell.now self.old self.new) }
    {
        let number = one_more(self.number)?;
        let large = large_with(self.large, number, cell);
        self.number = number;
        self.large = large;
        if large.is_some() {
            return Ok(());
        }
        push_cell(&mut self.cells, cell)
    }
}

impl LineTaker for ImageCells {
    ghost took = { TookCells };

    ghost ended = { EndedCells };

    ghost joins = { joins_cells };

    fn take_line<K: Sink>(&mut self, _sink: &mut K, line: &ListLine) -> Result<(), GiveFault> {
        self.add(line)?;
        Ok(())
    }
}

/// The next number, if a `u64` holds it.
fn one_more(number: u64) -> Result<u64, AllocError>
    ensures { IfOk result (λ next. next ≡ number + 1) }
{
    match number.checked_add(1) {
        Some(next) => Ok(next),
        None => Err(AllocError),
    }
}

/// The first cell that is too large: the one that was found, or else this one, which has this number, if it is.
fn large_with(found: Option<u64>, number: u64, cell: &ListLine) -> Option<u64>
    ensures { result ≡ large_with found number (fits cell.now) }
{
    if found.is_some() {
        return found;
    }
    if fits(cell) { None } else { Some(number) }
}
