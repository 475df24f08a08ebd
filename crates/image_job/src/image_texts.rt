//! What is told of an image that is refused.
ghost use Rattle.std.specs.Prelude.{◌≡◌, ◌++◌, IfOk, OnOk};
ghost use Rattle.listing_job.specs.Shows.{told_of};
ghost use Rattle.image_job.specs.ImageTexts.{flaw_told, image_fault_text, large_told, placed, refused_by};

use cell_image::ImageFault;
use cell_image::large_line::push_large_line;
use listing_check::report::Flaw;
use listing_job::shown::Shown;
use std::alloc::{AllocError, Global};
use tsd_base::decimals::write_number;

/// The line that refuses an image for this fault. It fails only for want of memory.
pub fn refused_by(alloc: Global, fault: ImageFault) -> Result<Shown, AllocError>
    ensures { IfOk result (λ shown. told_of shown ≡ refused_by (image_fault_text fault)) }
{
    let mut text = Vec::new(alloc);
    text.extend_from_slice(b"image: ")?;
    push_fault(&mut text, fault)?;
    text.extend_from_slice(b"\n")?;
    Ok(Shown {
        refused: true,
        text,
    })
}

/// The line that refuses a listing of which this cell, from 1, is too large. It fails only for want of memory.
pub fn large_told(alloc: Global, cell: u64) -> Result<Shown, AllocError>
    ensures { IfOk result (λ shown. told_of shown ≡ large_told cell) }
{
    let mut text = Vec::new(alloc);
    push_large_line(&mut text, cell)?;
    Ok(Shown {
        refused: true,
        text,
    })
}

/// The line that refuses an image of which a cell has this flaw. It fails only for want of memory.
pub fn flaw_told(alloc: Global, fault: &(u64, Flaw)) -> Result<Shown, AllocError>
    ensures { IfOk result (λ shown. told_of shown ≡ flaw_told fault.now) }
{
    let mut text = Vec::new(alloc);
    text.extend_from_slice(b"image: ")?;
    push_placed(&mut text, b"cell ", fault.0)?;
    text.extend_from_slice(b": ")?;
    text.extend_from_slice(fault.1.text())?;
    text.extend_from_slice(b"\n")?;
    Ok(Shown {
        refused: true,
        text,
    })
}

/// Adds the text of a fault.
fn push_fault(text: &mut Vec<u8>, fault: ImageFault) -> Result<(), AllocError>
    ensures { OnOk result (text.new.items ≡ text.old.items ++ image_fault_text fault) }
{
    match fault {
        ImageFault::CutShort { at } => push_placed(text, b"cut short at ", at),
        ImageFault::BadMark => text.extend_from_slice(b"bad mark"),
        ImageFault::BadWidths => text.extend_from_slice(b"bad widths"),
        ImageFault::BadTable { at } => push_placed(text, b"bad table at ", at),
        ImageFault::EmptyPart { at } => push_placed(text, b"empty part at ", at),
        ImageFault::NotRising { at } => push_placed(text, b"not rising at ", at),
        ImageFault::Trailing { at } => push_placed(text, b"trailing bytes at ", at),
        ImageFault::OutOfMemory => text.extend_from_slice(b"out of memory"),
    }
}

/// Adds words and a number.
fn push_placed(text: &mut Vec<u8>, words: &[u8], number: u64) -> Result<(), AllocError>
    ensures { OnOk result (text.new.items ≡ text.old.items ++ placed words.now number) }
{
    text.extend_from_slice(words)?;
    write_number(number, text)
}
