//! Reading an image.
ghost use Rattle.std.specs.Prelude.{◌≡◌, OnErr};
ghost use Rattle.cell_image.specs.ImageReads.{AddsCell, ReadsImage, TellsImage};

use crate::image_fault::ImageFault;
use crate::image_fields::ImageFields;
use cell_model::Listing;
use std::alloc::Global;

/// The listing of which the bytes are the image, or their first fault. Bytes are the image of one listing at most.
pub fn read_image(alloc: Global, bytes: &[u8]) -> Result<Listing, ImageFault>
    ensures reads { ReadsImage bytes.now result }
    ensures image { TellsImage bytes.now result }
{
    read_fields(alloc, bytes)
}

/// The listing of an image, read field by field, or the first fault.
fn read_fields(alloc: Global, bytes: &[u8]) -> Result<Listing, ImageFault>
    ensures { ReadsImage bytes.now result }
{
    let mut fields = ImageFields::of(0, bytes);
    let head = fields.head()?;
    let mut listing = Listing::none(alloc, head.widths);
    for done in 0..head.number {
        add_cell(alloc, &mut listing, &mut fields)?;
    }
    if !fields.is_at_end() {
        return Err(ImageFault::Trailing { at: fields.at() });
    }
    Ok(listing)
}

/// Adds the next cell of an image to a listing. Where it can't be added the listing stays.
pub(crate) fn add_cell(
    alloc: Global,
    listing: &mut Listing,
    fields: &mut ImageFields<'_>,
) -> Result<(), ImageFault>
    ensures adds { AddsCell listing.old.lines fields.old result listing.new.lines fields.new }
    ensures widths { listing.new.widths ≡ listing.old.widths }
    ensures same { OnErr result (listing.new ≡ listing.old) }
{
    let at = fields.at();
    let cell = fields.cell()?;
    let added = listing.add(alloc, cell.table, cell.row, cell.qual, cell.value)?;
    if !added {
        return Err(ImageFault::NotRising { at });
    }
    Ok(())
}
