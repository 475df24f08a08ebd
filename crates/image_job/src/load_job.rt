//! Loading a sound listing from its image.
ghost use Rattle.std.specs.Prelude.{◌≡◌, ◌≢◌, ◌≤◌, None, Ok, Err, IfOk};
ghost use Rattle.tsd_io.specs.Causes.{Rose};
ghost use Rattle.cell_model.specs.Listed.{store_of};
ghost use Rattle.cell_model.specs.Sound.{IsBase};
ghost use Rattle.listing_check.specs.Reports.{read_of};
ghost use Rattle.image_job.specs.ImageJobs.{Checks, GivesRefusal, LoadsImage, ShowsFlaw, is_want};

use crate::image_texts::{flaw_told, refused_by};
use cell_image::ImageFault;
use cell_image::image_stream::{TakeImageFault, take_image};
use cell_model::Listing;
use listing_check::check::check_cells;
use listing_job::listing_end::{ListingEnd, end_of_input};
use listing_job::shown::{Shown, give_shown};
use std::alloc::{AllocError, Global};
use tsd_io::ports::{Sink, Source};

/// Reads an image from a source, and answers its listing, with which a store may begin. An image that is refused, or whose listing isn't
/// sound, has the line of its first fault alone given. Err says how that ended, or why the image wasn't read.
pub fn load_image<S: Source, K: Sink>(
    alloc: Global,
    source: &mut S,
    sink: &mut K,
) -> Result<Listing, ListingEnd>
    ensures loads { LoadsImage (S.taken source.old) (S.taken source.new) (S.left source.old) (S.left source.new) (K.held sink.old) (K.held sink.new) result }
    ensures silent { IfOk result (λ listing. sink.new ≡ sink.old) }
    ensures base { IfOk result (λ listing. IsBase (store_of listing)) }
    ensures not_done { result ≢ Err ListingEnd.Done }
    ensures reads_later { S.faults source.old ≤ S.faults source.new }
    ensures writes_later { K.faults sink.old ≤ K.faults sink.new }
    ensures read_fault { result ≡ Err ListingEnd.ReadFault → Rose (S.faults source.old) (S.faults source.new) }
    ensures write_fault { result ≡ Err ListingEnd.WriteFault → Rose (K.faults sink.old) (K.faults sink.new) }
{
    match take_image(alloc, source) {
        Ok(listing) => checked(alloc, listing, sink),
        Err(TakeImageFault::Image { fault }) => Err(refuse(alloc, fault, sink)),
        Err(TakeImageFault::Input { fault }) => Err(end_of_input(fault)),
    }
}

/// A listing without a fault; of another the line of its first fault is given.
fn checked<K: Sink>(alloc: Global, listing: Listing, sink: &mut K) -> Result<Listing, ListingEnd>
    ensures checks { Checks listing (K.held sink.old) (K.held sink.new) result }
    ensures silent { IfOk result (λ sound. sink.new ≡ sink.old) }
    ensures base { IfOk result (λ sound. IsBase (store_of sound)) }
    ensures not_done { result ≢ Err ListingEnd.Done }
    ensures later { K.faults sink.old ≤ K.faults sink.new }
    ensures no_read { result ≢ Err ListingEnd.ReadFault }
    ensures write_fault { result ≡ Err ListingEnd.WriteFault → Rose (K.faults sink.old) (K.faults sink.new) }
{
    match flaw_of(alloc, &listing) {
        Ok(None) => Ok(listing),
        Ok(Some(shown)) => Err(give_shown(sink, &shown)),
        Err(AllocError) => Err(ListingEnd::OutOfMemory),
    }
}

/// Gives the line of the fault of an image; of want of memory nothing is told.
fn refuse<K: Sink>(alloc: Global, fault: ImageFault, sink: &mut K) -> ListingEnd
    ensures gives { GivesRefusal fault (K.held sink.old) (K.held sink.new) result }
    ensures not_done { result ≢ ListingEnd.Done }
    ensures later { K.faults sink.old ≤ K.faults sink.new }
    ensures no_read { result ≢ ListingEnd.ReadFault }
    ensures write_fault { result ≡ ListingEnd.WriteFault → Rose (K.faults sink.old) (K.faults sink.new) }
{
    if is_want(fault) {
        return ListingEnd::OutOfMemory;
    }
    match refused_by(alloc, fault) {
        Ok(shown) => give_shown(sink, &shown),
        Err(AllocError) => ListingEnd::OutOfMemory,
    }
}

/// Whether the fault is that there was no memory.
fn is_want(fault: ImageFault) -> bool
    ensures { result ≡ is_want fault }
{
    match fault {
        ImageFault::CutShort { .. } => false,
        ImageFault::BadMark => false,
        ImageFault::BadWidths => false,
        ImageFault::BadTable { .. } => false,
        ImageFault::EmptyPart { .. } => false,
        ImageFault::NotRising { .. } => false,
        ImageFault::Trailing { .. } => false,
        ImageFault::OutOfMemory => true,
    }
}

/// The line of the first fault of a listing in memory, if it has one. It fails only for want of memory.
pub fn flaw_of(alloc: Global, listing: &Listing) -> Result<Option<Shown>, AllocError>
    ensures shows { IfOk result (ShowsFlaw (read_of listing.now)) }
    ensures base { result ≡ Ok None → IsBase (store_of listing.now) }
{
    let report = check_cells(alloc, listing)?;
    match report.faults.first() {
        Some(fault) => {
            let shown = flaw_told(alloc, fault)?;
            Ok(Some(shown))
        }
        None => Ok(None),
    }
}
