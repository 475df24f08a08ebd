//! The job of `pack`.
ghost use Rattle.std.specs.Prelude.{◌≡◌, ◌≢◌, ◌≤◌, []};
ghost use Rattle.tsd_io.specs.Causes.{Rose};
ghost use Rattle.listing_check.specs.Faults.{AreFaults};
ghost use Rattle.listing_job.specs.ListingJobs.{Gives, OverListing};
ghost use Rattle.listing_job.specs.Shows.{ShowsFault};
ghost use Rattle.image_job.specs.ImageJobs.{IsPacked, Packed};
ghost use Rattle.image_job.specs.ImageTexts.{large_told};

use crate::image_texts::large_told;
use cell_image::image_giver::{GiveImageFault, give_image};
use cell_listing::Listed;
use cell_listing::listing_reader::read_listing;
use cell_model::Listing;
use listing_check::line_faults::sound_listing;
use listing_job::dump_job::fault_of;
use listing_job::listing_end::{ListingEnd, end_of_input};
use listing_job::shown::{Shown, give_shown};
use row_key::Widths;
use std::alloc::{AllocError, Global};
use tsd_io::ports::{Sink, Source};

/// Reads a listing whose ids have these widths to the source's end, and gives its image. A listing that isn't sound is refused, and the
/// line of its first fault alone is given. So is one with a cell that is too large.
pub fn pack_listing<S: Source, K: Sink>(
    alloc: Global,
    widths: Widths,
    source: &mut S,
    sink: &mut K,
) -> ListingEnd
    ensures over { OverListing Packed widths (S.taken source.old) (S.taken source.new) (S.left source.old) (S.left source.new) (K.held sink.old) (K.held sink.new) result }
    ensures reads_later { S.faults source.old ≤ S.faults source.new }
    ensures writes_later { K.faults sink.old ≤ K.faults sink.new }
    ensures read_fault { result ≡ ListingEnd.ReadFault → Rose (S.faults source.old) (S.faults source.new) }
    ensures write_fault { result ≡ ListingEnd.WriteFault → Rose (K.faults sink.old) (K.faults sink.new) }
{
    match read_listing(alloc, source, widths) {
        Ok(listed) => pack_read(alloc, listed, sink),
        Err(fault) => end_of_input(fault),
    }
}

/// Gives the image of a listing that was read, or the line of its first fault.
fn pack_read<K: Sink>(alloc: Global, listed: Listed, sink: &mut K) -> ListingEnd
    ensures gives { Gives (Packed listed) (K.held sink.old) (K.held sink.new) result }
    ensures later { K.faults sink.old ≤ K.faults sink.new }
    ensures no_read { result ≢ ListingEnd.ReadFault }
    ensures write_fault { result ≡ ListingEnd.WriteFault → Rose (K.faults sink.old) (K.faults sink.new) }
{
    match fault_of(alloc, &listed) {
        Ok(fault) => give_told(alloc, listed, fault, sink),
        Err(AllocError) => ListingEnd::OutOfMemory,
    }
}

/// Gives the line of the first fault of a listing, or where there is none its image.
fn give_told<K: Sink>(
    alloc: Global,
    listed: Listed,
    fault: Option<Shown>,
    sink: &mut K,
) -> ListingEnd
    requires first { ShowsFault listed fault }
    ensures gives { Gives (Packed listed) (K.held sink.old) (K.held sink.new) result }
    ensures later { K.faults sink.old ≤ K.faults sink.new }
    ensures no_read { result ≢ ListingEnd.ReadFault }
    ensures write_fault { result ≡ ListingEnd.WriteFault → Rose (K.faults sink.old) (K.faults sink.new) }
{
    match fault {
        Some(shown) => give_shown(sink, &shown),
        None => give_sound(alloc, listed, sink),
    }
}

/// Gives the image of a listing without a fault.
fn give_sound<K: Sink>(alloc: Global, listed: Listed, sink: &mut K) -> ListingEnd
    requires sound { AreFaults listed [] }
    ensures gives { Gives (Packed listed) (K.held sink.old) (K.held sink.new) result }
    ensures later { K.faults sink.old ≤ K.faults sink.new }
    ensures no_read { result ≢ ListingEnd.ReadFault }
    ensures write_fault { result ≡ ListingEnd.WriteFault → Rose (K.faults sink.old) (K.faults sink.new) }
{
    let listing = sound_listing(listed);
    pack(alloc, &listing, sink)
}

/// Gives the image of a listing, or the line that tells which cell is too large.
pub fn pack<K: Sink>(alloc: Global, listing: &Listing, sink: &mut K) -> ListingEnd
    ensures gives { Gives (IsPacked listing.now) (K.held sink.old) (K.held sink.new) result }
    ensures later { K.faults sink.old ≤ K.faults sink.new }
    ensures no_read { result ≢ ListingEnd.ReadFault }
    ensures write_fault { result ≡ ListingEnd.WriteFault → Rose (K.faults sink.old) (K.faults sink.new) }
{
    match give_image(alloc, sink, listing) {
        Ok(()) => ListingEnd::Done,
        Err(GiveImageFault::TooLarge { cell }) => give_large(alloc, cell, sink),
        Err(GiveImageFault::Failed) => ListingEnd::WriteFault,
        Err(GiveImageFault::OutOfMemory) => ListingEnd::OutOfMemory,
    }
}

/// Gives the line that tells which cell is too large.
fn give_large<K: Sink>(alloc: Global, cell: u64, sink: &mut K) -> ListingEnd
    ensures gives { Gives (λ told. told ≡ large_told cell) (K.held sink.old) (K.held sink.new) result }
    ensures later { K.faults sink.old ≤ K.faults sink.new }
    ensures no_read { result ≢ ListingEnd.ReadFault }
    ensures write_fault { result ≡ ListingEnd.WriteFault → Rose (K.faults sink.old) (K.faults sink.new) }
{
    match large_told(alloc, cell) {
        Ok(shown) => give_shown(sink, &shown),
        Err(AllocError) => ListingEnd::OutOfMemory,
    }
}
