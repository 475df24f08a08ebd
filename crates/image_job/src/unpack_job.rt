//! The job of `unpack`.
ghost use Rattle.std.specs.Prelude.{◌≡◌, ◌≢◌, ◌≤◌, []};
ghost use Rattle.tsd_io.specs.Causes.{Rose};
ghost use Rattle.listing_check.specs.Faults.{AreFaults};
ghost use Rattle.listing_check.specs.Reports.{read_of};
ghost use Rattle.listing_job.specs.ListingJobs.{Gives};
ghost use Rattle.image_job.specs.ImageJobs.{OverImage, Unpacked};

use crate::load_job::load_image;
use cell_model::Listing;
use listing_job::listing_end::{ListingEnd, end_of_give};
use listing_print::give_cells;
use std::alloc::Global;
use tsd_io::ports::{Sink, Source};

/// Reads an image from a source, and gives its listing. An image that is refused, or whose listing isn't sound, has the line of its first
/// fault alone given.
pub fn unpack_image<S: Source, K: Sink>(alloc: Global, source: &mut S, sink: &mut K) -> ListingEnd
    ensures over { OverImage Unpacked (S.taken source.old) (S.taken source.new) (S.left source.old) (S.left source.new) (K.held sink.old) (K.held sink.new) result }
    ensures reads_later { S.faults source.old ≤ S.faults source.new }
    ensures writes_later { K.faults sink.old ≤ K.faults sink.new }
    ensures read_fault { result ≡ ListingEnd.ReadFault → Rose (S.faults source.old) (S.faults source.new) }
    ensures write_fault { result ≡ ListingEnd.WriteFault → Rose (K.faults sink.old) (K.faults sink.new) }
{
    match load_image(alloc, source, sink) {
        Ok(listing) => unpack(alloc, &listing, sink),
        Err(end) => end,
    }
}

/// Gives the lines of a listing without a fault.
fn unpack<K: Sink>(alloc: Global, listing: &Listing, sink: &mut K) -> ListingEnd
    requires faultless { AreFaults (read_of listing.now) [] }
    ensures gives { Gives (Unpacked listing.now) (K.held sink.old) (K.held sink.new) result }
    ensures later { K.faults sink.old ≤ K.faults sink.new }
    ensures no_read { result ≢ ListingEnd.ReadFault }
    ensures write_fault { result ≡ ListingEnd.WriteFault → Rose (K.faults sink.old) (K.faults sink.new) }
{
    match give_cells(alloc, sink, listing.lines()) {
        Ok(()) => ListingEnd::Done,
        Err(fault) => end_of_give(fault),
    }
}
