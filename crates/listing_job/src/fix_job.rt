//! The job of `fix`.
ghost use Rattle.std.specs.Prelude.{◌≡◌, ◌≢◌, ◌≤◌};
ghost use Rattle.tsd_io.specs.Causes.{Rose};
ghost use Rattle.listing_job.specs.ListingJobs.{Fixed, Gives, OverListing};

use crate::listing_end::{ListingEnd, end_of_give, end_of_input};
use cell_listing::Listed;
use cell_listing::listing_reader::read_listing;
use listing_fix::fix::fix;
use listing_print::give_cells;
use row_key::Widths;
use std::alloc::{AllocError, Global};
use tsd_io::ports::{Sink, Source};

/// Reads a listing whose ids have these widths to the source's end, and gives it mended.
pub fn fix_listing<S: Source, K: Sink>(
    alloc: Global,
    widths: Widths,
    source: &mut S,
    sink: &mut K,
) -> ListingEnd
    ensures over { OverListing Fixed widths (S.taken source.old) (S.taken source.new) (S.left source.old) (S.left source.new) (K.held sink.old) (K.held sink.new) result }
    ensures never { result ≢ ListingEnd.Refused }
    ensures reads_later { S.faults source.old ≤ S.faults source.new }
    ensures writes_later { K.faults sink.old ≤ K.faults sink.new }
    ensures read_fault { result ≡ ListingEnd.ReadFault → Rose (S.faults source.old) (S.faults source.new) }
    ensures write_fault { result ≡ ListingEnd.WriteFault → Rose (K.faults sink.old) (K.faults sink.new) }
{
    match read_listing(alloc, source, widths) {
        Ok(listed) => give_fixed(alloc, listed, sink),
        Err(fault) => end_of_input(fault),
    }
}

/// Gives a listing mended.
fn give_fixed<K: Sink>(alloc: Global, listed: Listed, sink: &mut K) -> ListingEnd
    ensures gives { Gives (Fixed listed) (K.held sink.old) (K.held sink.new) result }
    ensures never { result ≢ ListingEnd.Refused }
    ensures no_read { result ≢ ListingEnd.ReadFault }
    ensures later { K.faults sink.old ≤ K.faults sink.new }
    ensures write_fault { result ≡ ListingEnd.WriteFault → Rose (K.faults sink.old) (K.faults sink.new) }
{
    match fix(alloc, listed) {
        Ok(made) => match give_cells(alloc, sink, made.lines.lines()) {
            Ok(()) => ListingEnd::Done,
            Err(fault) => end_of_give(fault),
        },
        Err(AllocError) => ListingEnd::OutOfMemory,
    }
}
