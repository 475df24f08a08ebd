//! The job of `dump`.
ghost use Rattle.std.specs.Prelude.{◌≡◌, ◌≢◌, ◌≤◌, [], IfOk};
ghost use Rattle.tsd_io.specs.Causes.{Rose};
ghost use Rattle.listing_check.specs.Faults.{AreFaults};
ghost use Rattle.listing_job.specs.ListingJobs.{Dumped, Gives, OverListing};
ghost use Rattle.listing_job.specs.Shows.{ShowsFault};

use crate::listing_end::{ListingEnd, end_of_dump, end_of_input};
use crate::shown::{Shown, give_shown};
use cell_listing::Listed;
use cell_listing::listing_reader::read_listing;
use listing_check::check::check;
use listing_check::line_faults::sound_listing;
use listing_check::report_text::push_fault;
use listing_dump::dump::dump;
use row_key::Widths;
use std::alloc::{AllocError, Global};
use tsd_io::ports::{Sink, Source};

/// Reads a listing whose ids have these widths to the source's end, and gives its points, a line each. A listing that isn't sound is
/// refused, and the line of its first fault alone is given.
pub fn dump_listing<S: Source, K: Sink>(
    alloc: Global,
    widths: Widths,
    source: &mut S,
    sink: &mut K,
) -> ListingEnd
    ensures over { OverListing Dumped widths (S.taken source.old) (S.taken source.new) (S.left source.old) (S.left source.new) (K.held sink.old) (K.held sink.new) result }
    ensures reads_later { S.faults source.old ≤ S.faults source.new }
    ensures writes_later { K.faults sink.old ≤ K.faults sink.new }
    ensures read_fault { result ≡ ListingEnd.ReadFault → Rose (S.faults source.old) (S.faults source.new) }
    ensures write_fault { result ≡ ListingEnd.WriteFault → Rose (K.faults sink.old) (K.faults sink.new) }
{
    match read_listing(alloc, source, widths) {
        Ok(listed) => dump_read(alloc, listed, sink),
        Err(fault) => end_of_input(fault),
    }
}

/// Gives the points of a listing that was read, or the line of its first fault.
fn dump_read<K: Sink>(alloc: Global, listed: Listed, sink: &mut K) -> ListingEnd
    ensures gives { Gives (Dumped listed) (K.held sink.old) (K.held sink.new) result }
    ensures later { K.faults sink.old ≤ K.faults sink.new }
    ensures no_read { result ≢ ListingEnd.ReadFault }
    ensures write_fault { result ≡ ListingEnd.WriteFault → Rose (K.faults sink.old) (K.faults sink.new) }
{
    match fault_of(alloc, &listed) {
        Ok(fault) => give_told(alloc, listed, fault, sink),
        Err(AllocError) => ListingEnd::OutOfMemory,
    }
}

/// Gives the line of the first fault of a listing, or where there is none its points.
fn give_told<K: Sink>(
    alloc: Global,
    listed: Listed,
    fault: Option<Shown>,
    sink: &mut K,
) -> ListingEnd
    requires first { ShowsFault listed fault }
    ensures gives { Gives (Dumped listed) (K.held sink.old) (K.held sink.new) result }
    ensures later { K.faults sink.old ≤ K.faults sink.new }
    ensures no_read { result ≢ ListingEnd.ReadFault }
    ensures write_fault { result ≡ ListingEnd.WriteFault → Rose (K.faults sink.old) (K.faults sink.new) }
{
    match fault {
        Some(shown) => give_shown(sink, &shown),
        None => give_points(alloc, listed, sink),
    }
}

/// The line of the first fault of a listing, if it has one. It fails only for want of memory.
pub fn fault_of(alloc: Global, listed: &Listed) -> Result<Option<Shown>, AllocError>
    ensures { IfOk result (ShowsFault listed.now) }
{
    let report = check(alloc, listed)?;
    match report.faults.first() {
        Some(fault) => {
            let mut text = Vec::new(alloc);
            push_fault(&mut text, fault)?;
            Ok(Some(Shown {
                refused: true,
                text,
            }))
        }
        None => Ok(None),
    }
}

/// Gives the points of a listing without a fault.
fn give_points<K: Sink>(alloc: Global, listed: Listed, sink: &mut K) -> ListingEnd
    requires sound { AreFaults listed [] }
    ensures gives { Gives (Dumped listed) (K.held sink.old) (K.held sink.new) result }
    ensures later { K.faults sink.old ≤ K.faults sink.new }
    ensures no_read { result ≢ ListingEnd.ReadFault }
    ensures write_fault { result ≡ ListingEnd.WriteFault → Rose (K.faults sink.old) (K.faults sink.new) }
{
    let listing = sound_listing(listed);
    match dump(alloc, &listing, sink) {
        Ok(()) => ListingEnd::Done,
        Err(fault) => end_of_dump(fault),
    }
}
