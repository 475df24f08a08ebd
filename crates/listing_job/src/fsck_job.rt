//! The job of `fsck`.
ghost use Rattle.std.specs.Prelude.{◌≡◌, ◌≢◌, ◌≤◌, IfOk};
ghost use Rattle.tsd_io.specs.Causes.{Rose};
ghost use Rattle.listing_job.specs.ListingJobs.{Checked, Gives, OverListing};
ghost use Rattle.listing_job.specs.Shows.{told_of};

use crate::listing_end::{ListingEnd, end_of_input};
use crate::shown::{Shown, give_shown};
use cell_listing::Listed;
use cell_listing::listing_reader::read_listing;
use listing_check::check::check;
use listing_check::report_text::report_text;
use row_key::Widths;
use std::alloc::{AllocError, Global};
use tsd_io::ports::{Sink, Source};

/// Reads a listing whose ids have these widths to the source's end, and gives its report: a line for each fault and each note, and then
/// `sound`, or `unsound` and the number of faults. A listing that isn't sound is refused.
pub fn check_listing<S: Source, K: Sink>(
    alloc: Global,
    widths: Widths,
    source: &mut S,
    sink: &mut K,
) -> ListingEnd
    ensures over { OverListing Checked widths (S.taken source.old) (S.taken source.new) (S.left source.old) (S.left source.new) (K.held sink.old) (K.held sink.new) result }
    ensures reads_later { S.faults source.old ≤ S.faults source.new }
    ensures writes_later { K.faults sink.old ≤ K.faults sink.new }
    ensures read_fault { result ≡ ListingEnd.ReadFault → Rose (S.faults source.old) (S.faults source.new) }
    ensures write_fault { result ≡ ListingEnd.WriteFault → Rose (K.faults sink.old) (K.faults sink.new) }
{
    match read_listing(alloc, source, widths) {
        Ok(listed) => give_report(alloc, &listed, sink),
        Err(fault) => end_of_input(fault),
    }
}

/// Gives the report of a listing.
fn give_report<K: Sink>(alloc: Global, listed: &Listed, sink: &mut K) -> ListingEnd
    ensures gives { Gives (Checked listed.now) (K.held sink.old) (K.held sink.new) result }
    ensures later { K.faults sink.old ≤ K.faults sink.new }
    ensures no_read { result ≢ ListingEnd.ReadFault }
    ensures write_fault { result ≡ ListingEnd.WriteFault → Rose (K.faults sink.old) (K.faults sink.new) }
{
    match report_of(alloc, listed) {
        Ok(shown) => give_shown(sink, &shown),
        Err(AllocError) => ListingEnd::OutOfMemory,
    }
}

/// The report of a listing. It fails only for want of memory.
fn report_of(alloc: Global, listed: &Listed) -> Result<Shown, AllocError>
    ensures { IfOk result (λ shown. Checked listed.now (told_of shown)) }
{
    let report = check(alloc, listed)?;
    let text = report_text(alloc, &report)?;
    Ok(Shown {
        refused: !report.faults.is_empty(),
        text,
    })
}
