//! The commands on a listing.
ghost use Rattle.std.specs.Prelude.{◌≡◌, ◌≢◌, ◌≤◌};
ghost use Rattle.tsd_io.specs.Causes.{Rose};
ghost use Rattle.listing_job.specs.ListingJobs.{Checked, Dumped, Fixed};
ghost use Rattle.tsd_run.specs.Runs.{RunsOver, listing_status};

use batch_run::Status;
use listing_job::{ListingEnd, check_listing, dump_listing, fix_listing};
use row_key::Widths;
use std::alloc::Global;
use tsd_io::ports::{Sink, Source};

/// Prints the report of the input's listing.
pub(crate) fn fsck<S: Source, K: Sink>(
    alloc: Global,
    widths: Widths,
    input: &mut S,
    output: &mut K,
) -> Status
    ensures runs { RunsOver Checked widths (S.taken input.old) (S.taken input.new) (S.left input.old) (S.left input.new) (K.held output.old) (K.held output.new) result }
    ensures reads_later { S.faults input.old ≤ S.faults input.new }
    ensures writes_later { K.faults output.old ≤ K.faults output.new }
    ensures read_fault { result ≡ Status.ReadFault → Rose (S.faults input.old) (S.faults input.new) }
    ensures write_fault { result ≡ Status.WriteFault → Rose (K.faults output.old) (K.faults output.new) }
    ensures no_clock { result ≢ Status.ClockFault }
    ensures no_stop { result ≢ Status.Stopped }
    ensures no_door { result ≢ Status.DoorFault }
{
    let end = check_listing(alloc, widths, input, output);
    status_of(end)
}

/// Prints the input's listing, mended.
pub(crate) fn fix<S: Source, K: Sink>(
    alloc: Global,
    widths: Widths,
    input: &mut S,
    output: &mut K,
) -> Status
    ensures runs { RunsOver Fixed widths (S.taken input.old) (S.taken input.new) (S.left input.old) (S.left input.new) (K.held output.old) (K.held output.new) result }
    ensures reads_later { S.faults input.old ≤ S.faults input.new }
    ensures writes_later { K.faults output.old ≤ K.faults output.new }
    ensures read_fault { result ≡ Status.ReadFault → Rose (S.faults input.old) (S.faults input.new) }
    ensures write_fault { result ≡ Status.WriteFault → Rose (K.faults output.old) (K.faults output.new) }
    ensures no_clock { result ≢ Status.ClockFault }
    ensures no_stop { result ≢ Status.Stopped }
    ensures no_door { result ≢ Status.DoorFault }
{
    let end = fix_listing(alloc, widths, input, output);
    status_of(end)
}

/// Prints the points of the input's listing, or the first thing that is wrong with it.
pub(crate) fn dump<S: Source, K: Sink>(
    alloc: Global,
    widths: Widths,
    input: &mut S,
    output: &mut K,
) -> Status
    ensures runs { RunsOver Dumped widths (S.taken input.old) (S.taken input.new) (S.left input.old) (S.left input.new) (K.held output.old) (K.held output.new) result }
    ensures reads_later { S.faults input.old ≤ S.faults input.new }
    ensures writes_later { K.faults output.old ≤ K.faults output.new }
    ensures read_fault { result ≡ Status.ReadFault → Rose (S.faults input.old) (S.faults input.new) }
    ensures write_fault { result ≡ Status.WriteFault → Rose (K.faults output.old) (K.faults output.new) }
    ensures no_clock { result ≢ Status.ClockFault }
    ensures no_stop { result ≢ Status.Stopped }
    ensures no_door { result ≢ Status.DoorFault }
{
    let end = dump_listing(alloc, widths, input, output);
    status_of(end)
}

/// The status of how a job on a listing or on an image ended.
pub(crate) fn status_of(end: ListingEnd) -> Status
    ensures status { result ≡ listing_status end }
    ensures done { result ≡ Status.Done → end ≡ ListingEnd.Done }
    ensures read_fault { result ≡ Status.ReadFault → end ≡ ListingEnd.ReadFault }
    ensures write_fault { result ≡ Status.WriteFault → end ≡ ListingEnd.WriteFault }
    ensures no_clock { result ≢ Status.ClockFault }
    ensures no_stop { result ≢ Status.Stopped }
    ensures no_door { result ≢ Status.DoorFault }
{
    match end {
        ListingEnd::Done => Status::Done,
        ListingEnd::Refused => Status::Refused,
        ListingEnd::ReadFault => Status::ReadFault,
        ListingEnd::WriteFault => Status::WriteFault,
        ListingEnd::OutOfMemory => Status::Memory,
        ListingEnd::SessionFull => Status::SessionFull,
    }
}
