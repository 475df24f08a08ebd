//! The commands on an image.
ghost use Rattle.std.specs.Prelude.{◌≡◌, ◌≢◌, ◌≤◌};
ghost use Rattle.tsd_io.specs.Causes.{Rose};
ghost use Rattle.image_job.specs.ImageJobs.{Packed};
ghost use Rattle.tsd_run.specs.Runs.{RunsOver, RunsUnpack};

use crate::on_listing::status_of;
use batch_run::Status;
use image_job::{pack_listing, unpack_image};
use row_key::Widths;
use std::alloc::Global;
use tsd_io::ports::{Sink, Source};

/// Prints the image of the input's listing, or the first thing that is wrong with it.
pub(crate) fn pack<S: Source, K: Sink>(
    alloc: Global,
    widths: Widths,
    input: &mut S,
    output: &mut K,
) -> Status
    ensures runs { RunsOver Packed widths (S.taken input.old) (S.taken input.new) (S.left input.old) (S.left input.new) (K.held output.old) (K.held output.new) result }
    ensures reads_later { S.faults input.old ≤ S.faults input.new }
    ensures writes_later { K.faults output.old ≤ K.faults output.new }
    ensures read_fault { result ≡ Status.ReadFault → Rose (S.faults input.old) (S.faults input.new) }
    ensures write_fault { result ≡ Status.WriteFault → Rose (K.faults output.old) (K.faults output.new) }
    ensures no_clock { result ≢ Status.ClockFault }
    ensures no_stop { result ≢ Status.Stopped }
    ensures no_door { result ≢ Status.DoorFault }
{
    let end = pack_listing(alloc, widths, input, output);
    status_of(end)
}

/// Prints the listing of the input's image, or the first thing that is wrong with it.
pub(crate) fn unpack<S: Source, K: Sink>(alloc: Global, input: &mut S, output: &mut K) -> Status
    ensures runs { RunsUnpack (S.taken input.old) (S.taken input.new) (S.left input.old) (S.left input.new) (K.held output.old) (K.held output.new) result }
    ensures reads_later { S.faults input.old ≤ S.faults input.new }
    ensures writes_later { K.faults output.old ≤ K.faults output.new }
    ensures read_fault { result ≡ Status.ReadFault → Rose (S.faults input.old) (S.faults input.new) }
    ensures write_fault { result ≡ Status.WriteFault → Rose (K.faults output.old) (K.faults output.new) }
    ensures no_clock { result ≢ Status.ClockFault }
    ensures no_stop { result ≢ Status.Stopped }
    ensures no_door { result ≢ Status.DoorFault }
{
    let end = unpack_image(alloc, input, output);
    status_of(end)
}
