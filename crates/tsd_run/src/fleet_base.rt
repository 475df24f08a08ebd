//! The store that a fleet begins with.
ghost use Rattle.std.specs.Prelude.{◌≡◌, ◌≢◌, ◌≤◌, false, Err, IfErr, IfOk};
ghost use Rattle.tsd_io.specs.Causes.{Rose};
ghost use Rattle.cell_model.specs.Listed.{store_of};
ghost use Rattle.cell_model.specs.Sound.{IsBase};
ghost use Rattle.command_words.specs.PlainAsked.{IsFleet};
ghost use Rattle.tsd_run.specs.FleetStatuses.{BeginsWith, LacksStore};

use crate::on_listing::status_of;
use batch_run::Status;
use cell_model::Listing;
use cell_region::Regions;
use command_words::Serve;
use image_job::load_image;
use listing_check::laws::flawless_is_base;
use row_key::Widths;
use std::alloc::{AllocError, Global};
use tsd_io::ports::{Sink, Source};

/// The store that a fleet begins with, in its regions: an empty one, or the one whose image is on the input. Err is the status where there
/// is none, as was told.
pub(crate) fn first_store<S: Source, K: Sink>(
    alloc: Global,
    asked: &Serve<'_>,
    input: &mut S,
    output: &mut K,
) -> Result<Regions, Status>
    requires fleet { IsFleet asked.now }
    ensures begins { IfOk result (λ base. BeginsWith asked.now.image (record { taken = S.taken input.old; left = S.left input.old; faults = S.faults input.old }) (record { taken = S.taken input.new; left = S.left input.new; faults = S.faults input.new }) base.content) }
    ensures silent { IfOk result (λ base. output.new ≡ output.old) }
    ensures base { IfOk result (λ base. IsBase base.content) }
    ensures divided { IfOk result (λ base. base.data_regions ≡ asked.now.regions) }
    ensures lacks { IfErr result (λ status. LacksStore asked.now.image (record { taken = S.taken input.old; left = S.left input.old; faults = S.faults input.old }) (record { taken = S.taken input.new; left = S.left input.new; faults = S.faults input.new }) (K.held output.old) (K.held output.new) status) }
    ensures input { asked.now.image ≡ false → input.new ≡ input.old }
    ensures reads_later { S.faults input.old ≤ S.faults input.new }
    ensures writes_later { K.faults output.old ≤ K.faults output.new }
    ensures read_fault { result ≡ Err Status.ReadFault → Rose (S.faults input.old) (S.faults input.new) }
    ensures write_fault { result ≡ Err Status.WriteFault → Rose (K.faults output.old) (K.faults output.new) }
    ensures not_done { result ≢ Err Status.Done }
    ensures no_clock { result ≢ Err Status.ClockFault }
    ensures no_stop { result ≢ Err Status.Stopped }
    ensures no_door { result ≢ Err Status.DoorFault }
{
    match first_listing(alloc, asked.image, input, output) {
        Ok(listing) => match in_regions(alloc, listing, asked.regions) {
            Ok(base) => Ok(base),
            Err(AllocError) => Err(Status::Memory),
        },
        Err(status) => Err(status),
    }
}

/// The listing of the cells that a fleet begins with.
fn first_listing<S: Source, K: Sink>(
    alloc: Global,
    image: bool,
    input: &mut S,
    output: &mut K,
) -> Result<Listing, Status>
    ensures begins { IfOk result (λ listing. BeginsWith image (record { taken = S.taken input.old; left = S.left input.old; faults = S.faults input.old }) (record { taken = S.taken input.new; left = S.left input.new; faults = S.faults input.new }) (store_of listing)) }
    ensures silent { IfOk result (λ listing. output.new ≡ output.old) }
    ensures base { IfOk result (λ listing. IsBase (store_of listing)) }
    ensures lacks { IfErr result (λ status. LacksStore image (record { taken = S.taken input.old; left = S.left input.old; faults = S.faults input.old }) (record { taken = S.taken input.new; left = S.left input.new; faults = S.faults input.new }) (K.held output.old) (K.held output.new) status) }
    ensures input { image ≡ false → input.new ≡ input.old }
    ensures reads_later { S.faults input.old ≤ S.faults input.new }
    ensures writes_later { K.faults output.old ≤ K.faults output.new }
    ensures read_fault { result ≡ Err Status.ReadFault → Rose (S.faults input.old) (S.faults input.new) }
    ensures write_fault { result ≡ Err Status.WriteFault → Rose (K.faults output.old) (K.faults output.new) }
    ensures not_done { result ≢ Err Status.Done }
    ensures no_clock { result ≢ Err Status.ClockFault }
    ensures no_stop { result ≢ Err Status.Stopped }
    ensures no_door { result ≢ Err Status.DoorFault }
{
    if !image {
        return Ok(Listing::none(alloc, Widths::three()));
    }
    match load_image(alloc, input, output) {
        Ok(listing) => Ok(listing),
        Err(end) => Err(status_of(end)),
    }
}

/// The store of a listing, in so many regions of points. It fails only for want of memory.
fn in_regions(alloc: Global, listing: Listing, regions: u32) -> Result<Regions, AllocError>
    requires least { 1 ≤ regions }
    requires most { regions ≤ 16 }
    requires base { IsBase (store_of listing) }
    ensures content { IfOk result (λ base. base.content ≡ store_of listing) }
    ensures divided { IfOk result (λ base. base.data_regions ≡ regions) }
{
    let _ = listing.lines();
    flawless_is_base();
    Regions::of(alloc, listing, regions)
}
