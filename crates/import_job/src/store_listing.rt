//! The listing of a store into which points were imported.
ghost use Rattle.std.specs.Prelude.{◌≡◌, ◌≢◌, ◌≤◌, true, OnOk};
ghost use Rattle.tsd_io.specs.Causes.{Rose};
ghost use Rattle.cell_model.specs.History.{store_after};
ghost use Rattle.cell_model.specs.Lawful.{IsLawful};
ghost use Rattle.cell_model.specs.Seen.{Fits, IsPossible};
ghost use Rattle.cell_model.specs.Stops.{CountsStops, is_stop};
ghost use Rattle.cell_solo.specs.Turns.{history_of, sight};
ghost use Rattle.import_job.specs.Changes.{Changes, MakesIf};
ghost use Rattle.import_job.specs.Listings.{GivesCells, GivesListing, end_of_rows};

use crate::compaction::compact_rows;
use crate::import_end::{ImportEnd, Imported};
use cell_model::answers::RowsFault;
use cell_model::rows::Rows;
use cell_region::Regions;
use cell_solo::Solo;
use listing_print::{GiveFault, give_body};
use lone_store::{Fused, Store};
use std::alloc::Global;
use tsd_io::halt::Halt;
use tsd_io::ports::Sink;

/// Gives the listing of a store, of which each row of points is compacted first where that is asked.
pub(crate) fn give_store<K: Sink, H: Halt + Drop>(
    alloc: Global,
    store: Store<H>,
    compact: bool,
    sink: &mut K,
) -> Imported<H>
    requires alone { (sight store.rows.rows).alone ≡ true }
    requires possible { IsPossible (sight store.rows.rows) }
    ensures gives { GivesListing compact (sight store.rows.rows) (K.held sink.old) (K.held sink.new) result.end }
    ensures writes_later { K.faults sink.old ≤ K.faults sink.new }
    ensures stops_later { H.stops store.rows.halt ≤ H.stops result.halt }
    ensures no_read { result.end ≢ ImportEnd.ReadFault }
    ensures write_fault { result.end ≡ ImportEnd.WriteFault → Rose (K.faults sink.old) (K.faults sink.new) }
    ensures stopped { result.end ≡ ImportEnd.Stopped → Rose (H.stops store.rows.halt) (H.stops result.halt) }
{
    let rows = store.part();
    give_rows(alloc, rows, compact, sink)
}

/// The same of the rows under the store.
fn give_rows<K: Sink, H: Halt + Drop>(
    alloc: Global,
    rows: Fused<Solo<Regions>, H>,
    compact: bool,
    sink: &mut K,
) -> Imported<H>
    requires alone { (sight rows.rows).alone ≡ true }
    requires possible { IsPossible (sight rows.rows) }
    ensures gives { GivesListing compact (sight rows.rows) (K.held sink.old) (K.held sink.new) result.end }
    ensures writes_later { K.faults sink.old ≤ K.faults sink.new }
    ensures stops_later { H.stops rows.halt ≤ H.stops result.halt }
    ensures no_read { result.end ≢ ImportEnd.ReadFault }
    ensures write_fault { result.end ≡ ImportEnd.WriteFault → Rose (K.faults sink.old) (K.faults sink.new) }
    ensures stopped { result.end ≡ ImportEnd.Stopped → Rose (H.stops rows.halt) (H.stops result.halt) }
{
    let mut rows = rows;
    match compact_if(alloc, compact, &mut rows) {
        Ok(()) => {
            let (solo, halt) = rows.part();
            let end = give_solo(alloc, solo, sink);
            Imported { end, halt }
        }
        Err(fault) => {
            let (_solo, halt) = rows.part();
            let end = end_of_rows(fault);
            Imported { end, halt }
        }
    }
}

/// The end of an import a step of which failed.
fn end_of_rows(fault: RowsFault) -> ImportEnd
    ensures { result ≡ end_of_rows fault }
{
    match fault {
        RowsFault::OutOfMemory => ImportEnd::OutOfMemory,
        RowsFault::Stopped => ImportEnd::Stopped,
    }
}

/// Compacts each row of points where that is asked.
fn compact_if<R: Rows>(alloc: Global, compact: bool, rows: &mut R) -> Result<(), RowsFault>
    requires alone { (R.seen rows.old).alone ≡ true }
    requires possible { IsPossible (R.seen rows.old) }
    ensures makes { OnOk result (Changes (MakesIf compact) (R.seen rows.old) (R.seen rows.new)) }
    ensures stops { CountsStops is_stop result (R.stops rows.old) (R.stops rows.new) }
{
    if compact {
        compact_rows(alloc, rows)
    } else {
        Ok(())
    }
}

/// Gives the cells of a store, of which one row is held at a time.
fn give_solo<K: Sink>(alloc: Global, solo: Solo<Regions>, sink: &mut K) -> ImportEnd
    ensures gives { GivesCells (store_after (history_of solo)) (K.held sink.old) (K.held sink.new) result }
    ensures lawful { IsLawful (history_of solo) }
    ensures fits { Fits (sight solo) (history_of solo) }
    ensures later { K.faults sink.old ≤ K.faults sink.new }
    ensures no_read { result ≢ ImportEnd.ReadFault }
    ensures no_stop { result ≢ ImportEnd.Stopped }
    ensures write_fault { result ≡ ImportEnd.WriteFault → Rose (K.faults sink.old) (K.faults sink.new) }
{
    let body = solo.part();
    match give_body(alloc, sink, &body) {
        Ok(()) => ImportEnd::Done,
        Err(GiveFault::Failed) => ImportEnd::WriteFault,
        Err(GiveFault::OutOfMemory) => ImportEnd::OutOfMemory,
    }
}
