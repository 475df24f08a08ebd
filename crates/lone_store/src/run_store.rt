//! The store of a run.
ghost use Rattle.std.specs.Prelude.{◌≡◌, IfOk, IfErr};
ghost use Rattle.cell_solo.specs.Turns.{sight};
ghost use Rattle.lone_store.specs.LoneStores.{IsFresh};

use crate::Fused;
use cell_model::Listing;
use cell_region::{DATA_REGIONS, Regions};
use cell_solo::Solo;
use row_key::Widths;
use std::alloc::{AllocError, Global};
use tsd_io::halt::Halt;
use uid_table::uids::{KEPT_PAIRS, Uids};

/// The names and points of a run, in the memory of one caller, which steps alone, and where its halt lets it.
pub type Store<H> = Uids<Fused<Solo<Regions>, H>>;

/// A store of no names and no points under a halt, whose ids have these widths. The halt is handed back as it was where there is no memory.
pub fn empty<H: Halt + Drop>(
    alloc: Global,
    widths: Widths,
    halt: H,
) -> Result<Store<H>, (AllocError, H)>
    ensures fresh { IfOk result (λ store. IsFresh widths (sight store.rows.rows)) }
    ensures halt { IfOk result (λ store. store.rows.halt ≡ halt) }
    ensures refused { IfErr result (λ refused. refused.1 ≡ halt) }
{
    let rows = match alone(alloc, widths) {
        Ok(rows) => rows,
        Err(error) => return Err((error, halt)),
    };
    match Uids::over(alloc, Fused::make(rows, halt), KEPT_PAIRS) {
        Ok(store) => Ok(store),
        Err((error, fused)) => {
            let (_rows, halt) = fused.part();
            Err((error, halt))
        }
    }
}

/// Rows of one caller without a cell. It fails only for want of memory.
fn alone(alloc: Global, widths: Widths) -> Result<Solo<Regions>, AllocError>
    ensures { IfOk result (λ rows. IsFresh widths (sight rows)) }
{
    let body = Regions::of(alloc, Listing::none(alloc, widths), DATA_REGIONS)?;
    let rows = Solo::make(alloc, body, 1)?;
    Ok(rows)
}

/// The halt of a store, as its last step left it.
pub fn halt_of<H: Halt + Drop>(store: Store<H>) -> H
    ensures { result ≡ store.rows.halt }
{
    let (_rows, halt) = store.part().part();
    halt
}
