//! Finding the name of an id.
ghost use Rattle.std.specs.Prelude.{IfOk};
ghost use Rattle.tsd_base.specs.Alphabet.{IsName};
ghost use Rattle.cell_model.specs.Stops.{is_stop};
ghost use Rattle.cell_model.specs.Calls.{Leaves};
ghost use Rattle.uid_table.specs.Shown.{KnowsName, HasShownName};
ghost use Rattle.uid_table.specs.IdSteps.{MadeSo, NameMade, IsNamed};

use crate::id_reads::{qualifier_bytes, row_of_id};
use cell_model::answers::RowsFault;
use cell_model::rows::Rows;
use std::alloc::Global;
use tsd_base::kinds::Kind;
use tsd_base::names::Name;

/// The name that these bytes are.
pub fn name_from(alloc: Global, bytes: &[u8]) -> Result<Name, RowsFault>
    requires { IsName bytes.now }
    ensures { IsNamed bytes.now result }
{
    match Name::read(alloc, bytes) {
        Ok(name) => Ok(name),
        Err(_) => Err(RowsFault::OutOfMemory),
    }
}

/// The name of an id that a name is known to have, by one read.
pub fn name_in<R: Rows>(rows: &mut R, alloc: Global, kind: Kind, id: u32) -> Result<Name, RowsFault>
    requires { KnowsName (R.seen rows.old) kind id }
    ensures made { MadeSo (R.seen rows.old) (NameMade (R.seen rows.old).base.widths kind id result) (R.seen rows.new) }
    ensures name { IfOk result (HasShownName (R.seen rows.new) kind id) }
    ensures leaves { Leaves is_stop result (R.seen rows.new) (R.stops rows.old) (R.stops rows.new) }
{
    let row = row_of_id(kind, id, rows.widths());
    let cells = rows.read(alloc, &row)?;
    match cells.value_at(qualifier_bytes(kind)) {
        Some(bytes) => name_from(alloc, bytes),
        None => unreachable!(),
    }
}
