//! The ids of a point's names.
ghost use Rattle.std.specs.Prelude.{◌≡◌, true, false, [], ◌∷◌, IfOk};
ghost use Rattle.uid_table.specs.Shown.{HasShown};
ghost use Rattle.point_put.specs.Configs.{makes};
ghost use Rattle.cell_model.specs.Calls.{Leaves};
ghost use Rattle.point_put.specs.Admissions.{admission};
ghost use Rattle.point_put.specs.PutFaults.{is_stop};
ghost use Rattle.point_put.specs.ShownIds.{NamesAsked};

use crate::config::Config;
use crate::fault::PutFault;
use cell_model::rows::Rows;
use std::alloc::Global;
use tsd_base::kinds::Kind;
use tsd_base::names::Name;
use tsd_hooks::UidRule;
use uid_table::id_answers::{AssignFault, ResolveFault};
use uid_table::uids::Uids;

/// The id of a name that is given one where it has none and the rule allows it.
fn assigned<R: Rows + Drop>(
    names: &mut Uids<R>,
    alloc: Global,
    rule: &UidRule,
    config: &Config,
    kind: Kind,
    name: &Name,
) -> Result<u32, PutFault>
    requires { makes config.now kind ≡ true }
    ensures asked { NamesAsked (admission config.now rule.now.patterns) ((kind, name.now) ∷ []) (R.seen names.old.rows) result (R.seen names.new.rows) }
    ensures id { IfOk result (HasShown (R.seen names.new.rows) kind name.now) }
    ensures leaves { Leaves is_stop result (R.seen names.new.rows) (R.stops names.old.rows) (R.stops names.new.rows) }
{
    match names.assign(alloc, rule, kind, name) {
        Ok(answer) => Ok(answer.id()),
        Err(AssignFault::Filtered { kind }) => {
            let Ok(name) = name.again(alloc) else {
                return Err(PutFault::OutOfMemory);
            };
            Err(PutFault::Filtered { kind, name })
        }
        Err(AssignFault::Exhausted { kind }) => Err(PutFault::Exhausted { kind }),
        Err(AssignFault::OutOfMemory) => Err(PutFault::OutOfMemory),
        Err(AssignFault::Stopped) => Err(PutFault::Stopped),
    }
}

/// The id of a name that is given none.
fn resolved<R: Rows + Drop>(
    names: &mut Uids<R>,
    alloc: Global,
    rule: &UidRule,
    config: &Config,
    kind: Kind,
    name: &Name,
) -> Result<u32, PutFault>
    requires { makes config.now kind ≡ false }
    ensures asked { NamesAsked (admission config.now rule.now.patterns) ((kind, name.now) ∷ []) (R.seen names.old.rows) result (R.seen names.new.rows) }
    ensures id { IfOk result (HasShown (R.seen names.new.rows) kind name.now) }
    ensures leaves { Leaves is_stop result (R.seen names.new.rows) (R.stops names.old.rows) (R.stops names.new.rows) }
{
    match names.resolve(alloc, kind, name) {
        Ok(id) => Ok(id),
        Err(ResolveFault::Unknown { kind }) => {
            let Ok(name) = name.again(alloc) else {
                return Err(PutFault::OutOfMemory);
            };
            Err(PutFault::Unknown { kind, name })
        }
        Err(ResolveFault::OutOfMemory) => Err(PutFault::OutOfMemory),
        Err(ResolveFault::Stopped) => Err(PutFault::Stopped),
    }
}

/// The id of a name, which is given one where names of its kind are, it has none and the rule allows it.
pub fn id_for<R: Rows + Drop>(
    names: &mut Uids<R>,
    alloc: Global,
    rule: &UidRule,
    config: &Config,
    kind: Kind,
    name: &Name,
) -> Result<u32, PutFault>
    ensures asked { NamesAsked (admission config.now rule.now.patterns) ((kind, name.now) ∷ []) (R.seen names.old.rows) result (R.seen names.new.rows) }
    ensures id { IfOk result (HasShown (R.seen names.new.rows) kind name.now) }
    ensures leaves { Leaves is_stop result (R.seen names.new.rows) (R.stops names.old.rows) (R.stops names.new.rows) }
{
    if config.makes(kind) {
        assigned(names, alloc, rule, config, kind, name)
    } else {
        resolved(names, alloc, rule, config, kind, name)
    }
}
