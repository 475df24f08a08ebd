//! Laws of runs.
ghost use Rattle.conn_workers.specs.ServedLinks.{AllTell};
ghost use Rattle.tsd_run.specs.RunCompletes.{RunCompletes};

use tsd_doors::doors::Doors;

/// Where the words ask for a command, no device fails, the halt refuses nothing and fewer than 2^40 bytes of input come, a run that returns
/// ends with the status 0, with a refusal, or for want of memory. What it printed then is told by the clause `ran` of
/// [`crate::run::run`], and so is the cause of a refusal.
pub fn run_completes<D: Doors>()
    ensures { RunCompletes (AllTell D.Inlet.taken) (AllTell D.Outlet.held) }
{}
