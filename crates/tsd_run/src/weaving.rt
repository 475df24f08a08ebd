//! The command `weave`.
ghost use Rattle.std.specs.Prelude.{◌≡◌, ◌≢◌, ◌≤◌, IfOk};
ghost use Rattle.tsd_io.specs.Causes.{Rose};
ghost use Rattle.weave_script.specs.declared.script_counts.Woven.{Woven};
ghost use Rattle.weave_script.specs.WovenCounts.{CountsWoven, woven_text};
ghost use Rattle.tsd_run.specs.Runs.{Weaves};

use batch_run::Status;
use listing_print::give_text;
use std::alloc::{AllocError, Global};
use tsd_io::ports::{Failed, Sink};
use weave_script::counts_text::woven_text;
use weave_script::script_counts::weave;

/// Prints the summary of what the script of a seed leaves.
pub(crate) fn run_weave<K: Sink>(alloc: Global, seed: u64, count: u32, output: &mut K) -> Status
    ensures weaves { Weaves count (K.held output.old) (K.held output.new) result }
    ensures writes_later { K.faults output.old ≤ K.faults output.new }
    ensures write_fault { result ≡ Status.WriteFault → Rose (K.faults output.old) (K.faults output.new) }
    ensures no_read { result ≢ Status.ReadFault }
    ensures no_clock { result ≢ Status.ClockFault }
    ensures no_stop { result ≢ Status.Stopped }
    ensures no_door { result ≢ Status.DoorFault }
{
    let Ok(text) = summary(alloc, seed, count) else {
        return Status::Memory;
    };
    match give_text(output, &text) {
        Ok(()) => Status::Done,
        Err(Failed) => Status::WriteFault,
    }
}

/// The summary's lines.
fn summary(alloc: Global, seed: u64, count: u32) -> Result<Vec<u8>, AllocError>
    ensures { IfOk result (λ text. (w : Woven) × CountsWoven count w × (text.items ≡ woven_text w)) }
{
    let woven = weave(alloc, seed, count)?;
    woven_text(alloc, &woven)
}
