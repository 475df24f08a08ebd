//! Refusals of queries.
ghost use Rattle.std.specs.Prelude.{◌≡◌, ◌≢◌, IfOk, IsOk};
ghost use Rattle.metric_scan.specs.AskFaultTexts.{ask_fault_text};
ghost use Rattle.query_text.specs.QueryFaultTexts.{query_fault_text};
ghost use Rattle.batch_run.specs.Outcomes.{refused_query};
ghost use Rattle.batch_run.specs.OutputText.{outcome_of};

use crate::output_text::Printed;
use metric_scan::AskFault;
use query_text::queries::QueryFault;
use std::alloc::{AllocError, Global};

/// What is printed of a text that is no query. Want of memory is no refusal, and fails.
pub fn bad_query(alloc: Global, fault: QueryFault) -> Result<Printed, AllocError>
    ensures refused { IfOk result (λ printed. outcome_of printed ≡ refused_query (query_fault_text fault)) }
    ensures told { IsOk result → fault ≢ QueryFault.OutOfMemory }
{
    let mut text = Vec::from_slice(alloc, b"query: ")?;
    fault.write_text(&mut text)?;
    Printed::refused(text)
}

/// What is printed of a query that has no answer. Want of memory is no refusal, and fails.
pub fn no_answer(alloc: Global, fault: AskFault) -> Result<Printed, AllocError>
    requires { fault ≢ AskFault.Stopped }
    ensures refused { IfOk result (λ printed. outcome_of printed ≡ refused_query (ask_fault_text fault)) }
    ensures told { IsOk result → fault ≢ AskFault.OutOfMemory }
{
    let mut text = Vec::from_slice(alloc, b"query: ")?;
    fault.write_text(&mut text)?;
    Printed::refused(text)
}
