//! What a run prints, and its status.
ghost use Rattle.std.specs.Prelude.{◌≡◌, IfOk};
ghost use Rattle.batch_run.specs.Outcomes.{refused};
ghost use Rattle.batch_run.specs.OutputText.{outcome_of};

use crate::status::Status;
use std::alloc::AllocError;

/// What a run prints, and its status.
#[derive(Drop)]
pub struct Printed {
    pub status: Status,
    pub text: Vec<u8>,
}

impl Printed {
    /// A refusal: the text as one line.
    pub fn refused(mut text: Vec<u8>) -> Result<Printed, AllocError>
        ensures { IfOk result (λ printed. outcome_of printed ≡ refused text.items) }
    {
        text.extend_from_slice(b"\n")?;
        Ok(Printed {
            status: Status::Refused,
            text,
        })
    }
}
