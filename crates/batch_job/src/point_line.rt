//! One line of input: nothing, a point, or a refusal.
ghost use Rattle.std.specs.Prelude.{◌≡◌, IfOk};
ghost use Rattle.tsd_base.specs.Points.{point_of};
ghost use Rattle.batch_job.specs.PointLines.{judged_point};
ghost use Rattle.batch_job.specs.Judgements.{judged_of};

use std::alloc::{AllocError, Global};
use tsd_base::kinds::Kind;
use tsd_base::point_text::read_point;
use tsd_base::points::{Point, PointFault};

/// What became of the text of a line.
#[derive(Drop)]
pub enum LineOutcome {
    /// Nothing but spaces.
    Blank,
    /// A point, which was gathered.
    Taken,
    /// A point for one of whose names there is no id left: the kind of the first such name.
    Full { kind: Kind },
    /// Anything else; the text says what is wrong.
    Refused { text: Vec<u8> },
}

/// What a text is that isn't blank.
#[derive(Drop)]
pub enum Judgement {
    /// A point.
    Taken { point: Point },
    /// Anything else; the text says what is wrong.
    Refused { text: Vec<u8> },
}

/// Judges a text that isn't blank. It fails only for want of memory.
pub fn judge(alloc: Global, text: &[u8]) -> Result<Judgement, AllocError>
    ensures { IfOk result (λ judgement. judged_of judgement ≡ judged_point (point_of text.now)) }
{
    match read_point(alloc, text) {
        Ok(point) => Ok(Judgement::Taken { point }),
        Err(PointFault::OutOfMemory) => Err(AllocError),
        Err(fault) => {
            let mut text = Vec::new(alloc);
            fault.write_text(&mut text)?;
            Ok(Judgement::Refused { text })
        }
    }
}
