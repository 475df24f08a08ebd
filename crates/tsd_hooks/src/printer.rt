//! What prints points.
ghost use Rattle.std.specs.Prelude.{◌≡◌, IfOk};
ghost use Rattle.tsd_base.specs.Points.{data_point};
ghost use Rattle.tsd_hooks.specs.FedPoints.{PrintsLines};
ghost use Rattle.tsd_hooks.specs.PointText.{point_text};

use std::alloc::AllocError;
use tsd_base::points::Point;

/// A function that gives a point as text. It fails only for want of memory.
pub type PointText = Box<dyn Fn(&Point) -> Result<Vec<u8>, AllocError> + Send + Sync>;

/// A function that gives the line of a point, as a dump has it.
///
/// That it may be called on every point, and gives that line or finds no memory, is true of every printer.
#[derive(Drop)]
pub struct Printer {
    text: PointText,
    ghost callable: { PointText.IsAlwaysCallable text },
    ghost prints: { PrintsLines (PointText.post text) },
}

impl Printer {
    /// Keeps a function that gives the lines of points.
    pub fn keep(text: PointText) -> Printer
        requires callable { PointText.IsAlwaysCallable text }
        requires prints { PrintsLines (PointText.post text) }
    {
        Printer { text }
    }

    /// The line of a point, with LF. It fails only for want of memory.
    pub fn print(&self, point: &Point) -> Result<Vec<u8>, AllocError>
        ensures { IfOk result (λ text. text.items ≡ point_text (data_point point.now)) }
    {
        (self.text)(point)
    }
}
