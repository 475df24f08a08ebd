//! What says which points are handed on, and what prints them.

use std::alloc::AllocError;
use tsd_base::points::Point;
use tsd_hooks::{PointRule, Printer};

/// Says which points are handed on: those whose metric begins with a prefix.
pub trait SelectsPoints {
    ghost use Rattle.std.specs.Prelude.{◌≡◌, ℕ, List};
    ghost use Rattle.tsd_base.specs.Points.{data_point};
    ghost use Rattle.tsd_hooks.specs.FedPoints.{is_under};

    ghost prefix: { Self → List ℕ };

    /// Whether the point's metric begins with the prefix.
    fn passes(&self, point: &Point) -> bool
        ensures { result ≡ is_under (prefix self.now) (data_point point.now) };
}

impl SelectsPoints for PointRule {
    ghost prefix = { λ r. r.prefix };

    fn passes(&self, point: &Point) -> bool {
        self.passes(point)
    }
}

/// Gives the lines of points.
pub trait PrintsPoints {
    ghost use Rattle.std.specs.Prelude.{◌≡◌, IfOk};
    ghost use Rattle.tsd_base.specs.Points.{data_point};
    ghost use Rattle.tsd_hooks.specs.PointText.{point_text};

    /// The line of a point, with LF. It fails only for want of memory.
    fn print(&self, point: &Point) -> Result<Vec<u8>, AllocError>
        ensures { IfOk result (λ text. text.items ≡ point_text (data_point point.now)) };
}

impl PrintsPoints for Printer {
    fn print(&self, point: &Point) -> Result<Vec<u8>, AllocError> {
        self.print(point)
    }
}
