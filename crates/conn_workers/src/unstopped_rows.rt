//! Rows that are never stopped.
ghost use Rattle.std.specs.Prelude.{◌≡◌};

use cell_model::rows::Rows;
use cell_store::SitePass;
use region_locks::{Gate, StepNames};
use std::marker::Model;
use std::sync::Wait;

/// Rows whose caller is never stopped.
pub trait UnstoppedRows: Rows {
    /// No step of theirs was ever stopped. It does nothing.
    fn never_stopped()
        ensures { (rows : Self) → Self.stops rows ≡ 0 };
}

impl<'a, J: StepNames, G: Gate + Drop, T: Wait> UnstoppedRows for SitePass<'a, J, G, T> {
    fn never_stopped() {}
}
