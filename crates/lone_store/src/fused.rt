//! Rows over rows, which ask a halt before each step.
ghost use Rattle.std.specs.Prelude.{◌≡◌, ℕ, ◌+◌, ◌≤◌, Err, IsErr, IfOk, IfErr, OnOk, OnErr};
ghost use Rattle.tsd_base.specs.Points.{data_point};
ghost use Rattle.tsd_io.specs.Causes.{Rose};
ghost use Rattle.cell_model.specs.declared.answers.RowsFault.TheVariants.{Stopped as StoppedFault};
ghost use Rattle.cell_model.specs.declared.events.Step.TheVariants.{Read, NextRow, Bump, Claim, PutPoint, AppendPoint, PutMerged, DropCells};
ghost use Rattle.cell_model.specs.declared.events.Reply.TheVariants.{Shown, Next, BumpReply, ClaimReply, Written, Removed};
ghost use Rattle.cell_model.specs.Ranges.{InOneRange};
ghost use Rattle.cell_model.specs.Seen.{Waited, Stepped, IsPossible, Knows, RoseIfStopped};
ghost use Rattle.lone_store.specs.FusedRows.{FusedRows, AsksOnce};

use cell_model::answers::{Bumped, Claimed, RowsFault, Stopped};
use cell_model::row::{Cells, Drops, Found, Row};
use cell_model::rows::Rows;
use qual_codec::Bytes;
use row_key::{Table, Widths};
use std::alloc::Global;
use std::marker::Model;
use tsd_base::kinds::Kind;
use tsd_base::points::Point;
use tsd_io::halt::Halt;

/// Rows under a halt.
///
/// Before each step the halt is asked, once. Where it refuses, the step isn't made and `Stopped` is answered; else the step is
/// that of the rows under it, which alone answer `Stopped` then. Its count of stops is the halt's and the rows' together.
#[derive(Drop)]
pub struct Fused<R: Rows + Drop, H: Halt + Drop> {
    rows: R,
    halt: H,
}

impl<R: Rows + Drop, H: Halt + Drop> Model for Fused<R, H> {
    ghost use Rattle.lone_store.specs.FusedRows.{FusedRows};

    ghost Value = { FusedRows R H };

    ghost view = { λ f. record { rows = f.rows; halt = f.halt } };
}

impl<R: Rows + Drop, H: Halt + Drop> Fused<R, H> {
    /// These rows under this halt.
    pub fn make(rows: R, halt: H) -> Fused<R, H>
        ensures { result ≡ record { rows = rows; halt = halt } }
    {
        Fused { rows, halt }
    }

    /// The rows and the halt, as their last step left them.
    pub fn part(self) -> (R, H)
        ensures { result ≡ (self.rows, self.halt) }
    {
        (self.rows, self.halt)
    }
}

impl<R: Rows + Drop, H: Halt + Drop> Rows for Fused<R, H> {
    ghost seen = { λ f. R.seen f.rows };

    ghost stops = { λ f. H.stops f.halt + R.stops f.rows };

    ghost spare = { λ f. R.spare f.rows };

    fn widths(&self) -> Widths
        ensures { result ≡ (R.seen self.now.rows).base.widths }
    {
        self.rows.widths()
    }

    fn read(&mut self, alloc: Global, row: &Row) -> Result<Cells, RowsFault>
        // As of all rows.
        ensures ok { IfOk result (λ cells. Stepped (R.seen self.old.rows) (Read row.now) (Shown cells) (R.seen self.new.rows)) }
        ensures err { OnErr result (Waited (R.seen self.old.rows) (R.seen self.new.rows)) }
        ensures possible { OnOk result (IsPossible (R.seen self.new.rows)) }
        ensures lives { OnErr result (IsPossible (R.seen self.old.rows) → IsPossible (R.seen self.new.rows)) }
        ensures grows { H.stops self.old.halt + R.stops self.old.rows ≤ H.stops self.new.halt + R.stops self.new.rows }
        ensures stopped { IfErr result (RoseIfStopped (H.stops self.old.halt + R.stops self.old.rows) (H.stops self.new.halt + R.stops self.new.rows)) }
        ensures spare { OnOk result (2 ≤ R.spare self.new.rows) }

        // The halt is asked.
        ensures asked { AsksOnce H.answers H.stops R.stops self.old self.new (result ≡ Err StoppedFault) }
    {
        if !self.halt.may_step() {
            return Err(RowsFault::Stopped);
        }
        self.rows.read(alloc, row)
    }

    fn next_row(
        &mut self,
        alloc: Global,
        table: Table,
        from: &Bytes,
        to: &Bytes,
    ) -> Result<Option<Found>, RowsFault>
        requires range { InOneRange (R.seen self.old.rows).base.widths table from.now to.now }
        // As of all rows.
        ensures ok { IfOk result (λ found. Stepped (R.seen self.old.rows) (NextRow table from.now to.now) (Next found) (R.seen self.new.rows)) }
        ensures err { OnErr result (Waited (R.seen self.old.rows) (R.seen self.new.rows)) }
        ensures possible { OnOk result (IsPossible (R.seen self.new.rows)) }
        ensures lives { OnErr result (IsPossible (R.seen self.old.rows) → IsPossible (R.seen self.new.rows)) }
        ensures grows { H.stops self.old.halt + R.stops self.old.rows ≤ H.stops self.new.halt + R.stops self.new.rows }
        ensures stopped { IfErr result (RoseIfStopped (H.stops self.old.halt + R.stops self.old.rows) (H.stops self.new.halt + R.stops self.new.rows)) }
        ensures spare { OnOk result (2 ≤ R.spare self.new.rows) }

        // The halt is asked.
        ensures asked { AsksOnce H.answers H.stops R.stops self.old self.new (result ≡ Err StoppedFault) }
    {
        if !self.halt.may_step() {
            return Err(RowsFault::Stopped);
        }
        self.rows.next_row(alloc, table, from, to)
    }

    fn bump(&mut self, kind: Kind) -> Result<Bumped, Stopped>
        requires spare { 1 ≤ R.spare self.old.rows }
        // As of all rows.
        ensures ok { IfOk result (λ bumped. Stepped (R.seen self.old.rows) (Bump kind) (BumpReply bumped) (R.seen self.new.rows)) }
        ensures err { OnErr result (Waited (R.seen self.old.rows) (R.seen self.new.rows)) }
        ensures possible { OnOk result (IsPossible (R.seen self.new.rows)) }
        ensures lives { OnErr result (IsPossible (R.seen self.old.rows) → IsPossible (R.seen self.new.rows)) }
        ensures grows { H.stops self.old.halt + R.stops self.old.rows ≤ H.stops self.new.halt + R.stops self.new.rows }
        ensures stopped { OnErr result (Rose (H.stops self.old.halt + R.stops self.old.rows) (H.stops self.new.halt + R.stops self.new.rows)) }
        ensures spare { R.spare self.old.rows ≤ R.spare self.new.rows + 1 }

        // The halt is asked.
        ensures asked { AsksOnce H.answers H.stops R.stops self.old self.new (IsErr result) }
    {
        if !self.halt.may_step() {
            return Err(Stopped);
        }
        self.rows.bump(kind)
    }

    fn claim(
        &mut self,
        alloc: Global,
        row: &Row,
        qual: &Bytes,
        value: &Bytes,
    ) -> Result<Claimed, RowsFault>
        requires knows { Knows (R.seen self.old.rows) (Claim row.now qual.now value.now) }
        // As of all rows.
        ensures ok { IfOk result (λ claimed. Stepped (R.seen self.old.rows) (Claim row.now qual.now value.now) (ClaimReply claimed) (R.seen self.new.rows)) }
        ensures err { OnErr result (Waited (R.seen self.old.rows) (R.seen self.new.rows)) }
        ensures possible { OnOk result (IsPossible (R.seen self.new.rows)) }
        ensures lives { OnErr result (IsPossible (R.seen self.old.rows) → IsPossible (R.seen self.new.rows)) }
        ensures grows { H.stops self.old.halt + R.stops self.old.rows ≤ H.stops self.new.halt + R.stops self.new.rows }
        ensures stopped { IfErr result (RoseIfStopped (H.stops self.old.halt + R.stops self.old.rows) (H.stops self.new.halt + R.stops self.new.rows)) }
        ensures spare { OnOk result (2 ≤ R.spare self.new.rows) }

        // The halt is asked.
        ensures asked { AsksOnce H.answers H.stops R.stops self.old self.new (result ≡ Err StoppedFault) }
    {
        if !self.halt.may_step() {
            return Err(RowsFault::Stopped);
        }
        self.rows.claim(alloc, row, qual, value)
    }

    fn put_point(
        &mut self,
        alloc: Global,
        point: &Point,
        row: &Row,
        qual: &Bytes,
        value: &Bytes,
    ) -> Result<(), RowsFault>
        requires knows { Knows (R.seen self.old.rows) (PutPoint (data_point point.now) row.now qual.now value.now) }
        // As of all rows.
        ensures ok { OnOk result (Stepped (R.seen self.old.rows) (PutPoint (data_point point.now) row.now qual.now value.now) Written (R.seen self.new.rows)) }
        ensures err { OnErr result (Waited (R.seen self.old.rows) (R.seen self.new.rows)) }
        ensures possible { OnOk result (IsPossible (R.seen self.new.rows)) }
        ensures lives { OnErr result (IsPossible (R.seen self.old.rows) → IsPossible (R.seen self.new.rows)) }
        ensures grows { H.stops self.old.halt + R.stops self.old.rows ≤ H.stops self.new.halt + R.stops self.new.rows }
        ensures stopped { IfErr result (RoseIfStopped (H.stops self.old.halt + R.stops self.old.rows) (H.stops self.new.halt + R.stops self.new.rows)) }
        ensures spare { OnOk result (2 ≤ R.spare self.new.rows) }

        // The halt is asked.
        ensures asked { AsksOnce H.answers H.stops R.stops self.old self.new (result ≡ Err StoppedFault) }
    {
        if !self.halt.may_step() {
            return Err(RowsFault::Stopped);
        }
        self.rows.put_point(alloc, point, row, qual, value)
    }

    fn append_point(
        &mut self,
        alloc: Global,
        point: &Point,
        row: &Row,
        piece: &Bytes,
    ) -> Result<(), RowsFault>
        requires knows { Knows (R.seen self.old.rows) (AppendPoint (data_point point.now) row.now piece.now) }
        // As of all rows.
        ensures ok { OnOk result (Stepped (R.seen self.old.rows) (AppendPoint (data_point point.now) row.now piece.now) Written (R.seen self.new.rows)) }
        ensures err { OnErr result (Waited (R.seen self.old.rows) (R.seen self.new.rows)) }
        ensures possible { OnOk result (IsPossible (R.seen self.new.rows)) }
        ensures lives { OnErr result (IsPossible (R.seen self.old.rows) → IsPossible (R.seen self.new.rows)) }
        ensures grows { H.stops self.old.halt + R.stops self.old.rows ≤ H.stops self.new.halt + R.stops self.new.rows }
        ensures stopped { IfErr result (RoseIfStopped (H.stops self.old.halt + R.stops self.old.rows) (H.stops self.new.halt + R.stops self.new.rows)) }
        ensures spare { OnOk result (2 ≤ R.spare self.new.rows) }

        // The halt is asked.
        ensures asked { AsksOnce H.answers H.stops R.stops self.old self.new (result ≡ Err StoppedFault) }
    {
        if !self.halt.may_step() {
            return Err(RowsFault::Stopped);
        }
        self.rows.append_point(alloc, point, row, piece)
    }

    fn put_merged(
        &mut self,
        alloc: Global,
        row: &Row,
        qual: &Bytes,
        value: &Bytes,
    ) -> Result<(), RowsFault>
        requires knows { Knows (R.seen self.old.rows) (PutMerged row.now qual.now value.now) }
        // As of all rows.
        ensures ok { OnOk result (Stepped (R.seen self.old.rows) (PutMerged row.now qual.now value.now) Written (R.seen self.new.rows)) }
        ensures err { OnErr result (Waited (R.seen self.old.rows) (R.seen self.new.rows)) }
        ensures possible { OnOk result (IsPossible (R.seen self.new.rows)) }
        ensures lives { OnErr result (IsPossible (R.seen self.old.rows) → IsPossible (R.seen self.new.rows)) }
        ensures grows { H.stops self.old.halt + R.stops self.old.rows ≤ H.stops self.new.halt + R.stops self.new.rows }
        ensures stopped { IfErr result (RoseIfStopped (H.stops self.old.halt + R.stops self.old.rows) (H.stops self.new.halt + R.stops self.new.rows)) }
        ensures spare { OnOk result (2 ≤ R.spare self.new.rows) }

        // The halt is asked.
        ensures asked { AsksOnce H.answers H.stops R.stops self.old self.new (result ≡ Err StoppedFault) }
    {
        if !self.halt.may_step() {
            return Err(RowsFault::Stopped);
        }
        self.rows.put_merged(alloc, row, qual, value)
    }

    fn drop_cells(&mut self, row: Row, which: Drops) -> Result<u64, Stopped>
        requires knows { Knows (R.seen self.old.rows) (DropCells row which) }
        requires spare { 1 ≤ R.spare self.old.rows }
        // As of all rows.
        ensures ok { IfOk result (λ count. Stepped (R.seen self.old.rows) (DropCells row which) (Removed count) (R.seen self.new.rows)) }
        ensures err { OnErr result (Waited (R.seen self.old.rows) (R.seen self.new.rows)) }
        ensures possible { OnOk result (IsPossible (R.seen self.new.rows)) }
        ensures lives { OnErr result (IsPossible (R.seen self.old.rows) → IsPossible (R.seen self.new.rows)) }
        ensures grows { H.stops self.old.halt + R.stops self.old.rows ≤ H.stops self.new.halt + R.stops self.new.rows }
        ensures stopped { OnErr result (Rose (H.stops self.old.halt + R.stops self.old.rows) (H.stops self.new.halt + R.stops self.new.rows)) }
        ensures spare { R.spare self.old.rows ≤ R.spare self.new.rows + 1 }

        // The halt is asked.
        ensures asked { AsksOnce H.answers H.stops R.stops self.old self.new (IsErr result) }
    {
        if self.halt.may_step() {
            self.rows.drop_cells(row, which)
        } else {
            Err(Stopped)
        }
    }
}
