//! Rows over rows, which hand on the points that are put or appended.
ghost use Rattle.std.specs.Prelude.{◌≡◌};
ghost use Rattle.cell_model.specs.Seen.{InEach};
ghost use Rattle.point_feed.specs.FedEntries.{AreLines, FeedsSince, fed};

use crate::feed_parts::{PrintsPoints, SelectsPoints};
use crate::feed_terms::FeedTerms;
use crate::kept_lines::{keep_made, line_for};
use cell_model::answers::{Bumped, Claimed, RowsFault, Stopped};
use cell_model::row::{Cells, Drops, Found, Row};
use cell_model::rows::Rows;
use qual_codec::Bytes;
use row_key::{Table, Widths};
use std::alloc::Global;
use std::marker::{Model, PhantomData};
use tsd_base::kinds::Kind;
use tsd_base::points::Point;

/// Rows that keep the lines of the points that are put or appended through them, of those that pass a rule.
///
/// Before such a step the point's line is printed and room is taken for it: for want of memory the step isn't made. Where the step is
/// refused nothing is kept. Each other step is passed on.
#[derive(Drop)]
pub struct Feed<R: Rows + Drop, G: SelectsPoints + Drop, F: PrintsPoints + Drop, J: FeedTerms> {
    rows: R,
    rule: G,
    printer: F,
    text: Vec<u8>,
    count: u64,
    of: PhantomData<J>,
}

impl<R: Rows + Drop, G: SelectsPoints + Drop, F: PrintsPoints + Drop, J: FeedTerms> Model
    for Feed<R, G, F, J> {
    ghost use Rattle.std.specs.Prelude.{◌≡◌};
    ghost use Rattle.point_feed.specs.FedEntries.{FeedsSince};
    ghost use Rattle.point_feed.specs.FedRows.{FedRows};

    ghost Value = { FedRows R };

    ghost view = { λ f. record { rows = f.rows; text = f.text.items; count = f.count } };

    ghost invariant = { λ f. (G.prefix f.rule ≡ J.prefix) × FeedsSince J.prefix J.start (R.seen f.rows) f.text.items f.count };
}

impl<R: Rows + Drop, G: SelectsPoints + Drop, F: PrintsPoints + Drop, J: FeedTerms> Feed<
    R,
    G,
    F,
    J,
> {
    /// These rows, with a rule for points and what prints them. Nothing is kept yet.
    pub fn make(alloc: Global, rows: R, rule: G, printer: F) -> Feed<R, G, F, J>
        requires prefix { G.prefix rule ≡ J.prefix }
        requires start { R.seen rows ≡ J.start }
        ensures rows { result.rows ≡ rows }
    {
        Feed {
            rows,
            rule,
            printer,
            text: Vec::new(alloc),
            count: 0,
            of: PhantomData,
        }
    }

    /// The rows, the lines that are kept, and how many they are.
    ///
    /// In each lawful history that fits what the caller has seen they are the lines of the points that it put or appended since
    /// the feed was made and whose metric begins with the prefix, in order of place.
    pub fn part(self) -> (R, Vec<u8>, u64)
        ensures rows { result.0 ≡ self.rows }
        ensures fed { InEach (R.seen self.rows) (λ h. AreLines (fed h J.start.caller J.start.length (R.seen self.rows).length J.prefix) result.1.items result.2) }
        ensures since { FeedsSince J.prefix J.start (R.seen self.rows) result.1.items result.2 }
    {
        let Feed {
            rows,
            rule: _,
            printer: _,
            text,
            count,
            of: _,
        } = self;
        (rows, text, count)
    }
}

impl<R: Rows + Drop, G: SelectsPoints + Drop, F: PrintsPoints + Drop, J: FeedTerms> Rows
    for Feed<R, G, F, J> {
    ghost seen = { λ f. R.seen f.rows };

    ghost stops = { λ f. R.stops f.rows };

    ghost spare = { λ f. R.spare f.rows };

    fn widths(&self) -> Widths {
        self.rows.widths()
    }

    fn read(&mut self, alloc: Global, row: &Row) -> Result<Cells, RowsFault> {
        self.rows.read(alloc, row)
    }

    fn next_row(
        &mut self,
        alloc: Global,
        table: Table,
        from: &Bytes,
        to: &Bytes,
    ) -> Result<Option<Found>, RowsFault> {
        self.rows.next_row(alloc, table, from, to)
    }

    fn bump(&mut self, kind: Kind) -> Result<Bumped, Stopped> {
        self.rows.bump(kind)
    }

    fn claim(
        &mut self,
        alloc: Global,
        row: &Row,
        qual: &Bytes,
        value: &Bytes,
    ) -> Result<Claimed, RowsFault> {
        self.rows.claim(alloc, row, qual, value)
    }

    fn put_point(
        &mut self,
        alloc: Global,
        point: &Point,
        row: &Row,
        qual: &Bytes,
        value: &Bytes,
    ) -> Result<(), RowsFault> {
        let Ok(line) = line_for(&self.rule, &self.printer, point, &mut self.text) else {
            return Err(RowsFault::OutOfMemory);
        };
        let made = self.rows.put_point(alloc, point, row, qual, value);
        keep_made(&mut self.text, &mut self.count, line, &made);
        made
    }

    fn append_point(
        &mut self,
        alloc: Global,
        point: &Point,
        row: &Row,
        piece: &Bytes,
    ) -> Result<(), RowsFault> {
        let Ok(line) = line_for(&self.rule, &self.printer, point, &mut self.text) else {
            return Err(RowsFault::OutOfMemory);
        };
        let made = self.rows.append_point(alloc, point, row, piece);
        keep_made(&mut self.text, &mut self.count, line, &made);
        made
    }

    fn put_merged(
        &mut self,
        alloc: Global,
        row: &Row,
        qual: &Bytes,
        value: &Bytes,
    ) -> Result<(), RowsFault> {
        self.rows.put_merged(alloc, row, qual, value)
    }

    fn drop_cells(&mut self, row: Row, which: Drops) -> Result<u64, Stopped> {
        self.rows.drop_cells(row, which)
    }
}
