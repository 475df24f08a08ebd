//! The points of series, in the order of their ids.
ghost use Rattle.std.specs.Prelude.{◌≡◌, [], map, OnOk, OnErr, IfOk};
ghost use Rattle.span_merge.specs.Spans.{AreInOrder, HasAdded, TakesLater, kept_span};

use crate::places::{add_last, step_back, step_forward, step_to_end};
use crate::series::Series;
use std::alloc::{AllocError, Global};
use std::marker::Model;
use tsd_base::dots::Dots;
use tsd_base::kinds::Down;

/// The points of series by the ids of their tags, each key's and its value's.
///
/// Contracts see it as the list of the series, each its pairs of ids with what is kept of its points, in the order of the
/// pairs: by the first pair, then by the next, and a pair by its first id, then by its second. Rows of one
/// hour stand in this order.
///
/// The series are kept before and behind the place of the one that was added to last, those behind it the
/// other way round, so that the next in the order is at hand.
#[derive(Drop)]
pub struct Spans {
    before: Vec<Series>,
    behind: Vec<Series>,
}

impl Model for Spans {
    ghost use Rattle.std.specs.Prelude.{List};
    ghost use Rattle.span_merge.specs.Spans.{AreInOrder, KeptSpan};

    ghost Value = { List KeptSpan };

    ghost use Rattle.span_merge.specs.Places.{spans_of};

    ghost view = { λ s. spans_of s.before.items s.behind.items };

    ghost invariant = { λ s. AreInOrder (spans_of s.before.items s.behind.items) };
}

impl Spans {
    /// No series.
    pub fn make(alloc: Global) -> Spans
        ensures { result ≡ [] }
    {
        Spans {
            before: Vec::new(alloc),
            behind: Vec::new(alloc),
        }
    }

    /// Adds points behind those of the series with these ids, which is a new one where it wasn't there: their
    /// times are above those of that series. A series that is added counts, also without points. `how` is how the
    /// series are downsampled at the end, the same in all calls: what is kept of the points is enough for that.
    ///
    /// It takes as many steps as there are series between this one and the one before it that was added to:
    /// for the rows of an hour, in their order, at most twice the number of series.
    ///
    /// # Errors
    ///
    /// It fails only for want of memory, and then nothing changes.
    pub fn add(
        &mut self,
        alloc: Global,
        how: Option<Down>,
        pairs: &[(u32, u32)],
        dots: Dots,
    ) -> Result<(), AllocError>
        requires later { TakesLater how self.old pairs.now dots }
        ensures ok { OnOk result (HasAdded how self.old pairs.now dots self.new) }
        ensures err { OnErr result (self.new ≡ self.old) }
    {
        step_forward(&mut self.before, &mut self.behind, pairs)?;
        step_back(&mut self.before, &mut self.behind, pairs)?;
        add_last(alloc, &mut self.before, how, pairs, dots)
    }

    /// All series in their order. None of their points is copied.
    ///
    /// # Errors
    ///
    /// It fails only for want of memory.
    pub fn into_series(self) -> Result<Vec<Series>, AllocError>
        ensures series { IfOk result (λ list. map kept_span list.items ≡ self) }
        ensures order { AreInOrder self }
    {
        let Spans {
            mut before,
            mut behind,
        } = self;
        step_to_end(&mut before, &mut behind)?;
        Ok(before)
    }
}
