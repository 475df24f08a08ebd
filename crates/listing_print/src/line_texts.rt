//! The lines of a listing's text.
ghost use Rattle.std.specs.Prelude.{◌≡◌, []};
ghost use Rattle.listing_print.specs.TakenTexts.{EndedTexts, TookTexts, joins_texts};

use crate::cell_giver::{GiveFault, give_full};
use crate::line_taker::LineTaker;
use cell_listing::listing_text::push_line;
use cell_model::ListLine;
use std::alloc::Global;
use tsd_io::ports::Sink;

/// Gives each line as its text, piece by piece. The text that waits is shorter than a piece.
#[derive(Drop)]
pub(crate) struct LineTexts {
    pub(crate) text: Vec<u8>,
}

impl LineTexts {
    /// No text waits.
    pub(crate) fn make(alloc: Global) -> LineTexts
        ensures { result.text.items ≡ [] }
    {
        LineTexts {
            text: Vec::new(alloc),
        }
    }
}

impl LineTaker for LineTexts {
    ghost took = { TookTexts };

    ghost ended = { EndedTexts };

    ghost joins = { joins_texts };

    fn take_line<K: Sink>(&mut self, sink: &mut K, line: &ListLine) -> Result<(), GiveFault> {
        push_line(&mut self.text, line)?;
        give_full(sink, &mut self.text)?;
        Ok(())
    }
}
