//! The lines of a listing, read from a source to its end.
ghost use Rattle.std.specs.Prelude.{◌≡◌, ◌≤◌, ◌++◌, List, ℕ, Err, IfOk};
ghost use Rattle.line_stream.specs.declared.reader.InputFault.TheVariants as fault;
ghost use Rattle.tsd_io.specs.Causes.{Rose};
ghost use Rattle.cell_listing.specs.Grammar.{last_read};
ghost use Rattle.cell_listing.specs.ListingReads.{ReadsListing};

use crate::listed::Listed;
use crate::listing_line::LONGEST_LISTED;
use line_stream::reader::{InputFault, LineReader, NextLine};
use row_key::Widths;
use std::alloc::{AllocError, Global};
use tsd_io::ports::Source;

/// Reads the lines of a listing to the source's end; the ids of the listing have these widths. A last line that no LF ends counts
/// where it has a byte. A line of more than 2,097,152 bytes is read to its LF, and none of its bytes is kept.
pub fn read_listing<S: Source>(
    alloc: Global,
    source: &mut S,
    widths: Widths,
) -> Result<Listed, InputFault>
    ensures reads { ReadsListing widths (S.taken source.old) (S.taken source.new) (S.left source.old) (S.left source.new) result }
    ensures later { S.faults source.old ≤ S.faults source.new }
    ensures failed { result ≡ Err InputFault.Failed → Rose (S.faults source.old) (S.faults source.new) }
{
    let mut reader = LineReader::make(alloc, LONGEST_LISTED)?;
    let mut listed = Listed::none(alloc, widths);
    loop {
        match reader.next_line(source)? {
            NextLine::Whole { end } => {
                listed.add(alloc, &reader.bytes()[..end])?;
                reader.skip_line(end);
            }
            NextLine::TooLong => {
                let ended = reader.skip_to_end(source)?;
                listed.add_too_long()?;
                if !ended {
                    return Ok(listed);
                }
            }
            NextLine::Last => return Ok(with_last(alloc, listed, reader.bytes())?),
        }
    }
}

/// The lines with the last one, which no LF ends, if it has a byte.
fn with_last(alloc: Global, listed: Listed, bytes: &[u8]) -> Result<Listed, AllocError>
    ensures { IfOk result (λ all. all ≡ record { widths = listed.widths; lines = listed.lines ++ last_read bytes.now }) }
{
    if bytes.is_empty() {
        return Ok(listed);
    }
    let mut listed = listed;
    listed.add(alloc, bytes)?;
    Ok(listed)
}
