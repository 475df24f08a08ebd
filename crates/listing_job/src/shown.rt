//! What is told of a listing, and how it is given.
ghost use Rattle.std.specs.Prelude.{◌≡◌, ◌≢◌, ◌≤◌};
ghost use Rattle.tsd_io.specs.Causes.{Rose};
ghost use Rattle.listing_job.specs.ListingJobs.{Gives, told_end};
ghost use Rattle.listing_job.specs.Shows.{told_of};

use crate::listing_end::ListingEnd;
use listing_print::give_text;
use tsd_io::ports::{Failed, Sink};

/// A text, and whether it refuses the listing.
#[derive(Drop)]
pub struct Shown {
    pub refused: bool,
    pub text: Vec<u8>,
}

/// Gives what is told, and answers how the job ends.
pub fn give_shown<K: Sink>(sink: &mut K, shown: &Shown) -> ListingEnd
    ensures gives { Gives (λ told. told ≡ told_of shown.now) (K.held sink.old) (K.held sink.new) result }
    ensures later { K.faults sink.old ≤ K.faults sink.new }
    ensures no_read { result ≢ ListingEnd.ReadFault }
    ensures write_fault { result ≡ ListingEnd.WriteFault → Rose (K.faults sink.old) (K.faults sink.new) }
{
    match give_text(sink, &shown.text) {
        Ok(()) => told_end(shown.refused),
        Err(Failed) => ListingEnd::WriteFault,
    }
}

/// The end of a job whose text was given.
fn told_end(refused: bool) -> ListingEnd
    ensures end { result ≡ told_end refused }
    ensures no_read { result ≢ ListingEnd.ReadFault }
    ensures no_write { result ≢ ListingEnd.WriteFault }
{
    if refused {
        ListingEnd::Refused
    } else {
        ListingEnd::Done
    }
}
