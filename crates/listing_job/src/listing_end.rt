//! How a job on a listing ends.
ghost use Rattle.std.specs.Prelude.{◌≡◌};
ghost use Rattle.listing_job.specs.ListingJobs.{end_of_dump, end_of_give, end_of_input};

use line_stream::reader::InputFault;
use listing_dump::dump::DumpFault;
use listing_print::GiveFault;

/// How a job on a listing ends.
#[derive(Clone, Copy, Debug, PartialEq, Eq)]
pub enum ListingEnd {
    /// The listing was read, and what there is to tell was given.
    Done,
    /// The listing isn't sound, as was told.
    Refused,
    /// The source failed.
    ReadFault,
    /// The sink failed.
    WriteFault,
    /// There was no memory.
    OutOfMemory,
    /// 2^40 bytes of the listing came without their end.
    SessionFull,
}

/// The end of a job whose listing can't be read.
pub fn end_of_input(fault: InputFault) -> ListingEnd
    ensures { result ≡ end_of_input fault }
{
    match fault {
        InputFault::Failed => ListingEnd::ReadFault,
        InputFault::Full => ListingEnd::SessionFull,
        InputFault::OutOfMemory => ListingEnd::OutOfMemory,
    }
}

/// The end of a job whose points can't be given.
pub fn end_of_dump(fault: DumpFault) -> ListingEnd
    ensures { result ≡ end_of_dump fault }
{
    match fault {
        DumpFault::Failed => ListingEnd::WriteFault,
        DumpFault::OutOfMemory => ListingEnd::OutOfMemory,
    }
}

/// The end of a job whose text can't be given.
pub fn end_of_give(fault: GiveFault) -> ListingEnd
    ensures { result ≡ end_of_give fault }
{
    match fault {
        GiveFault::Failed => ListingEnd::WriteFault,
        GiveFault::OutOfMemory => ListingEnd::OutOfMemory,
    }
}
