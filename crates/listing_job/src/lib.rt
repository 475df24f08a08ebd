//! The jobs of `fsck`, `fix` and `dump`: a listing is read to its end, and something is told of it.
#![tactic(auto)]

pub mod dump_job;
pub mod fix_job;
pub mod fsck_job;
pub mod listing_end;
pub mod shown;

pub use dump_job::dump_listing;
pub use fix_job::fix_listing;
pub use fsck_job::check_listing;
pub use listing_end::ListingEnd;
