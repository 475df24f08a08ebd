//! The store of callers on threads: its regions behind locks, and rows over them.
#![tactic(auto)]

pub mod openings;
mod reply_parts;
pub mod site;
pub mod site_parts;
pub mod site_pass;

pub use openings::Openings;
pub use site::Site;
pub use site_parts::SiteParts;
pub use site_pass::SitePass;
