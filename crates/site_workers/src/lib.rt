//! Workers over one site: each a caller of the site, they serve the connections of doors and are taken back at the end.
#![tactic(auto)]

pub mod site_service;
