//! Cases over a store: what it begins with, its callers, and what is left at the end.
#![tactic(auto)]

mod case_base;
mod case_calls;
mod case_end;
mod case_patterns;
mod case_roles;
pub mod store_case;
