//! Tests of calls below the store that no case of `test_cases` makes, in one crate: so a crate isn't proved once more for its tests.
#![tactic(auto)]

#[cfg(test)]
mod byte_tests;
#[cfg(test)]
mod device_tests;
#[cfg(test)]
mod door_tests;
#[cfg(test)]
mod dots_tests;
#[cfg(test)]
mod link_tests;
#[cfg(test)]
mod queue_tests;
