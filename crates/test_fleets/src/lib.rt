//! Tests of fleets, and of doors over a port, that no case of `test_cases` makes.
#![tactic(auto)]

#[cfg(test)]
mod fleet_tests;
#[cfg(test)]
mod port_tests;
#[cfg(test)]
mod socket_tests;
