//! A worker that serves connections, one after the other, over the rows of one caller, and the connections of doors, served by such workers.
#![tactic(auto)]

pub mod conn_service;
pub mod conn_terms;
pub mod conn_worker;
pub mod unstopped_rows;
pub mod worker_seats;
