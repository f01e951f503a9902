// A book of one AFDX network: its ports, virtual links and hops, over tables that the caller lends.
#![tactic(auto)]

pub mod books;
pub mod calls;
mod link_runs;
pub mod questions;
pub mod rows;
pub mod working;
