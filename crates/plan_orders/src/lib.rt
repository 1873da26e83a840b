//! That each node of a plan makes rows in the order that the plan gives.
#![tactic(auto)]

pub mod laws;
