//! That the cheapest plan of a set in which a tree of the SELECT stands answers the SELECT.
#![tactic(auto)]

pub mod laws;
