//! What plans mean, and that a plan of a set means what the set means.
#![tactic(auto)]

pub mod laws;
