//! What the rules of aggregates make of a tree, and that they are lawful.
#![tactic(auto)]

pub mod laws;
