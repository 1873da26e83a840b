//! What the rules of joins make of a tree, and that they are lawful.
#![tactic(auto)]

pub mod laws;
