//! What the rules of filters make of a tree, and that they are lawful.
#![tactic(auto)]

pub mod laws;
