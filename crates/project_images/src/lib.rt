//! What the rules of projects make of a tree, and that they are lawful.
#![tactic(auto)]

pub mod laws;
