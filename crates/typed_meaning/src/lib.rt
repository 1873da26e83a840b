//! The values of a SELECT's direct meaning lie in their static types, and its rows within their bound.
#![tactic(auto)]

pub mod laws;
