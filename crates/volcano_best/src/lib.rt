//! The cheapest plan of a set.
#![tactic(auto)]

mod graph;
mod index;
mod planned;
mod read;

pub use planned::{Planned, best, find_best};

#[cfg(test)]
mod tests;
