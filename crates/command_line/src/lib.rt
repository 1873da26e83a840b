//! The words of a command line.
#![tactic(auto)]

mod command;
mod reading;

pub use reading::{Asked, BUDGET_DEFAULT, read_words};

#[cfg(test)]
mod tests;
