//! The rows of a plan, run over a snapshot.
#![tactic(auto)]

mod joins;
pub mod laws;
mod lent;
mod nodes;
mod one_input;
mod pass;
mod run;
mod split;
mod two_inputs;
mod width;

pub use run::execute;

#[cfg(test)]
mod small;
#[cfg(test)]
mod tests;
