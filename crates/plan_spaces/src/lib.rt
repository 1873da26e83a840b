//! What the plans of a memo are made of, over a snapshot.
#![tactic(auto)]

pub mod laws;
mod made;

pub use made::space_of;

#[cfg(test)]
mod tests;
