//! What is known of the rows of a tree from the tree: columns on which they differ, and how many there may be.
#![tactic(auto)]

mod equates;
mod estimates;
mod keys;
pub mod laws;

pub use estimates::{ESTIMATE_LIMIT, estimate};
pub use keys::{column_in, holds_key, unique_keys};

#[cfg(test)]
mod tests;
