//! Snapshots: rows that stay as they are, given out one by one and counted.
#![tactic(auto)]

mod part;
mod snapshot;

pub use part::Part;
pub use snapshot::Snapshot;

#[cfg(test)]
mod tests;
