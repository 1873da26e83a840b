//! The rules that rewrite aggregates.
#![tactic(auto)]

mod merge;
mod remove;

pub use merge::AggregateProjectMerge;
pub use remove::AggregateRemove;
