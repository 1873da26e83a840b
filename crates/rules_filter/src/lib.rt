//! The rules that rewrite filters.
#![tactic(auto)]

mod aggregate;
mod filtered;
mod join;
mod merge;
mod project;
mod sides;

pub use aggregate::FilterAggregateTranspose;
pub use join::FilterIntoJoin;
pub use merge::FilterMerge;
pub use project::FilterProjectTranspose;
