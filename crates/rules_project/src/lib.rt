//! The rules that rewrite projects, expressions and trees without rows.
#![tactic(auto)]

mod empties;
mod merge;
mod prune;
mod reduce;
mod reductions;
mod remove;

pub use merge::ProjectMerge;
pub use prune::PruneEmpty;
pub use reduce::ReduceExpressions;
pub use remove::ProjectRemove;
