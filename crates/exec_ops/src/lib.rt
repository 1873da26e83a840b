//! Joins, groups and sorts of rows.
#![tactic(auto)]

mod groups;
mod index;
mod join_on;
mod joins;
mod merge;
mod pairing;
mod sort;
mod sorted_groups;

pub use groups::hash_group;
pub use join_on::JoinOn;
pub use joins::{hash_join, nested_join};
pub use merge::merge_join;
pub use sort::sort_rows;
pub use sorted_groups::sorted_group;

#[cfg(test)]
mod tests;
