//! The kinds and the types of the expressions of a SELECT, where they don't go together or may not fit, and how many rows FROM
//! has at most.
#![tactic(auto)]

mod bounds;
mod kinds;
mod seen;
mod sizes;

pub use bounds::row_bound;
pub use kinds::type_clash;
pub use sizes::{nearest_misfit, tree_type};
