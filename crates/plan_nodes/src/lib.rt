//! Physical plans: their nodes, the orders of rows that these give, what they weigh, and what plans cost and read.
#![tactic(auto)]

mod given;
pub mod laws;
mod nodes;
mod orders;
mod plan;
mod traits;
mod weights;

pub use given::delivers;
pub use nodes::PlanNode;
pub use orders::{
    ascending_by, below, first_place, gives, is_prefix, item_column, left_order, right_order,
};
pub use plan::{Plan, cost, plan_reads};
pub use traits::{Convention, Traits, convention_of, satisfies};
pub use weights::{COST_LIMIT, weight};
