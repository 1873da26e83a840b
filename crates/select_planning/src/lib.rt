//! How a SELECT is planned: its tree is rewritten by rules, a memo is searched for trees that mean the same, and the cheapest plan is taken.
#![tactic(auto)]

mod cheapest;
mod plan;
mod planning;
mod start;

pub use plan::plan_select;
pub use planning::{HEP_LIMIT, Planning};
