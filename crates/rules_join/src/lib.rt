//! The rules that rewrite joins.
#![tactic(auto)]

mod associate;
mod columns;
mod commute;

pub use associate::JoinAssociate;
pub use commute::JoinCommute;
