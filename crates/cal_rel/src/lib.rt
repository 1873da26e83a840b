//! Relational algebra: trees, their types and the rows that they mean.
#![tactic(auto)]

mod bounds;
mod info;
pub mod laws;
mod pairs;
mod rel;
mod typing;

pub use cal_schema::{AggCall, JoinKind, RelType, StarPair};
pub use info::PlanInfo;
pub use pairs::pairs_of;
pub use rel::Rel;
pub use typing::type_of;
