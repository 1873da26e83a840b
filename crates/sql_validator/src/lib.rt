//! Why a statement is refused, and what an accepted one has.
#![tactic(auto)]

mod aggregate_query;
mod causes;
mod checked;
mod groups;
mod keys;
mod rows;
mod validator;

pub use aggregate_query::is_aggregate_query;
pub use checked::{Checked, CheckedSelect};
pub use validator::validate;
