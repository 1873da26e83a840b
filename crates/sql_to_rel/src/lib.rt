//! Trees of SQL as expressions over numbered columns.
#![tactic(auto)]

pub mod laws;
mod numbering;

pub use numbering::expression;
