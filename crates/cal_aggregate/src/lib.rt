//! Aggregates over lists of values: their values, their types and their laws.
#![tactic(auto)]

mod aggregates;
pub mod laws;
mod result_types;

pub use aggregates::{aggregate, combine, start_value};
pub use result_types::{count_interval, result_type, sum_interval, with_zero};

#[cfg(test)]
mod tests;
