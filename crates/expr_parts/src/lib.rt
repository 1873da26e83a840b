//! The parts of expressions: the columns that they read, and their conjuncts.
#![tactic(auto)]

mod columns;
mod conjuncts;
pub mod laws;

pub use columns::{
    columns_read, is_constant, over_columns, over_items, reads_below, reads_from, shifted_down,
};
pub use conjuncts::{conjunction, conjuncts_of};

#[cfg(test)]
mod tests;
