//! Expressions over the columns of a row: their types and their values.
#![tactic(auto)]

mod evaluate;
mod expr;
pub mod laws;
mod typing;

pub use cal_value::Op;
pub use evaluate::{eval, passes};
pub use expr::Expr;
pub use typing::{column_type, expr_type, literal_type, negation_type, not_type, op_type};

#[cfg(test)]
mod tests;
