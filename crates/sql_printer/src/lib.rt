//! Statements as text.
#![tactic(auto)]

mod laws;
mod print;
mod print_select;
mod printer;
mod writer;

pub use laws::same_statements_print_alike;
pub use printer::print_statement;
