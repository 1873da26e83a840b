//! The parser of SQL.
#![tactic(auto)]

mod laws;
mod list;
mod parser;
mod select;
mod statement;

pub use laws::printed_text_spells_the_statement;
pub use parser::{one_statement, parse};
pub use sql_expressions::ParseFault;
