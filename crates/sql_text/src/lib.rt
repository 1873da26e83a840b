//! The tokens of a text of SQL.
#![tactic(auto)]

mod laws;
mod scan;
mod token;
mod words;

pub use laws::each_text_reads_one_way;
pub use scan::{TokenFault, begins_word, continues_word, tokens};
pub use token::{Reserved, Symbol, Token};
pub use words::{letters, reserved_word, symbol_text};

#[cfg(test)]
mod tests;
