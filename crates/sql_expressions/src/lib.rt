//! The expressions of SQL, read from tokens.
#![tactic(auto)]

mod cursor;
pub mod expression;
mod fault;
mod limits;

pub use cursor::Cursor;
pub use fault::ParseFault;
pub use limits::{NESTING_LIMIT, is_insert, most_open, operators};
