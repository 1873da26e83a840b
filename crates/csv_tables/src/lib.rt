//! Tables in files of comma-separated values: the columns that a header names, and the rows.
#![tactic(auto)]

mod columns;
mod fault;
mod field;
mod reading;
mod table;

pub use columns::header;
pub use fault::{CsvCause, CsvFault};
pub use table::decode;

#[cfg(test)]
mod tests;
