//! The start of a run: the model, the files of its tables, and what they hold.
#![tactic(auto)]

mod fault;
mod files;
mod header;
mod name;
mod rows;
mod run;

pub use fault::{StartFault, TableFault, TableName};
pub use files::FileRead;
pub use run::{StartRecord, Started, start};

#[cfg(test)]
mod tests;
