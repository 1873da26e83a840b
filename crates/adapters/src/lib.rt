//! Adapters: how the rows of a table are scanned.
#![tactic(auto)]

mod adapter;
pub mod laws;
mod request;
mod walk;

pub use adapter::{Adapter, AnyAdapter, CsvAdapter, MemAdapter};
pub use request::{ColumnTest, ScanRequest};

#[cfg(test)]
mod tests;
