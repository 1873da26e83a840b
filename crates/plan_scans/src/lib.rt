//! The rows of a plan's scans.
#![tactic(auto)]

mod chain;
mod request;
mod scan;

pub use scan::scan_rows;

#[cfg(test)]
mod tests;
