//! The cheapest derivations over a table of alternatives, which may refer to each other in cycles.
#![tactic(auto)]

mod offer;
mod rounds;
mod table;
mod within;

pub use rounds::cheapest;
pub use table::{Cell, Edge, Step, Table};
pub use within::are_within;

#[cfg(test)]
mod tests;
