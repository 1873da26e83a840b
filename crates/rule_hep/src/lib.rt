//! Rules that rewrite relational trees, their law, and the planner that rewrites by a list of them.
#![tactic(auto)]

mod local;
mod paths;
mod planner;
mod rule;
mod width;

pub use local::kept;
pub use paths::{place, places, replaced};
pub use planner::{HepRecord, HepStep, hep};
pub use rule::{Reach, Rule};
pub use width::width_of;

#[cfg(test)]
mod tests;
