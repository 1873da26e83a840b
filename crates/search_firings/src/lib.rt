//! Firings of rules over a memo: the triples that may fire, and those that did.
#![tactic(auto)]

mod bindings;
mod by_set;
mod digest;
mod fired;
mod firing;
pub mod laws;
mod listing;

pub use fired::Fired;
pub use firing::Firing;
pub use listing::triples;
