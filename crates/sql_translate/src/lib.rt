//! The relational tree of an accepted SELECT, and the keys that its rows are asked in.
#![tactic(auto)]

mod aggregates;
mod calls;
mod from;
mod items;
mod numbers;
mod order;
mod translation;

pub use translation::translate;
