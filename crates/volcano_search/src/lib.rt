//! The search of a memo by rules, round by round, until it is closed or a limit stops it.
#![tactic(auto)]

mod rounds;
mod search;

pub use rounds::{Explored, explore};
