//! One machine, one history of events, and any number of seats that have the machine in turn.
#![tactic(auto)]

mod commits;
mod lends;
mod lock;
mod machine;
mod passes;
mod plays;
mod turns;
mod views;

pub use lock::{Held, Pass, Turn};
pub use machine::Machine;

#[cfg(test)]
mod tests;
