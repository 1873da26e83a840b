//! The printed texts of plans and of memos.
#![tactic(auto)]

mod details;
mod expressions;
mod memos;
mod plans;

pub use memos::{Searched, push_memo};
pub use plans::push_plan;

#[cfg(test)]
mod tests;
