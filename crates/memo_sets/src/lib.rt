//! A memo of sets of equivalent relational trees.
#![tactic(auto)]

mod cascade;
mod draft;
mod enter;
pub mod laws;
mod memo;
mod nodes;
mod register;
mod types;

pub use memo::{Member, Memo, MemoFault};
pub use memo_model::MEMBER_LIMIT;
pub use register::Registered;

#[cfg(test)]
mod tests;
