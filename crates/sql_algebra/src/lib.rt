//! The relational tree that a SELECT stands for, and that its rows are those that the SELECT means.
#![tactic(auto)]

pub mod laws;
mod layout;

pub use layout::{ExprCall, Layout};
