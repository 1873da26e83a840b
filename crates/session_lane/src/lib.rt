//! Answers to SELECTs, and replies to statements.
#![tactic(auto)]

mod answer;
mod laws;
mod reply;
mod statement;

pub use answer::{Answer, answer_select};
pub use laws::one_reply_is_right;
pub use reply::{Cause, Reply};
pub use statement::reply_to;
