//! The parts of a model's document: members, kinds, texts, columns, rows and keys.
#![tactic(auto)]

mod column;
mod fault;
mod key;
mod member;
mod row;

pub use column::columns;
pub use fault::{ModelCause, ModelFault, at_item, at_member, bad};
pub use key::{KeyMember, keyed, primary_key};
pub use member::{
    character_count, list_of, name_of, object_of, required, sql_text, text_of, word_at,
};
pub use row::{keys_apart, rows};
