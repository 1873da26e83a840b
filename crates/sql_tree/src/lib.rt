//! The tree of statements.
#![tactic(auto)]

mod select;
mod statement;
mod tree;

pub use select::{
    Cond, FromEntry, How, Item, Items, KeyBy, OrderKey, Select, TableName, UsingName,
};
pub use statement::{Statement, TileText};
pub use tree::{ColumnName, Tree};
