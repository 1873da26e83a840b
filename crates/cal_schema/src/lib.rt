//! Schemas: tables with their columns and keys, the rows of a database, the keys of tiles, the types that joins and groups
//! name, and the causes for which a statement is refused.
#![tactic(auto)]

mod agg_call;
mod column;
mod database;
mod join_kind;
pub mod laws;
mod refusal;
mod rel_type;
mod schema;
mod star_pair;
mod table;
mod tile;

pub use agg_call::AggCall;
pub use cal_value::Agg;
pub use column::{ColumnDef, ColumnFault};
pub use database::Db;
pub use join_kind::JoinKind;
pub use refusal::{Refusal, WrittenName};
pub use rel_type::RelType;
pub use schema::Schema;
pub use star_pair::StarPair;
pub use table::{AdapterKind, TableDef, is_compressed};
pub use tile::{Measure, TileInfo, TileKey};

#[cfg(test)]
mod tests;
