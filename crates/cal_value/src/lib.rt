//! The values of the query framework: texts, rows, types, intervals, their order and their logic.
#![tactic(auto)]

mod bag;
mod interval;
mod kind;
pub mod laws;
mod limits;
mod list;
mod logic;
mod memory;
mod operator;
mod order;
mod steps;
mod text;
mod value;

pub use bag::{is_in_order, same_bag};
pub use interval::{Interval, cut_at_limit, cut_product};
pub use kind::{Kind, SqlType, has_types};
pub use limits::{
    BRACKET_LIMIT, BUDGET_LIMIT, COLUMN_LIMIT, FILE_LIMIT, FILES_LIMIT, FROM_LIMIT, MODEL_LIMIT,
    NAME_LIMIT, NUMBER_LIMIT, OPERATOR_LIMIT, ROW_LIMIT, TABLE_LIMIT, TEXT_LIMIT,
};
pub use list::List;
pub use logic::{and3, not3, or3};
pub use memory::{Duplicate, NoMemory};
pub use operator::{Agg, Op};
pub use order::{Collation, KeyOrder, compare, compare_rows, compare_values};
pub use steps::Steps;
pub use text::{SqlText, TextFault, characters, push_characters};
pub use value::{Row, Value, copy_row, value_at, values_at};
