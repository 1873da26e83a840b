use cal_value::{List, Row, SqlText, SqlType};
use sql_tree::Select;

/// A SELECT that is accepted over a schema: the number of the table of each entry of FROM; the place of each column that is
/// referred to, among the columns of all entries, in the order of the tokens; the names and the types of its columns.
#[derive(Debug, Drop)]
pub struct CheckedSelect {
    pub select: Select,
    pub tables: List<u32>,
    pub columns: List<u32>,
    pub names: List<SqlText>,
    pub types: List<SqlType>,
}

/// A statement that is accepted over a schema, with the number of its table.
#[derive(Debug, Drop)]
pub enum Checked {
    Select(CheckedSelect),
    ExplainPlan(CheckedSelect),
    ExplainMemo(CheckedSelect),
    Insert { table: u32, rows: List<Row> },
    Refresh { table: u32 },
}
