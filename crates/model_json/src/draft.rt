use cal_schema::{ColumnDef, TableDef};
use cal_value::{List, Row, SqlText};
use model_fields::KeyMember;

/// What the operand of a table says. `rows` is None where the rows stand in a file; then `columns` and `primary_key` are
/// empty, and `key` is the member that names the key.
#[derive(Debug, Drop)]
pub struct Contents {
    pub file: SqlText,
    pub max_rows: u64,
    pub columns: List<ColumnDef>,
    pub primary_key: List<u32>,
    pub key: KeyMember,
    pub rows: Option<List<Row>>,
}

/// A table of the document, with its place: the number of its schema and its own there. Where `rows` is None, the
/// columns and the primary key of `table` aren't known yet, and `key` is the member that names the key.
#[derive(Debug, Drop)]
pub struct Draft {
    pub schema_at: usize,
    pub table_at: usize,
    pub table: TableDef,
    pub key: KeyMember,
    pub rows: Option<List<Row>>,
}

/// The tables of all schemas in order.
#[derive(Debug, Drop)]
pub struct Drafts {
    pub default_schema: Option<SqlText>,
    pub tables: List<Draft>,
}
