//! Rows of VALUES that don't fit a table.
ghost use Rattle.std.specs.Prelude.{◌≡◌, ◌≤◌, length, map};
ghost use Rattle.sql_validator.specs.Refusal as spec;

use cal_schema::{ColumnDef, Refusal};
use cal_value::{COLUMN_LIMIT, Row, SqlType, Value};

#[tactic(auto, using(crate::proofs::RowFaults::row_rules))]
fn is_of_type(kind: SqlType, value: &Value) -> bool
    ensures { result ≡ spec.is_of_type kind value.now }
{
    kind.holds(value)
}

// The row has as many values as there are columns.
fn bad_column(columns: &[ColumnDef], row: &[Value]) -> Option<u32>
    requires few { length columns.now ≤ COLUMN_LIMIT }
    requires same { length row.now ≡ length columns.now }
    ensures { result ≡ spec.bad_column 1 (map (λ c. c.kind) columns.now) row.now }
{
    for (at, column) in columns.iter().enumerate() {
        if !is_of_type(column.kind, &row[at]) {
            return Some(at as u32 + 1);
        }
    }
    None
}

fn row_fault(columns: &[ColumnDef], row: &Row) -> Option<u32>
    requires { length columns.now ≤ COLUMN_LIMIT }
    ensures { result ≡ spec.row_fault (map (λ c. c.kind) columns.now) row.now }
{
    if row.len() == columns.len() {
        bad_column(columns, row.as_slice())
    } else {
        Some(0)
    }
}

/// The refusal of the first row that isn't one of the table. Takes no memory. A table has at most `COLUMN_LIMIT` columns.
pub(crate) fn bad_row(columns: &[ColumnDef], rows: &[Row]) -> Option<Refusal>
    requires { length columns.now ≤ COLUMN_LIMIT }
    ensures { result ≡ spec.bad_row 1 (map (λ c. c.kind) columns.now) rows.now }
{
    for (at, row) in rows.iter().enumerate() {
        if let Some(column) = row_fault(columns, row) {
            return Some(Refusal::BadRow {
                row: at as u64 + 1,
                column,
            });
        }
    }
    None
}
