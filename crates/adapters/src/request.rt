use cal_value::{List, Op, Value};

/// A comparison of a column, counted from 0, with a value: one of the six comparisons with a value of the column's kind.
/// No other operator passes, and NULL passes none.
#[derive(Debug, Drop)]
pub struct ColumnTest {
    pub column: u32,
    pub op: Op,
    pub literal: Value,
}

/// Which rows are wanted, those that pass all tests, and which of their columns, in this order.
#[derive(Debug, Drop)]
pub struct ScanRequest {
    pub columns: List<u32>,
    pub tests: List<ColumnTest>,
}
