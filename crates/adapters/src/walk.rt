ghost use Rattle.std.specs.Prelude.{◌≡◌, ◌≤◌, ◌+◌, ◌++◌, ◌∷◌, [], length, IfOk, OnOk, IsSome};
ghost use Rattle.cal_snapshot.specs.Parts.{rows_of, rows_in};
ghost use Rattle.cal_snapshot.specs.declared.part.Part.TheVariants.{Table};
ghost use Rattle.adapters.specs.Scan as spec;

use crate::request::{ColumnTest, ScanRequest};
use cal_snapshot::{Part, Snapshot};
use cal_value::{List, NoMemory, Op, Row, Steps, Value, compare_values, values_at};
use std::alloc::Global;
use std::sync::ledger::Ledger;

/// Looks at each row of the table, and answers the wanted columns of those that meet all tests.
pub(crate) fn walk<L: Ledger>(
    alloc: Global,
    snapshot: &Snapshot,
    table: u32,
    request: &ScanRequest,
    steps: &mut Steps<L>,
) -> Result<List<Row>, NoMemory>
    requires { IsSome (rows_of snapshot.now (Table table)) }
    ensures rows { IfOk result (λ rows.
        rows ≡ spec.scanned request.now (rows_in snapshot.now table)) }
    ensures all { OnOk result (steps.new ≡ steps.old + length (rows_in snapshot.now table)) }
    ensures some { steps.old ≤ steps.new }
    ensures most { steps.new ≤ steps.old + length (rows_in snapshot.now table) }
{
    let mut rows = List::new(alloc);
    for at in 0..snapshot.table_len(table) {
        let row = snapshot.lend(Part::Table(table), at, steps);
        add_if_wanted(alloc, request, row, &mut rows)?;
    }
    Ok(rows)
}

fn add_if_wanted(
    alloc: Global,
    request: &ScanRequest,
    row: &Row,
    rows: &mut List<Row>,
) -> Result<(), NoMemory>
    ensures { OnOk result (rows.new ≡ rows.old ++ spec.scanned request.now (row.now ∷ [])) }
{
    if !meets_all(&request.tests, row) {
        return Ok(());
    }
    rows.push(values_at(alloc, row, request.columns.as_slice())?)
}

fn meets_all(tests: &List<ColumnTest>, row: &Row) -> bool
    ensures { result ≡ spec.meets_all tests.now row.now }
{
    tests.as_slice().iter().all(|test| meets(test, row))
}

fn meets(test: &ColumnTest, row: &Row) -> bool
    ensures { result ≡ spec.meets row.now test.now }
{
    match row.get(test.column as usize) {
        Some(value) => is_met(test.op, value, &test.literal),
        None => false,
    }
}

fn is_met(op: Op, value: &Value, literal: &Value) -> bool
    ensures { result ≡ spec.is_met op value.now literal.now }
{
    !value.is_null() && !literal.is_null() && cal_expr::passes(op, compare_values(value, literal))
}
