ghost use Rattle.std.specs.Prelude.{◌≡◌, []};

use crate::{Adapter, AnyAdapter, ColumnTest, CsvAdapter, MemAdapter, ScanRequest};
use cal_snapshot::{Part, Snapshot};
use cal_value::{List, NoMemory, Op, Row, Steps, Value};
use std::alloc::Global;
use std::marker::Brand;
use std::sync::Arc;
use std::sync::ledger::{Blank, Ledger};
use std::test::Fail;

fn value(number: i128) -> Value {
    if number < 0 {
        Value::Null
    } else {
        Value::Int(number)
    }
}

fn pairs(alloc: Global, numbers: &[(i128, i128)]) -> Result<List<Row>, NoMemory> {
    let mut rows = List::new(alloc);
    for (first, second) in numbers {
        let mut row = List::new(alloc);
        row.push(value(*first))?;
        row.push(value(*second))?;
        rows.push(row)?;
    }
    Ok(rows)
}

// Rows 1 2, 3 NULL, 5 6, NULL 8.
fn four_rows(alloc: Global) -> Result<Snapshot, NoMemory> {
    let rows = pairs(alloc, &[(1, 2), (3, -1), (5, 6), (-1, 8)])?;
    let mut tables = List::new(alloc);
    let table = Arc::new(alloc, rows)?;
    tables.push(table)?;
    Snapshot::start(alloc, tables)
}

fn request(alloc: Global, test: Option<(u32, Op, i128)>) -> Result<ScanRequest, NoMemory> {
    let mut columns = List::new(alloc);
    columns.push(1u32)?;
    columns.push(0u32)?;
    let mut tests = List::new(alloc);
    if let Some((column, op, number)) = test {
        let literal = value(number);
        tests.push(ColumnTest {
            column,
            op,
            literal,
        })?;
    }
    Ok(ScanRequest { columns, tests })
}

fn scanned<L: Ledger>(
    alloc: Global,
    blank: Blank,
    snapshot: &Snapshot,
    request: &ScanRequest,
) -> Result<List<Row>, NoMemory>
    requires name { blank.name ≡ L.name }
    requires parts { blank.parts ≡ L.parts }
    requires whole { L.parts ≡ 1 }
{
    let mut steps: Steps<L> = Steps::new(blank);
    match snapshot.rows_len(Part::Table(0)) {
        None => Ok(List::new(alloc)),
        Some(_) => {
            if request.tests.is_empty() {
                AnyAdapter::Csv(CsvAdapter).scan(alloc, snapshot, 0, request, &mut steps)
            } else {
                AnyAdapter::Mem(MemAdapter).scan(alloc, snapshot, 0, request, &mut steps)
            }
        }
    }
}

fn answers(
    alloc: Global,
    test: Option<(u32, Op, i128)>,
    wanted: &[(i128, i128)],
) -> Result<bool, NoMemory> {
    let snapshot = four_rows(alloc)?;
    let request = request(alloc, test)?;
    let rows = scanned::<Brand>(alloc, Blank::new(1), &snapshot, &request)?;
    let wanted = pairs(alloc, wanted)?;
    Ok(rows == wanted)
}

#[test]
fn a_scan_has_the_columns_of_the_rows_that_pass(rt: HostRuntime) -> Result<(), Fail> {
    let alloc = rt.alloc();
    assert!(rt; answers(alloc, None, &[(2, 1), (-1, 3), (6, 5), (8, -1)])?);
    assert!(rt; answers(alloc, Some((0, Op::GreaterEqual, 3)), &[(-1, 3), (6, 5)])?);
    assert!(rt; answers(alloc, Some((1, Op::NotEqual, 2)), &[(6, 5), (8, -1)])?);
    assert!(rt; answers(alloc, Some((0, Op::Equal, 5)), &[(6, 5)])?);
    assert!(rt; answers(alloc, Some((0, Op::Less, 1)), &[])?);
    assert!(rt; answers(alloc, Some((0, Op::LessEqual, 1)), &[(2, 1)])?);
    assert!(rt; answers(alloc, Some((1, Op::Greater, 6)), &[(8, -1)])?);
    assert!(rt; answers(alloc, Some((1, Op::And, 6)), &[])?);
    Ok(())
}
