ghost use Rattle.std.specs.Prelude.{◌≡◌};

use crate::{Part, Snapshot};
use cal_value::{List, NoMemory, Row, Steps, Value};
use std::alloc::Global;
use std::marker::Brand;
use std::sync::Arc;
use std::sync::ledger::{Blank, Ledger};
use std::test::Fail;

fn numbers(alloc: Global, count: u8) -> Result<Arc<List<Row>>, NoMemory> {
    let mut rows = List::new(alloc);
    for n in 0..count {
        let mut row = List::new(alloc);
        row.push(Value::Int(i128::from(n)))?;
        rows.push(row)?;
    }
    Ok(Arc::new(alloc, rows)?)
}

fn two_tables(alloc: Global) -> Result<Snapshot, NoMemory> {
    let mut tables = List::new(alloc);
    let first = numbers(alloc, 3)?;
    tables.push(first)?;
    let second = numbers(alloc, 0)?;
    tables.push(second)?;
    Snapshot::start(alloc, tables)
}

#[test]
fn a_snapshot_starts_at_version_1(rt: HostRuntime) -> Result<(), Fail> {
    let snapshot = two_tables(rt.alloc())?;
    assert_eq!(rt; snapshot.rows_len(Part::Table(0)), Some(3));
    assert_eq!(rt; snapshot.rows_len(Part::Table(1)), Some(0));
    assert_eq!(rt; snapshot.rows_len(Part::Table(2)), None);
    assert_eq!(rt; snapshot.rows_len(Part::Tile(0)), None);
    assert_eq!(rt; snapshot.version(1), Some(1));
    assert_eq!(rt; snapshot.version(2), None);
    assert_eq!(rt; snapshot.tiles().len(), 0);
    Ok(())
}

// The row at a place, where it is there, and how many steps it took by the counter.
fn taken<L: Ledger>(
    alloc: Global,
    blank: Blank,
    snapshot: &Snapshot,
    part: Part,
    at: u64,
) -> Result<Option<Row>, NoMemory>
    requires name { blank.name ≡ L.name }
    requires parts { blank.parts ≡ L.parts }
    requires whole { L.parts ≡ 1 }
{
    let mut steps: Steps<L> = Steps::new(blank);
    match snapshot.rows_len(part) {
        Some(count) if at < count => Ok(Some(snapshot.take(alloc, part, at, &mut steps)?)),
        _ => Ok(None),
    }
}

fn row_taken(alloc: Global, snapshot: &Snapshot, at: u64) -> Result<Option<Row>, NoMemory> {
    taken::<Brand>(alloc, Blank::new(1), snapshot, Part::Table(0), at)
}

#[test]
fn a_row_is_taken(rt: HostRuntime) -> Result<(), Fail> {
    let snapshot = two_tables(rt.alloc())?;
    let Some(row) = row_taken(rt.alloc(), &snapshot, 2)? else {
        assert!(rt; false);
        return Ok(());
    };
    assert!(rt; row.get(0) == Some(&Value::Int(2)));
    assert!(rt; row_taken(rt.alloc(), &snapshot, 3)?.is_none());
    Ok(())
}
