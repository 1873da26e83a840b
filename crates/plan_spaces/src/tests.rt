ghost use Rattle.cal_schema.specs.Valid.{IsValidSchema};

use crate::space_of;
use cal_rel::{PlanInfo, Rel};
use cal_schema::{AdapterKind, Agg, AggCall, Schema, TableDef};
use cal_snapshot::Snapshot;
use cal_value::{List, NoMemory, SqlText};
use memo_sets::{Memo, MemoFault};
use phys_plan::Space;
use std::alloc::Global;
use std::sync::Arc;
use std::test::Fail;

// Tables of 3, 0 and 7 rows.
const ROWS: [u8; 3] = [3, 0, 7];

fn snapshot(alloc: Global) -> Result<Snapshot, NoMemory> {
    let mut tables = List::new(alloc);
    for count in ROWS {
        let mut rows = List::new(alloc);
        for _ in 0..count {
            rows.push(List::new(alloc))?;
        }
        tables.push(Arc::new(alloc, rows)?)?;
    }
    Snapshot::start(alloc, tables)
}

fn no_tables(alloc: Global) -> Schema
    ensures { IsValidSchema result }
{
    Schema {
        default_schema: None,
        tables: List::new(alloc),
    }
}

fn table(alloc: Global) -> Result<TableDef, NoMemory> {
    let name = SqlText::of(alloc, "T").or(Err(NoMemory))?;
    Ok(TableDef {
        schema: SqlText::of(alloc, "S").or(Err(NoMemory))?,
        name,
        columns: List::new(alloc),
        adapter: AdapterKind::Mem,
        file: SqlText::of(alloc, "").or(Err(NoMemory))?,
        max_rows: 9,
        primary_key: List::new(alloc),
    })
}

// A schema of more tables than the snapshot has.
fn four_tables(alloc: Global) -> Result<Schema, NoMemory> {
    let mut tables = List::new(alloc);
    for _ in 0..4u32 {
        tables.push(table(alloc)?)?;
    }
    Ok(Schema {
        default_schema: None,
        tables,
    })
}

// The number of no rows: one row, which is the second set of its memo.
fn seeded(alloc: Global) -> Result<Memo, MemoFault> {
    let schema = no_tables(alloc);
    let (tiles, sets) = (List::new(alloc), List::new(alloc));
    let info = PlanInfo::new(&schema, &tiles, &sets);
    let mut calls = List::new(alloc);
    calls.push(AggCall {
        agg: Agg::Count,
        argument: None,
    })?;
    let rel = Rel::aggregate(alloc, Rel::Empty(List::new(alloc)), List::new(alloc), calls)?;
    let mut memo = Memo::new(alloc);
    let _set = memo.seed(alloc, &rel, &info)?;
    Ok(memo)
}

fn is_as_made(space: &Space) -> bool {
    space.members.len() == 2
        && space.estimates.as_slice() == [0, 1].as_slice()
        && space.tables.as_slice() == [3, 0, 7, 0].as_slice()
}

#[test]
fn a_memo_over_a_snapshot(rt: HostRuntime) -> Result<(), Fail> {
    let alloc = rt.alloc();
    let memo = seeded(alloc)?;
    let schema = four_tables(alloc)?;
    let tiles = List::new(alloc);
    let snapshot = snapshot(alloc)?;
    let space = space_of(alloc, &memo, &schema, &tiles, &snapshot)?;
    assert!(rt; is_as_made(&space));
    Ok(())
}
