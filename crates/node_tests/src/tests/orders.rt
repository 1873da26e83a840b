//! The orders that nodes and plans give, and those of their inputs that they take.
use crate::tests::words::{Key, node, order_of, plans_of};
use cal_rel::PlanInfo;
use cal_schema::{AdapterKind, ColumnDef, Schema, TableDef};
use cal_value::{Collation, List, NoMemory, SqlText, SqlType};
use plan_nodes::{Convention, Traits, below, delivers, gives};
use std::alloc::Global;
use std::test::Fail;

const A: Key = (0, false, false);

const B: Key = (1, false, false);

const C: Key = (2, false, false);

const A_DOWN: Key = (0, true, false);

const B_DOWN: Key = (1, true, false);

const C_DOWN: Key = (2, true, false);

const B_NULLS_FIRST: Key = (1, false, true);

const C_NULLS_FIRST: Key = (2, false, true);

// The keys of the node Sort.
const SORTED: &[Key] = &[B_DOWN, C_NULLS_FIRST, A];

// ---- tables of three columns and of two

fn no_name(alloc: Global) -> SqlText {
    SqlText::from_characters(Vec::new(alloc))
}

fn columns(alloc: Global, count: u8) -> Result<List<ColumnDef>, NoMemory> {
    let mut columns = List::new(alloc);
    for _ in 0..count {
        let name = no_name(alloc);
        let kind = SqlType::boolean(true);
        columns.push(ColumnDef { name, kind })?;
    }
    Ok(columns)
}

fn schema(alloc: Global) -> Result<Schema, NoMemory> {
    let mut tables = List::new(alloc);
    for count in [3, 2] {
        tables.push(TableDef {
            schema: no_name(alloc),
            name: no_name(alloc),
            columns: columns(alloc, count)?,
            adapter: AdapterKind::Mem,
            file: no_name(alloc),
            max_rows: 9,
            primary_key: List::new(alloc),
        })?;
    }
    Ok(Schema {
        default_schema: None,
        tables,
    })
}

// ---- what nodes give

// A node, how many columns its first input has, the order of that input, and the order that the node gives.
const GIVES: &[(&str, usize, &[Key], &[Key])] = &[
    ("MemScan", 3, SORTED, &[]),
    ("CsvScan", 3, SORTED, &[]),
    ("TileRead", 3, SORTED, &[]),
    ("MemFilter", 3, SORTED, &[]),
    ("MemProject", 3, SORTED, &[]),
    ("CsvProject", 3, SORTED, &[]),
    ("ToEnumerable", 3, SORTED, SORTED),
    ("Filter", 3, SORTED, SORTED),
    ("Project", 3, SORTED, &[A_DOWN, B_NULLS_FIRST]),
    ("Project", 3, &[C], &[B]),
    ("Project", 3, &[B, B], &[A, A]),
    ("Project", 3, &[A, B, C], &[]),
    ("NestedLoopJoin", 3, SORTED, SORTED),
    ("HashJoin", 3, SORTED, &[]),
    ("MergeJoin", 3, SORTED, &[B, C]),
    ("MergeJoin", 2, &[], &[B]),
    ("MergeJoin", 4, &[], &[C]),
    ("MergeJoin", 5, &[], &[]),
    ("HashAggregate", 3, SORTED, &[]),
    ("SortedAggregate", 3, SORTED, &[A, B]),
    ("EmptyRows", 0, SORTED, &[]),
    ("Sort", 3, &[A], SORTED),
];

fn does_give(
    alloc: Global,
    info: &PlanInfo,
    row: (&str, usize, &[Key], &[Key]),
) -> Result<bool, NoMemory> {
    let (name, width, order, wanted) = row;
    let order = order_of(alloc, order)?;
    let wanted = order_of(alloc, wanted)?;
    let node = node(alloc, name)?;
    let given = gives(alloc, info, width, &node, &order);
    drop(node);
    Ok(given? == wanted)
}

#[test]
fn orders_that_nodes_give(rt: HostRuntime) -> Result<(), Fail> {
    let alloc = rt.alloc();
    let (schema, tiles, sets) = (schema(alloc)?, List::new(alloc), List::new(alloc));
    let info = PlanInfo::new(&schema, &tiles, &sets);
    for row in GIVES {
        assert!(rt; does_give(alloc, &info, *row)?, "{}", row.0);
    }
    Ok(())
}

// ---- what nodes take

// A node over three columns, an order that it is to give, and the order of its first input with which it does.
const BELOW: &[(&str, &[Key], Option<&[Key]>)] = &[
    ("MemScan", &[], Some(&[])),
    ("MemScan", &[A], None),
    ("CsvScan", &[], Some(&[])),
    ("CsvScan", &[A], None),
    ("TileRead", &[], Some(&[])),
    ("TileRead", &[A], None),
    ("MemFilter", &[], Some(&[])),
    ("MemFilter", &[A], None),
    ("MemProject", &[], Some(&[])),
    ("MemProject", &[A], None),
    ("CsvProject", &[], Some(&[])),
    ("CsvProject", &[A], None),
    ("ToEnumerable", &[], Some(&[])),
    ("ToEnumerable", SORTED, Some(SORTED)),
    ("Filter", SORTED, Some(SORTED)),
    ("NestedLoopJoin", SORTED, Some(SORTED)),
    ("Project", &[], Some(&[])),
    (
        "Project",
        &[A_DOWN, B_NULLS_FIRST],
        Some(&[B_DOWN, C_NULLS_FIRST]),
    ),
    ("Project", &[B, A], Some(&[C, B])),
    ("Project", &[C], None),
    ("Project", &[A, (3, false, false)], None),
    ("HashJoin", &[], Some(&[])),
    ("HashJoin", &[B], None),
    ("MergeJoin", &[], Some(&[B, C])),
    ("MergeJoin", &[B], Some(&[B, C])),
    ("MergeJoin", &[B, C], Some(&[B, C])),
    ("MergeJoin", &[C], None),
    ("MergeJoin", &[B_DOWN], None),
    ("MergeJoin", &[B, C, A], None),
    ("HashAggregate", &[], Some(&[])),
    ("HashAggregate", &[A], None),
    ("SortedAggregate", &[], Some(&[C, A])),
    ("SortedAggregate", &[A], Some(&[C, A])),
    ("SortedAggregate", &[A, B], Some(&[C, A])),
    ("SortedAggregate", &[B], None),
    ("SortedAggregate", &[A_DOWN], None),
    ("EmptyRows", &[], Some(&[])),
    ("EmptyRows", &[A], None),
    ("Sort", &[], Some(&[])),
    ("Sort", &[B_DOWN], Some(&[])),
    ("Sort", SORTED, Some(&[])),
    ("Sort", &[B], None),
    ("Sort", &[C_DOWN], None),
];

fn wanted_of(alloc: Global, keys: Option<&[Key]>) -> Result<Option<Collation>, NoMemory> {
    match keys {
        Some(keys) => Ok(Some(order_of(alloc, keys)?)),
        None => Ok(None),
    }
}

fn does_take(
    alloc: Global,
    info: &PlanInfo,
    row: (&str, &[Key], Option<&[Key]>),
) -> Result<bool, NoMemory> {
    let (name, need, wanted) = row;
    let need = order_of(alloc, need)?;
    let wanted = wanted_of(alloc, wanted)?;
    let node = node(alloc, name)?;
    let taken = below(alloc, info, 3, &node, &need);
    drop(node);
    Ok(taken? == wanted)
}

#[test]
fn orders_that_nodes_take(rt: HostRuntime) -> Result<(), Fail> {
    let alloc = rt.alloc();
    let (schema, tiles, sets) = (schema(alloc)?, List::new(alloc), List::new(alloc));
    let info = PlanInfo::new(&schema, &tiles, &sets);
    for row in BELOW {
        assert!(rt; does_take(alloc, &info, *row)?, "{}", row.0);
    }
    Ok(())
}

// ---- what plans give

// A plan, the form of its rows, and their order.
const DELIVERS: &[(&str, Convention, &[Key])] = &[
    ("MemScan", Convention::Mem, &[]),
    ("CsvScan", Convention::Csv, &[]),
    ("TileRead", Convention::Tile, &[]),
    ("EmptyRows", Convention::Enumerable, &[]),
    ("MemScan MemFilter", Convention::Mem, &[]),
    ("MemScan MemFilter MemProject", Convention::Mem, &[]),
    ("CsvScan CsvProject", Convention::Csv, &[]),
    ("TileRead ToEnumerable", Convention::Enumerable, &[]),
    ("MemScan ToEnumerable Sort", Convention::Enumerable, SORTED),
    (
        "MemScan ToEnumerable Sort Filter",
        Convention::Enumerable,
        SORTED,
    ),
    (
        "MemScan ToEnumerable Sort Project",
        Convention::Enumerable,
        &[A_DOWN, B_NULLS_FIRST],
    ),
    (
        "MemScan ToEnumerable Sort Project Project",
        Convention::Enumerable,
        &[],
    ),
    (
        "MemScan ToEnumerable Sort CsvScan ToEnumerable NestedLoopJoin",
        Convention::Enumerable,
        SORTED,
    ),
    (
        "CsvScan ToEnumerable MemScan ToEnumerable Sort NestedLoopJoin",
        Convention::Enumerable,
        &[],
    ),
    (
        "MemScan ToEnumerable Sort CsvScan ToEnumerable HashJoin",
        Convention::Enumerable,
        &[],
    ),
    (
        "MemScan ToEnumerable Sort CsvScan ToEnumerable MergeJoin",
        Convention::Enumerable,
        &[B, C],
    ),
    (
        "CsvScan ToEnumerable MemScan ToEnumerable MergeJoin",
        Convention::Enumerable,
        &[B],
    ),
    (
        "CsvScan ToEnumerable CsvScan ToEnumerable HashJoin MemScan ToEnumerable MergeJoin",
        Convention::Enumerable,
        &[C],
    ),
    (
        "MemScan ToEnumerable HashAggregate MemScan ToEnumerable MergeJoin",
        Convention::Enumerable,
        &[B],
    ),
    (
        "MemScan ToEnumerable Sort HashAggregate",
        Convention::Enumerable,
        &[],
    ),
    (
        "MemScan ToEnumerable Sort SortedAggregate",
        Convention::Enumerable,
        &[A, B],
    ),
    (
        "MemScan ToEnumerable SortedAggregate Sort",
        Convention::Enumerable,
        SORTED,
    ),
];

fn traits_of(alloc: Global, info: &PlanInfo, text: &str) -> Result<Option<Traits>, NoMemory> {
    let plans = plans_of(alloc, text)?;
    match plans.as_slice() {
        [plan] => Ok(Some(delivers(alloc, plan, info)?)),
        _ => Ok(None),
    }
}

fn does_deliver(
    alloc: Global,
    info: &PlanInfo,
    row: (&str, Convention, &[Key]),
) -> Result<bool, NoMemory> {
    let (text, convention, keys) = row;
    let wanted = order_of(alloc, keys)?;
    match traits_of(alloc, info, text)? {
        Some(traits) => Ok(traits.convention.is(convention) && traits.collation == wanted),
        None => Ok(false),
    }
}

#[test]
fn traits_that_plans_give(rt: HostRuntime) -> Result<(), Fail> {
    let alloc = rt.alloc();
    let (schema, tiles, sets) = (schema(alloc)?, List::new(alloc), List::new(alloc));
    let info = PlanInfo::new(&schema, &tiles, &sets);
    for row in DELIVERS {
        assert!(rt; does_deliver(alloc, &info, *row)?, "{}", row.0);
    }
    Ok(())
}
