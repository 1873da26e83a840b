//! What nodes weigh.
use crate::tests::words::node;
use cal_value::NoMemory;
use plan_nodes::{PlanNode, weight};
use std::alloc::Global;
use std::test::Fail;

// What each node weighs where all of e, l, r and p are 0, where they are 1, where they are 2, and where they are 5, 7, 11 and 13.
const WEIGHTS: &[(&str, [u128; 4])] = &[
    ("MemScan", [2, 3, 4, 15]),
    ("CsvScan", [3, 5, 7, 29]),
    ("TileRead", [1, 2, 3, 14]),
    ("MemFilter", [1, 1, 1, 1]),
    ("MemProject", [1, 1, 1, 1]),
    ("CsvProject", [1, 1, 1, 1]),
    ("ToEnumerable", [1, 2, 3, 6]),
    ("Filter", [1, 2, 3, 8]),
    ("Project", [1, 2, 3, 8]),
    ("NestedLoopJoin", [1, 4, 9, 96]),
    ("HashJoin", [1, 6, 11, 42]),
    ("MergeJoin", [1, 4, 7, 24]),
    ("HashAggregate", [2, 5, 8, 21]),
    ("SortedAggregate", [1, 3, 5, 13]),
    ("EmptyRows", [1, 1, 1, 1]),
    ("Sort", [1, 2, 5, 16]),
];

fn weighed(node: &PlanNode) -> [u128; 4] {
    [
        weight(node, 0, 0, 0, 0),
        weight(node, 1, 1, 1, 1),
        weight(node, 2, 2, 2, 2),
        weight(node, 5, 7, 11, 13),
    ]
}

fn weighed_by_name(alloc: Global, name: &str) -> Result<[u128; 4], NoMemory> {
    let node = node(alloc, name)?;
    Ok(weighed(&node))
}

#[test]
fn weights_of_all_nodes(rt: HostRuntime) -> Result<(), Fail> {
    for (name, weights) in WEIGHTS {
        assert_eq!(rt; weighed_by_name(rt.alloc(), name)?, *weights, "{name}");
    }
    Ok(())
}

type Rows = (u128, u128, u128, u64);

const MOST: u128 = u128::MAX;

// What nodes weigh at further e, l, r and p, among them 2^50 - 1, 2^93, 2^99 and 2^100, and the cut at 2^100.
const FURTHER: &[(&str, Rows, u128)] = &[
    ("Sort", (3, 0, 0, 0), 7),
    ("Sort", (4, 0, 0, 0), 13),
    ("Sort", (7, 9, 9, 9), 22),
    ("Sort", (8, 9, 9, 9), 33),
    ("Sort", (255, 0, 0, 0), 2041),
    ("Sort", (256, 0, 0, 0), 2305),
    (
        "Sort",
        (9903520314283042199192993792, 0, 0, 0),
        930930909542605966724141416449,
    ),
    (
        "Sort",
        (633825300114114700748351602688, 0, 0, 0),
        1267650600228229401496703205376,
    ),
    ("Sort", (MOST, 0, 0, 0), 1267650600228229401496703205376),
    ("NestedLoopJoin", (0, 1000, 0, 0), 1001),
    ("NestedLoopJoin", (0, 0, 1000, 0), 1001),
    (
        "NestedLoopJoin",
        (0, 1125899906842623, 1125899906842622, 0),
        1267650600228228275596796362752,
    ),
    (
        "NestedLoopJoin",
        (0, 1125899906842623, 1125899906842623, 0),
        1267650600228229401496703205376,
    ),
    (
        "NestedLoopJoin",
        (0, 1125899906842623, 1125899906842624, 0),
        1267650600228229401496703205376,
    ),
    (
        "NestedLoopJoin",
        (MOST, MOST, MOST, 0),
        1267650600228229401496703205376,
    ),
    ("HashJoin", (100, 10, 1, 0), 123),
    (
        "HashJoin",
        (MOST, MOST, MOST, 0),
        1267650600228229401496703205376,
    ),
    (
        "MergeJoin",
        (MOST, MOST, MOST, 0),
        1267650600228229401496703205376,
    ),
    (
        "HashAggregate",
        (1, 633825300114114700748351602688, 0, 0),
        1267650600228229401496703205376,
    ),
    (
        "Filter",
        (0, 1267650600228229401496703205376, 0, 0),
        1267650600228229401496703205376,
    ),
    (
        "Filter",
        (0, 1267650600228229401496703205374, 0, 0),
        1267650600228229401496703205375,
    ),
    ("MemScan", (0, 0, 0, u64::MAX), 18446744073709551617),
    ("CsvScan", (0, 0, 0, u64::MAX), 36893488147419103233),
];

fn weighs(alloc: Global, name: &str, rows: Rows) -> Result<u128, NoMemory> {
    let node = node(alloc, name)?;
    let (e, l, r, p) = rows;
    Ok(weight(&node, e, l, r, p))
}

#[test]
fn weights_of_many_rows(rt: HostRuntime) -> Result<(), Fail> {
    for (name, rows, wanted) in FURTHER {
        assert_eq!(rt; weighs(rt.alloc(), name, *rows)?, *wanted, "{name}");
    }
    Ok(())
}
