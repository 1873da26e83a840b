//! What plans cost and read, and which traits satisfy others.
use crate::tests::words::{Key, order_of, plans_of};
use cal_value::NoMemory;
use plan_nodes::{Convention, Traits, cost, plan_reads, satisfies};
use std::alloc::Global;
use std::test::Fail;

// A plan, what it costs, and how many rows it reads. The weights of the join's plan are 12, 1, 6, 11, 5, 24 and 6.
const COSTS: &[(&str, u128, u128)] = &[
    ("EmptyRows:0:0", 1, 0),
    ("MemScan:2:2 ToEnumerable:2:0 Sort:2:0", 12, 2),
    (
        "MemScan:10:10 MemFilter:5:0 ToEnumerable:5:0 CsvScan:4:4 ToEnumerable:4:0 HashJoin:5:0 Project:5:0",
        65,
        14,
    ),
    ("TileRead:7:7 ToEnumerable:7:0 HashAggregate:3:0", 35, 7),
    (
        "CsvScan:7:7 CsvProject:7:0 ToEnumerable:7:0 SortedAggregate:3:0",
        37,
        7,
    ),
    (
        "MemScan:3:3 ToEnumerable:3:0 MemScan:2:2 ToEnumerable:2:0 NestedLoopJoin:6:0 Filter:3:0",
        35,
        5,
    ),
    (
        "EmptyRows:1125899906842622:0 EmptyRows:1125899906842622:0 NestedLoopJoin:1:0",
        1267650600228227149696889520131,
        0,
    ),
    (
        "EmptyRows:1125899906842622:0 EmptyRows:1125899906842622:0 NestedLoopJoin:1:0 EmptyRows:1125899906842622:0 EmptyRows:1125899906842622:0 NestedLoopJoin:1:0 MergeJoin:1:0",
        1267650600228229401496703205376,
        0,
    ),
    (
        "MemScan:1:18446744073709551615 ToEnumerable:1:0 MemScan:1:18446744073709551615 ToEnumerable:1:0 HashJoin:1:0",
        36893488147419103244,
        36893488147419103230,
    ),
];

fn cost_of(alloc: Global, text: &str) -> Result<Option<(u128, u128)>, NoMemory> {
    let plans = plans_of(alloc, text)?;
    match plans.as_slice() {
        [plan] => Ok(Some((cost(plan), plan_reads(plan)))),
        _ => Ok(None),
    }
}

#[test]
fn costs_of_plans(rt: HostRuntime) -> Result<(), Fail> {
    for (text, cost, reads) in COSTS {
        assert_eq!(rt; cost_of(rt.alloc(), text)?, Some((*cost, *reads)), "{text}");
    }
    Ok(())
}

// ---- traits

type Given = (Convention, &'static [Key]);

const A: Key = (0, false, false);

const B: Key = (1, false, false);

const A_DOWN: Key = (0, true, false);

const A_NULLS_FIRST: Key = (0, false, true);

// Given traits, asked ones, and whether the given ones satisfy them.
const SATISFIES: &[(Given, Given, bool)] = &[
    ((Convention::Mem, &[]), (Convention::Mem, &[]), true),
    ((Convention::Csv, &[]), (Convention::Csv, &[]), true),
    ((Convention::Tile, &[A]), (Convention::Tile, &[A]), true),
    ((Convention::Mem, &[]), (Convention::Csv, &[]), false),
    (
        (Convention::Tile, &[]),
        (Convention::Enumerable, &[]),
        false,
    ),
    ((Convention::Enumerable, &[]), (Convention::Mem, &[]), false),
    (
        (Convention::Enumerable, &[A, B]),
        (Convention::Enumerable, &[]),
        true,
    ),
    (
        (Convention::Enumerable, &[A, B]),
        (Convention::Enumerable, &[A]),
        true,
    ),
    (
        (Convention::Enumerable, &[A, B]),
        (Convention::Enumerable, &[A, B]),
        true,
    ),
    (
        (Convention::Enumerable, &[A, B]),
        (Convention::Enumerable, &[B]),
        false,
    ),
    (
        (Convention::Enumerable, &[A]),
        (Convention::Enumerable, &[A, B]),
        false,
    ),
    (
        (Convention::Enumerable, &[A]),
        (Convention::Enumerable, &[A, A]),
        false,
    ),
    (
        (Convention::Enumerable, &[]),
        (Convention::Enumerable, &[A]),
        false,
    ),
    (
        (Convention::Enumerable, &[A]),
        (Convention::Enumerable, &[A_DOWN]),
        false,
    ),
    (
        (Convention::Enumerable, &[A_DOWN]),
        (Convention::Enumerable, &[A]),
        false,
    ),
    (
        (Convention::Enumerable, &[A_DOWN, B]),
        (Convention::Enumerable, &[A_DOWN]),
        true,
    ),
    (
        (Convention::Enumerable, &[A]),
        (Convention::Enumerable, &[A_NULLS_FIRST]),
        false,
    ),
    (
        (Convention::Enumerable, &[A_NULLS_FIRST]),
        (Convention::Enumerable, &[A]),
        false,
    ),
    (
        (Convention::Tile, &[A]),
        (Convention::Enumerable, &[A]),
        false,
    ),
];

fn traits_of(alloc: Global, given: Given) -> Result<Traits, NoMemory> {
    let (convention, keys) = given;
    let collation = order_of(alloc, keys)?;
    Ok(Traits {
        convention,
        collation,
    })
}

fn is_satisfied(alloc: Global, given: Given, asked: Given) -> Result<bool, NoMemory> {
    let given = traits_of(alloc, given)?;
    let asked = traits_of(alloc, asked)?;
    Ok(satisfies(&given, &asked))
}

#[test]
fn traits_that_satisfy_others(rt: HostRuntime) -> Result<(), Fail> {
    for (given, asked, wanted) in SATISFIES {
        assert_eq!(rt; is_satisfied(rt.alloc(), *given, *asked)?, *wanted);
    }
    Ok(())
}
