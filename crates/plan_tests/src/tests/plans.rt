//! The cheapest plans, with all their costs worked out by hand.
use crate::tests::spaces::{Given, Node, estimates_of, members_of, rows_of, schema_of, types_of};
use cal_rel::PlanInfo;
use cal_schema::{AdapterKind, JoinKind, Schema};
use cal_value::{KeyOrder, List, NoMemory};
use explain_text::push_plan;
use phys_plan::Space;
use std::alloc::Global;
use std::test::Fail;
use volcano_best::{Planned, find_best};

const CSV: AdapterKind = AdapterKind::Csv;

const MEM: AdapterKind = AdapterKind::Mem;

const UP: &[KeyOrder] = &[KeyOrder {
    column: 0,
    descending: false,
    nulls_first: false,
}];

const DOWN: &[KeyOrder] = &[KeyOrder {
    column: 0,
    descending: true,
    nulls_first: true,
}];

const TWO_ROWS: Given = Given {
    tables: &[(MEM, 1, 2)],
    sets: &[(1, 2)],
    members: &[(0, Node::Scan(0))],
};
// A filter and a project over a table in memory, then over a file.
const KEPT: Given = Given {
    tables: &[(MEM, 2, 10)],
    sets: &[(2, 10), (2, 5), (1, 5), (2, 5), (2, 10)],
    members: &[
        (0, Node::Scan(0)),
        (1, Node::Test(0)),
        (2, Node::Pick(1, &[1])),
        (3, Node::Same(0)),
        (4, Node::Pick(0, &[1, 1])),
    ],
};

const FILE: Given = Given {
    tables: &[(CSV, 2, 10)],
    sets: &[(2, 10), (2, 5), (2, 10)],
    members: &[
        (0, Node::Scan(0)),
        (1, Node::Test(0)),
        (2, Node::Pick(0, &[1, 0])),
    ],
};
// Joins of tables of ten rows, with few rows and with many.
const FEW: Given = Given {
    tables: &[(MEM, 2, 10), (MEM, 2, 10)],
    sets: &[(2, 10), (2, 10), (4, 10)],
    members: &[
        (0, Node::Scan(0)),
        (1, Node::Scan(1)),
        (2, Node::Match(JoinKind::Inner, 0, 1, 2)),
    ],
};

const MANY: Given = Given {
    tables: &[(MEM, 2, 10), (MEM, 2, 10)],
    sets: &[(2, 10), (2, 10), (4, 100), (4, 100), (4, 50)],
    members: &[
        (0, Node::Scan(0)),
        (1, Node::Scan(1)),
        (2, Node::Match(JoinKind::Inner, 0, 1, 2)),
        (3, Node::Match(JoinKind::Left, 0, 1, 2)),
        (4, Node::Test(2)),
    ],
};
// A join of a hundred rows each that has ten thousand, joined once more by the same key.
const TWICE: Given = Given {
    tables: &[(MEM, 2, 100), (MEM, 2, 100), (MEM, 2, 100)],
    sets: &[(2, 100), (2, 100), (2, 100), (4, 10000), (6, 10000)],
    members: &[
        (0, Node::Scan(0)),
        (1, Node::Scan(1)),
        (2, Node::Scan(2)),
        (3, Node::Match(JoinKind::Inner, 0, 1, 2)),
        (4, Node::Match(JoinKind::Inner, 3, 2, 4)),
    ],
};

const GROUPS: Given = Given {
    tables: &[(MEM, 2, 10)],
    sets: &[(2, 10), (2, 5), (2, 50), (1, 1)],
    members: &[
        (0, Node::Scan(0)),
        (1, Node::Count(0, &[0])),
        (2, Node::Count(0, &[1])),
        (3, Node::Count(0, &[])),
    ],
};
// Two sets, each a project of the other one; one that is a project of itself alone; one that is also empty.
const CYCLES: Given = Given {
    tables: &[(MEM, 2, 4)],
    sets: &[(2, 4), (2, 4), (2, 4), (0, 0)],
    members: &[
        (0, Node::Scan(0)),
        (0, Node::Pick(1, &[1, 0])),
        (1, Node::Pick(0, &[1, 0])),
        (2, Node::Pick(2, &[0, 1])),
        (3, Node::Pick(0, &[])),
        (3, Node::Empty),
    ],
};
// 2^100 rows.
const HUGE: Given = Given {
    tables: &[(MEM, 1, 3)],
    sets: &[
        (1, 1267650600228229401496703205376),
        (2, 1267650600228229401496703205376),
    ],
    members: &[(0, Node::Scan(0)), (1, Node::Cross(0, 0))],
};

// The space, the set, the order that is asked, and the plan; empty where there is none.
type Row = (Given, u32, &'static [KeyOrder], &'static str);

const PLANS: &[Row] = &[
    (
        TWO_ROWS,
        0,
        &[],
        "ToEnumerable rows=2 cost=7
  MemScan(S.T0) rows=2 cost=4
",
    ),
    (
        TWO_ROWS,
        0,
        UP,
        "Sort(keys=[$0 ASC NULLS LAST]) rows=2 cost=12
  ToEnumerable rows=2 cost=7
    MemScan(S.T0) rows=2 cost=4
",
    ),
    (
        KEPT,
        1,
        &[],
        "ToEnumerable rows=5 cost=19
  MemFilter($0 = 1) rows=5 cost=13
    MemScan(S.T0) rows=10 cost=12
",
    ),
    (
        KEPT,
        2,
        &[],
        "ToEnumerable rows=5 cost=20
  MemProject($1) rows=5 cost=14
    MemFilter($0 = 1) rows=5 cost=13
      MemScan(S.T0) rows=10 cost=12
",
    ),
    (
        KEPT,
        3,
        &[],
        "Filter($0 = $1) rows=5 cost=34
  ToEnumerable rows=10 cost=23
    MemScan(S.T0) rows=10 cost=12
",
    ),
    (
        KEPT,
        4,
        &[],
        "Project($1, $1) rows=10 cost=34
  ToEnumerable rows=10 cost=23
    MemScan(S.T0) rows=10 cost=12
",
    ),
    (
        FILE,
        1,
        &[],
        "Filter($0 = 1) rows=5 cost=45
  ToEnumerable rows=10 cost=34
    CsvScan(S.T0) rows=10 cost=23
",
    ),
    (
        FILE,
        2,
        &[],
        "ToEnumerable rows=10 cost=35
  CsvProject($1, $0) rows=10 cost=24
    CsvScan(S.T0) rows=10 cost=23
",
    ),
    (
        FEW,
        2,
        &[],
        "HashJoin(kind=Inner on=[$0 = $2]) rows=10 cost=97
  ToEnumerable rows=10 cost=23
    MemScan(S.T0) rows=10 cost=12
  ToEnumerable rows=10 cost=23
    MemScan(S.T1) rows=10 cost=12
",
    ),
    (
        FEW,
        2,
        UP,
        "Sort(keys=[$0 ASC NULLS LAST]) rows=10 cost=138
  HashJoin(kind=Inner on=[$0 = $2]) rows=10 cost=97
    ToEnumerable rows=10 cost=23
      MemScan(S.T0) rows=10 cost=12
    ToEnumerable rows=10 cost=23
      MemScan(S.T1) rows=10 cost=12
",
    ),
    (
        MANY,
        2,
        &[],
        "NestedLoopJoin(kind=Inner on=[$0 = $2]) rows=100 cost=167
  ToEnumerable rows=10 cost=23
    MemScan(S.T0) rows=10 cost=12
  ToEnumerable rows=10 cost=23
    MemScan(S.T1) rows=10 cost=12
",
    ),
    (
        MANY,
        2,
        UP,
        "MergeJoin(kind=Inner on=[$0 = $2]) rows=100 cost=249
  Sort(keys=[$0 ASC NULLS LAST]) rows=10 cost=64
    ToEnumerable rows=10 cost=23
      MemScan(S.T0) rows=10 cost=12
  Sort(keys=[$0 ASC NULLS LAST]) rows=10 cost=64
    ToEnumerable rows=10 cost=23
      MemScan(S.T1) rows=10 cost=12
",
    ),
    (
        MANY,
        2,
        DOWN,
        "Sort(keys=[$0 DESC NULLS FIRST]) rows=100 cost=868
  NestedLoopJoin(kind=Inner on=[$0 = $2]) rows=100 cost=167
    ToEnumerable rows=10 cost=23
      MemScan(S.T0) rows=10 cost=12
    ToEnumerable rows=10 cost=23
      MemScan(S.T1) rows=10 cost=12
",
    ),
    (
        MANY,
        3,
        UP,
        "Sort(keys=[$0 ASC NULLS LAST]) rows=100 cost=868
  NestedLoopJoin(kind=Left on=[$0 = $2]) rows=100 cost=167
    ToEnumerable rows=10 cost=23
      MemScan(S.T0) rows=10 cost=12
    ToEnumerable rows=10 cost=23
      MemScan(S.T1) rows=10 cost=12
",
    ),
    (
        MANY,
        4,
        UP,
        "Filter($0 = 1) rows=50 cost=350
  MergeJoin(kind=Inner on=[$0 = $2]) rows=100 cost=249
    Sort(keys=[$0 ASC NULLS LAST]) rows=10 cost=64
      ToEnumerable rows=10 cost=23
        MemScan(S.T0) rows=10 cost=12
    Sort(keys=[$0 ASC NULLS LAST]) rows=10 cost=64
      ToEnumerable rows=10 cost=23
        MemScan(S.T1) rows=10 cost=12
",
    ),
    (
        TWICE,
        4,
        &[],
        "MergeJoin(kind=Inner on=[$0 = $4]) rows=10000 cost=33014
  MergeJoin(kind=Inner on=[$0 = $2]) rows=10000 cost=12009
    Sort(keys=[$0 ASC NULLS LAST]) rows=100 cost=904
      ToEnumerable rows=100 cost=203
        MemScan(S.T0) rows=100 cost=102
    Sort(keys=[$0 ASC NULLS LAST]) rows=100 cost=904
      ToEnumerable rows=100 cost=203
        MemScan(S.T1) rows=100 cost=102
  Sort(keys=[$0 ASC NULLS LAST]) rows=100 cost=904
    ToEnumerable rows=100 cost=203
      MemScan(S.T2) rows=100 cost=102
",
    ),
    (
        GROUPS,
        1,
        UP,
        "Sort(keys=[$0 ASC NULLS LAST]) rows=5 cost=66
  HashAggregate(keys=[$0] calls=[COUNT(*)]) rows=5 cost=50
    ToEnumerable rows=10 cost=23
      MemScan(S.T0) rows=10 cost=12
",
    ),
    (
        GROUPS,
        2,
        UP,
        "SortedAggregate(keys=[$1] calls=[COUNT(*)]) rows=50 cost=125
  Sort(keys=[$1 ASC NULLS LAST]) rows=10 cost=64
    ToEnumerable rows=10 cost=23
      MemScan(S.T0) rows=10 cost=12
",
    ),
    (
        GROUPS,
        3,
        &[],
        "SortedAggregate(keys=[] calls=[COUNT(*)]) rows=1 cost=35
  ToEnumerable rows=10 cost=23
    MemScan(S.T0) rows=10 cost=12
",
    ),
    (
        CYCLES,
        1,
        UP,
        "Sort(keys=[$0 ASC NULLS LAST]) rows=4 cost=25
  ToEnumerable rows=4 cost=12
    MemProject($1, $0) rows=4 cost=7
      MemScan(S.T0) rows=4 cost=6
",
    ),
    (CYCLES, 2, &[], ""),
    (CYCLES, 3, &[], "EmptyRows rows=0 cost=1\n"),
    (
        HUGE,
        1,
        &[],
        "NestedLoopJoin(kind=Inner on=[TRUE]) rows=1267650600228229401496703205376 cost=1267650600228229401496703205376
  ToEnumerable rows=1267650600228229401496703205376 cost=1267650600228229401496703205376
    MemScan(S.T0) rows=1267650600228229401496703205376 cost=5
  ToEnumerable rows=1267650600228229401496703205376 cost=1267650600228229401496703205376
    MemScan(S.T0) rows=1267650600228229401496703205376 cost=5
",
    ),
];

fn cheapest(
    alloc: Global,
    given: &Given,
    schema: &Schema,
    root: u32,
    order: &[KeyOrder],
) -> Result<Option<Planned>, NoMemory> {
    let tiles = List::new(alloc);
    let types = types_of(alloc, given)?;
    let members = members_of(alloc, given)?;
    let space = Space {
        members: &members,
        info: PlanInfo::new(schema, &tiles, &types),
        estimates: estimates_of(alloc, given)?,
        tables: rows_of(alloc, given)?,
    };
    let mut keys = List::new(alloc);
    for key in order {
        keys.push(*key)?;
    }
    find_best(alloc, &space, root, &keys)
}

fn plan_text(
    alloc: Global,
    given: &Given,
    root: u32,
    order: &[KeyOrder],
) -> Result<String, NoMemory> {
    let schema = schema_of(alloc, given)?;
    let mut text = String::new(alloc);
    if let Some(planned) = cheapest(alloc, given, &schema, root, order)? {
        push_plan(alloc, &mut text, &planned.plan, &schema)?;
    }
    Ok(text)
}

// The text of the first plan that isn't the one of the table.
fn first_wrong(alloc: Global) -> Result<String, NoMemory> {
    for (given, root, order, wanted) in PLANS {
        let text = plan_text(alloc, given, *root, order)?;
        if text.as_str() != *wanted {
            return Ok(text);
        }
    }
    Ok(String::new(alloc))
}

#[test]
fn cheapest_plans(rt: HostRuntime) -> Result<(), Fail> {
    let wrong = first_wrong(rt.alloc())?;
    assert_eq!(rt; wrong.as_str(), "");
    Ok(())
}
