//! Plans with their costs, and memos, worked out by hand, and the rows that the plans give.
use crate::tests::run::is_answered;
use cal_value::NoMemory;
use rule_hep::Rule;
use rules_agg::{AggregateProjectMerge, AggregateRemove};
use rules_filter::{FilterAggregateTranspose, FilterIntoJoin, FilterMerge, FilterProjectTranspose};
use rules_join::{JoinAssociate, JoinCommute};
use rules_project::{ProjectMerge, ProjectRemove, PruneEmpty, ReduceExpressions};
use std::alloc::Global;
use std::test::Fail;

// A SELECT, its plan, and its rows.
type Row = (&'static str, &'static str, &'static str);

const OF_ONE_TABLE: &[Row] = &[
    (
        "SELECT A FROM T ORDER BY A",
        "Sort(keys=[$0 ASC NULLS LAST]) rows=2 cost=12
  ToEnumerable rows=2 cost=7
    MemScan(S.T) rows=2 cost=4
",
        "A\n1\n2\n",
    ),
    (
        "SELECT A FROM T WHERE A > 1",
        "ToEnumerable rows=1 cost=7
  MemFilter($0 > 1) rows=1 cost=5
    MemScan(S.T) rows=2 cost=4
",
        "A\n2\n",
    ),
    (
        "SELECT B FROM W",
        "ToEnumerable rows=2 cost=8
  MemProject($1) rows=2 cost=5
    MemScan(S.W) rows=2 cost=4
",
        "B\n2\n4\n",
    ),
    (
        "SELECT Y FROM F",
        "ToEnumerable rows=2 cost=11
  CsvProject($1) rows=2 cost=8
    CsvScan(S.F) rows=2 cost=7
",
        "Y\n10\n20\n",
    ),
    (
        "SELECT * FROM F WHERE X = 2",
        "Filter($0 = 2) rows=1 cost=13
  ToEnumerable rows=2 cost=10
    CsvScan(S.F) rows=2 cost=7
",
        "X, Y\n2, 20\n",
    ),
    (
        "SELECT A + 1 FROM T",
        "Project($0 + 1) rows=2 cost=10
  ToEnumerable rows=2 cost=7
    MemScan(S.T) rows=2 cost=4
",
        "EXPR$0\n2\n3\n",
    ),
    (
        "SELECT A FROM T WHERE 1 = 0",
        "EmptyRows rows=0 cost=1\n",
        "A\n",
    ),
];

const OF_GROUPS: &[Row] = &[
    (
        "SELECT DISTINCT K FROM M",
        "HashAggregate(keys=[$0] calls=[]) rows=5 cost=50
  ToEnumerable rows=10 cost=23
    MemScan(S.M) rows=10 cost=12
",
        "K\n10\n9\n8\n7\n6\n5\n4\n3\n2\n1\n",
    ),
    (
        "SELECT DISTINCT A FROM P ORDER BY A",
        "SortedAggregate(keys=[$0] calls=[]) rows=1 cost=10
  Sort(keys=[$0 ASC NULLS LAST]) rows=1 cost=7
    ToEnumerable rows=1 cost=5
      MemScan(S.P) rows=1 cost=3
",
        "A\n5\n",
    ),
    (
        "SELECT COUNT(*), SUM(A) FROM T",
        "SortedAggregate(keys=[] calls=[COUNT(*), SUM($0)]) rows=1 cost=11
  ToEnumerable rows=2 cost=7
    MemScan(S.T) rows=2 cost=4
",
        "EXPR$0, EXPR$1\n2, 3\n",
    ),
];

const OF_JOINS: &[Row] = &[
    (
        "SELECT A, B FROM T LEFT JOIN U ON A = B",
        "NestedLoopJoin(kind=Left on=[$0 = $1]) rows=2 cost=23
  ToEnumerable rows=2 cost=7
    MemScan(S.T) rows=2 cost=4
  ToEnumerable rows=2 cost=7
    MemScan(S.U) rows=2 cost=4
",
        "A, B\n1, NULL\n2, 2\n",
    ),
    (
        "SELECT M.K, N.K FROM M LEFT JOIN M AS N ON M.K = N.K",
        "HashJoin(kind=Left on=[$0 = $1]) rows=10 cost=97
  ToEnumerable rows=10 cost=23
    MemScan(S.M) rows=10 cost=12
  ToEnumerable rows=10 cost=23
    MemScan(S.M) rows=10 cost=12
",
        "K, K\n10, 10\n9, 9\n8, 8\n7, 7\n6, 6\n5, 5\n4, 4\n3, 3\n2, 2\n1, 1\n",
    ),
    (
        "SELECT K, B FROM M JOIN U ON K = B ORDER BY K",
        "MergeJoin(kind=Inner on=[$0 = $1]) rows=10 cost=99
  Sort(keys=[$0 ASC NULLS LAST]) rows=10 cost=64
    ToEnumerable rows=10 cost=23
      MemScan(S.M) rows=10 cost=12
  Sort(keys=[$0 ASC NULLS LAST]) rows=2 cost=12
    ToEnumerable rows=2 cost=7
      MemScan(S.U) rows=2 cost=4
",
        "K, B\n2, 2\n3, 3\n",
    ),
];

// A SELECT and its memo.
const MEMOS: &[(&str, &str)] = &[
    (
        "SELECT A FROM T",
        "memo root=0 sets=1 members=1 firings=0 complete
set 0 rows=2
  Scan(S.T)
",
    ),
    (
        "SELECT A, B FROM T JOIN U ON A = B",
        "memo root=2 sets=4 members=8 firings=12 complete
set 0 rows=2
  Scan(S.T)
set 1 rows=2
  Scan(S.U)
set 2 rows=2
  Join(kind=Inner on=[$0 = $1]) #0 #1
  Project($1, $0) #3
  Project($0, $1) #2
set 3 rows=2
  Join(kind=Inner on=[$1 = $0]) #1 #0
  Project($1, $0) #2
  Project($0, $1) #3
",
    ),
];

// The first SELECT whose plan or rows are others; empty where there is none.
fn first_wrong(
    alloc: Global,
    rows: &[Row],
    rules: &[Box<dyn Rule>],
) -> Result<&'static str, NoMemory> {
    for (select, plan, told) in rows {
        let is_planned = is_answered(alloc, "EXPLAIN PLAN FOR ", *select, *plan, rules)?;
        let is_told = is_answered(alloc, "", *select, *told, rules)?;
        if !is_planned || !is_told {
            return Ok(*select);
        }
    }
    Ok("")
}

#[test]
fn plans_and_their_rows(rt: HostRuntime) -> Result<(), Fail> {
    let alloc = rt.alloc();
    let rules: [Box<dyn Rule>; 12] = [
        Box::new(alloc, ReduceExpressions::new())?,
        Box::new(alloc, PruneEmpty::new())?,
        Box::new(alloc, FilterMerge::new())?,
        Box::new(alloc, FilterProjectTranspose::new())?,
        Box::new(alloc, FilterIntoJoin::new())?,
        Box::new(alloc, FilterAggregateTranspose::new())?,
        Box::new(alloc, ProjectMerge::new())?,
        Box::new(alloc, ProjectRemove::new())?,
        Box::new(alloc, AggregateProjectMerge::new())?,
        Box::new(alloc, AggregateRemove::new())?,
        Box::new(alloc, JoinCommute::new())?,
        Box::new(alloc, JoinAssociate::new())?,
    ];
    for rows in [OF_ONE_TABLE, OF_GROUPS, OF_JOINS] {
        let wrong = first_wrong(alloc, rows, &rules)?;
        assert_eq!(rt; wrong, "");
    }
    for (select, memo) in MEMOS {
        let is_told = is_answered(alloc, "EXPLAIN MEMO FOR ", *select, *memo, &rules)?;
        assert!(rt; is_told, "{select}");
    }
    Ok(())
}
