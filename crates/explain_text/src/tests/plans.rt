//! Plans, and their texts.
//!
//! A plan stands with its inputs before its nodes. A node is a sign and a digit, the estimate of its set; a scan's part has as many rows.
use crate::push_plan;
use crate::tests::trees::{expression, expressions, schema};
use cal_schema::{AggCall, JoinKind, Schema};
use cal_value::{Agg, Collation, KeyOrder, List, NoMemory};
use plan_nodes::{Plan, PlanNode};
use sqlite_items::Items;
use std::alloc::Global;
use std::test::Fail;

const TEXTS: &[(&str, &str)] = &[
    (
        "s2 e2 o2",
        "Sort(keys=[$0 ASC NULLS LAST]) rows=2 cost=12
  ToEnumerable rows=2 cost=7
    MemScan(S.T) rows=2 cost=4
",
    ),
    (
        "s2 f1 e1",
        "ToEnumerable rows=1 cost=7
  MemFilter($0 > 7) rows=1 cost=5
    MemScan(S.T) rows=2 cost=4
",
    ),
    (
        "t0 e0 g1",
        "SortedAggregate(keys=[] calls=[SUM0($1)]) rows=1 cost=4
  ToEnumerable rows=0 cost=2
    TileRead(tile 0) rows=0 cost=1
",
    ),
    (
        "c3 q3 e3 P3",
        "Project($1, - $0) rows=3 cost=18
  ToEnumerable rows=3 cost=14
    CsvProject($1, $0) rows=3 cost=10
      CsvScan(\"sales\".\"a\"\"b\") rows=3 cost=9
",
    ),
    (
        "s2 e2 c3 e3 h3 s1 e1 s2 e2 m2 n6",
        "NestedLoopJoin(kind=Left on=[TRUE]) rows=6 cost=64
  HashJoin(kind=Inner on=[$0 = $1]) rows=3 cost=34
    ToEnumerable rows=2 cost=7
      MemScan(S.T) rows=2 cost=4
    ToEnumerable rows=3 cost=13
      CsvScan(\"sales\".\"a\"\"b\") rows=3 cost=9
  MergeJoin(kind=Inner on=[$0 = $1]) rows=2 cost=18
    ToEnumerable rows=1 cost=5
      MemScan(S.T) rows=1 cost=3
    ToEnumerable rows=2 cost=7
      MemScan(S.T) rows=2 cost=4
",
    ),
    (
        "z0 F0 a0 d0",
        "Sort(keys=[$1 DESC NULLS FIRST, $0 ASC NULLS FIRST, $2 DESC NULLS LAST]) rows=0 cost=5
  HashAggregate(keys=[$0, $1] calls=[COUNT(*), COUNT($2), SUM($3), MIN($4), MAX($5)]) rows=0 cost=4
    Filter(($0 IS NULL) OR ($1 = 'it''s')) rows=0 cost=2
      EmptyRows rows=0 cost=1
",
    ),
    (
        "x0 p0",
        "MemProject($1, $0) rows=0 cost=3
  MemScan() rows=0 cost=2
",
    ),
];

// ---- details

fn call(agg: Agg, argument: Option<u32>) -> AggCall {
    AggCall { agg, argument }
}

fn call_each(alloc: Global) -> Result<List<AggCall>, NoMemory> {
    let mut calls = List::new(alloc);
    calls.push(call(Agg::Count, None))?;
    calls.push(call(Agg::Count, Some(2)))?;
    calls.push(call(Agg::Sum, Some(3)))?;
    calls.push(call(Agg::Min, Some(4)))?;
    calls.push(call(Agg::Max, Some(5)))?;
    Ok(calls)
}

fn hash_aggregate(alloc: Global) -> Result<PlanNode, NoMemory> {
    let mut groups = List::new(alloc);
    groups.push(0)?;
    groups.push(1)?;
    let calls = call_each(alloc)?;
    Ok(PlanNode::HashAggregate { groups, calls })
}

fn sorted_aggregate(alloc: Global) -> Result<PlanNode, NoMemory> {
    let mut calls = List::new(alloc);
    calls.push(call(Agg::Sum0, Some(1)))?;
    Ok(PlanNode::SortedAggregate {
        groups: List::new(alloc),
        calls,
    })
}

fn key(column: u32, descending: bool, nulls_first: bool) -> KeyOrder {
    KeyOrder {
        column,
        descending,
        nulls_first,
    }
}

fn sort(alloc: Global) -> Result<PlanNode, NoMemory> {
    let mut keys: Collation = List::new(alloc);
    keys.push(key(0, false, false))?;
    Ok(PlanNode::Sort { keys })
}

fn sort_in_each_way(alloc: Global) -> Result<PlanNode, NoMemory> {
    let mut keys: Collation = List::new(alloc);
    keys.push(key(1, true, true))?;
    keys.push(key(0, false, true))?;
    keys.push(key(2, true, false))?;
    Ok(PlanNode::Sort { keys })
}

// ---- nodes

fn leaf(alloc: Global, sign: u8) -> PlanNode {
    match sign {
        b's' => PlanNode::MemScan { table: 0 },
        b'c' => PlanNode::CsvScan { table: 1 },
        b't' => PlanNode::TileRead { tile: 0 },
        b'x' => PlanNode::MemScan { table: 2 },
        _ => PlanNode::EmptyRows {
            types: List::new(alloc),
        },
    }
}

fn one_input(alloc: Global, sign: u8) -> Result<PlanNode, NoMemory> {
    match sign {
        b'f' => Ok(PlanNode::MemFilter {
            predicate: expression(alloc, "0i>")?,
        }),
        b'p' => Ok(PlanNode::MemProject {
            items: expressions(alloc, &["1", "0"])?,
        }),
        b'q' => Ok(PlanNode::CsvProject {
            items: expressions(alloc, &["1", "0"])?,
        }),
        b'F' => Ok(PlanNode::Filter {
            predicate: expression(alloc, "0?1q=|")?,
        }),
        b'P' => Ok(PlanNode::Project {
            items: expressions(alloc, &["1", "0~"])?,
        }),
        b'a' => hash_aggregate(alloc),
        b'g' => sorted_aggregate(alloc),
        b'o' => sort(alloc),
        b'd' => sort_in_each_way(alloc),
        _ => Ok(PlanNode::ToEnumerable),
    }
}

fn two_inputs(alloc: Global, sign: u8) -> Result<PlanNode, NoMemory> {
    match sign {
        b'h' => Ok(PlanNode::HashJoin {
            kind: JoinKind::Inner,
            on: expression(alloc, "01=")?,
        }),
        b'm' => Ok(PlanNode::MergeJoin {
            on: expression(alloc, "01=")?,
        }),
        _ => Ok(PlanNode::NestedLoopJoin {
            kind: JoinKind::Left,
            on: expression(alloc, "t")?,
        }),
    }
}

// ---- plans

fn input_count(sign: u8) -> u8 {
    match sign {
        b's' | b'c' | b't' | b'x' | b'z' => 0,
        b'h' | b'm' | b'n' => 2,
        _ => 1,
    }
}

fn input(alloc: Global, plans: &mut List<Plan>) -> Plan {
    match plans.pop() {
        Some(plan) => plan,
        None => Plan {
            node: PlanNode::ToEnumerable,
            inputs: Items::new(alloc),
            rows: 0,
            part_rows: 0,
        },
    }
}

fn one(alloc: Global, plans: &mut List<Plan>) -> Result<Items<Plan>, NoMemory> {
    let mut inputs = Items::new(alloc);
    inputs.push(input(alloc, plans))?;
    Ok(inputs)
}

fn two(alloc: Global, plans: &mut List<Plan>) -> Result<Items<Plan>, NoMemory> {
    let right = one(alloc, plans)?;
    let mut inputs = one(alloc, plans)?;
    inputs.append(right)?;
    Ok(inputs)
}

fn inputs(alloc: Global, plans: &mut List<Plan>, sign: u8) -> Result<Items<Plan>, NoMemory> {
    match input_count(sign) {
        0 => Ok(Items::new(alloc)),
        1 => one(alloc, plans),
        _ => two(alloc, plans),
    }
}

fn node(alloc: Global, sign: u8) -> Result<PlanNode, NoMemory> {
    match input_count(sign) {
        0 => Ok(leaf(alloc, sign)),
        1 => one_input(alloc, sign),
        _ => two_inputs(alloc, sign),
    }
}

fn push_over(alloc: Global, plans: &mut List<Plan>, sign: u8, rows: u8) -> Result<(), NoMemory> {
    let node = node(alloc, sign)?;
    let inputs = inputs(alloc, plans, sign)?;
    plans.push(Plan {
        node,
        inputs,
        rows: rows as u128,
        part_rows: rows as u64,
    })
}

fn plan(alloc: Global, text: &str) -> Result<Plan, NoMemory> {
    let mut plans = List::new(alloc);
    let mut sign = b' ';
    for byte in text.as_bytes() {
        match *byte {
            b'0'..=b'9' => push_over(alloc, &mut plans, sign, byte.saturating_sub(b'0'))?,
            other => sign = other,
        }
    }
    Ok(input(alloc, &mut plans))
}

fn text_of(alloc: Global, signs: &str, schema: &Schema) -> Result<String, NoMemory> {
    let mut out = String::new(alloc);
    let plan = plan(alloc, signs)?;
    push_plan(alloc, &mut out, &plan, schema)?;
    Ok(out)
}

// The first text that is another one; empty where there is none.
fn first_wrong(alloc: Global, schema: &Schema) -> Result<String, NoMemory> {
    for (signs, wanted) in TEXTS {
        let text = text_of(alloc, *signs, schema)?;
        if text.as_str() != *wanted {
            return Ok(text);
        }
    }
    Ok(String::new(alloc))
}

#[test]
fn plans_print(rt: HostRuntime) -> Result<(), Fail> {
    let schema = schema(rt.alloc())?;
    let wrong = first_wrong(rt.alloc(), &schema)?;
    assert_eq!(rt; wrong.as_str(), "");
    Ok(())
}
