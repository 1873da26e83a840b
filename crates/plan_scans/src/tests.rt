ghost use Rattle.std.specs.Prelude.{◌≡◌, IsTrue};
ghost use Rattle.plan_scans.specs.Chains.{CanRequest};

use crate::chain::{Chain, chain_of};
use crate::request::request_of;
use adapters::{Adapter, MemAdapter};
use cal_expr::{Expr, Op};
use cal_snapshot::{Part, Snapshot};
use cal_value::{List, NoMemory, Row, Steps, Value};
use phys_plan::{are_different, is_tests};
use plan_nodes::{Plan, PlanNode};
use sqlite_items::Items;
use std::alloc::Global;
use std::marker::Brand;
use std::sync::Arc;
use std::sync::ledger::{Blank, Ledger};
use std::test::Fail;

// ---- two tables

// NULL stands for a negative number.
fn rows(alloc: Global, rows: &[&[i128]]) -> Result<List<Row>, NoMemory> {
    let mut all = List::new(alloc);
    for numbers in rows {
        all.push(row(alloc, numbers)?)?;
    }
    Ok(all)
}

fn row(alloc: Global, numbers: &[i128]) -> Result<Row, NoMemory> {
    let mut row = List::new(alloc);
    for number in numbers {
        row.push(value(*number))?;
    }
    Ok(row)
}

fn value(number: i128) -> Value {
    if number < 0 {
        Value::Null
    } else {
        Value::Int(number)
    }
}

const FIRST: &[&[i128]] = &[&[1, 2, 3], &[4, -1, 6], &[7, 8, 9], &[2, 5, 1]];

const SECOND: &[&[i128]] = &[&[5, 6, 7]];

fn snapshot(alloc: Global) -> Result<Snapshot, NoMemory> {
    let first = rows(alloc, FIRST)?;
    let second = rows(alloc, SECOND)?;
    let mut tables = List::new(alloc);
    tables.push(Arc::new(alloc, first)?)?;
    tables.push(Arc::new(alloc, second)?)?;
    Snapshot::start(alloc, tables)
}

// ---- plans as words, from the input up

fn test(alloc: Global, column: u32, op: Op, number: i128) -> Result<Expr, NoMemory> {
    Expr::binary(
        alloc,
        op,
        Expr::Column(column),
        Expr::Literal(value(number)),
    )
}

// $1 >= 2 AND $0 < 7
fn two_tests(alloc: Global) -> Result<Expr, NoMemory> {
    let first = test(alloc, 1, Op::GreaterEqual, 2)?;
    let second = test(alloc, 0, Op::Less, 7)?;
    Expr::binary(alloc, Op::And, first, second)
}

fn columns(alloc: Global, columns: [u32; 2]) -> Result<List<Expr>, NoMemory> {
    let mut items = List::new(alloc);
    for column in columns {
        items.push(Expr::Column(column))?;
    }
    Ok(items)
}

fn node(alloc: Global, word: &str) -> Result<PlanNode, NoMemory> {
    match word {
        "MemScan" => Ok(PlanNode::MemScan { table: 0 }),
        "CsvScan" => Ok(PlanNode::CsvScan { table: 1 }),
        "TileRead" => Ok(PlanNode::TileRead { tile: 0 }),
        "MemFilter" => Ok(PlanNode::MemFilter {
            predicate: two_tests(alloc)?,
        }),
        "MemProject" => Ok(PlanNode::MemProject {
            items: columns(alloc, [2, 0])?,
        }),
        "CsvProject" => Ok(PlanNode::CsvProject {
            items: columns(alloc, [1, 2])?,
        }),
        _ => Ok(PlanNode::ToEnumerable),
    }
}

fn over(alloc: Global, below: Option<Plan>, word: &str) -> Result<Plan, NoMemory> {
    let mut inputs = Items::new(alloc);
    if let Some(below) = below {
        inputs.push(below)?;
    }
    Ok(Plan {
        node: node(alloc, word)?,
        inputs,
        rows: 4,
        part_rows: 0,
    })
}

fn plan_of(alloc: Global, words: &[&str]) -> Result<Option<Plan>, NoMemory> {
    let mut plan = None;
    for word in words {
        plan = Some(over(alloc, plan.take(), word)?);
    }
    Ok(plan)
}

// ---- what the parts of a scan answer

fn can_request(chain: &Chain<'_>) -> bool
    ensures { IsTrue result → CanRequest chain.now }
{
    let tests = match chain.predicate {
        Some(predicate) => is_tests(predicate),
        None => true,
    };
    let items = match chain.items {
        Some(items) => are_different(items.as_slice()),
        None => true,
    };
    tests && items
}

fn scanned<L: Ledger>(
    alloc: Global,
    blank: Blank,
    plan: &Plan,
    snapshot: &Snapshot,
) -> Result<Option<List<Row>>, NoMemory>
    requires name { blank.name ≡ L.name }
    requires parts { blank.parts ≡ L.parts }
    requires whole { L.parts ≡ 1 }
{
    let mut steps: Steps<L> = Steps::new(blank);
    let Some(chain) = chain_of(plan) else {
        return Ok(None);
    };
    if !can_request(&chain) {
        return Ok(None);
    }
    let request = request_of(alloc, &chain, 3)?;
    match snapshot.rows_len(Part::Table(chain.table)) {
        None => Ok(None),
        Some(_) => {
            let rows = MemAdapter.scan(alloc, snapshot, chain.table, &request, &mut steps)?;
            Ok(Some(rows))
        }
    }
}

fn rows_of(
    alloc: Global,
    words: &[&str],
    snapshot: &Snapshot,
) -> Result<Option<List<Row>>, NoMemory> {
    match plan_of(alloc, words)? {
        Some(plan) => scanned::<Brand>(alloc, Blank::new(1), &plan, snapshot),
        None => Ok(None),
    }
}

fn are_wanted(
    alloc: Global,
    made: &Option<List<Row>>,
    wanted: Option<&[&[i128]]>,
) -> Result<bool, NoMemory> {
    match (made, wanted) {
        (Some(made), Some(wanted)) => Ok(*made == rows(alloc, wanted)?),
        (None, None) => Ok(true),
        _ => Ok(false),
    }
}

// A plan, and its rows where it is one scan of a table.
const SCANS: &[(&[&str], Option<&[&[i128]]>)] = &[
    (&["MemScan"], Some(FIRST)),
    (&["MemScan", "MemFilter"], Some(&[&[1, 2, 3], &[2, 5, 1]])),
    (
        &["MemScan", "MemProject"],
        Some(&[&[3, 1], &[6, 4], &[9, 7], &[1, 2]]),
    ),
    (
        &["MemScan", "MemFilter", "MemProject"],
        Some(&[&[3, 1], &[1, 2]]),
    ),
    (&["CsvScan"], Some(SECOND)),
    (&["CsvScan", "CsvProject"], Some(&[&[6, 7]])),
    (&["TileRead"], None),
    (&["MemScan", "ToEnumerable"], None),
];

#[test]
fn rows_of_scans(rt: HostRuntime) -> Result<(), Fail> {
    let alloc = rt.alloc();
    let snapshot = snapshot(alloc)?;
    for (words, wanted) in SCANS {
        let made = rows_of(alloc, words, &snapshot)?;
        assert!(rt; are_wanted(alloc, &made, *wanted)?, "{words:?}");
    }
    Ok(())
}
