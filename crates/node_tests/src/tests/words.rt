//! Nodes by their names, and plans as words: the inputs of a node, then the node.
use cal_expr::{Expr, Op};
use cal_schema::JoinKind;
use cal_value::{Collation, KeyOrder, List, NoMemory};
use plan_nodes::{Plan, PlanNode};
use sqlite_items::Items;
use std::alloc::Global;

/// A key of an order: the column, whether it descends, and whether NULL stands first.
pub(crate) type Key = (u32, bool, bool);

fn list_of<T: Drop, const N: usize>(alloc: Global, items: [T; N]) -> Result<List<T>, NoMemory> {
    Ok(List::from_vec(Vec::from_array(alloc, items)?))
}

pub(crate) fn order_of(alloc: Global, keys: &[Key]) -> Result<Collation, NoMemory> {
    let mut order = List::new(alloc);
    for (column, descending, nulls_first) in keys {
        order.push(KeyOrder {
            column: *column,
            descending: *descending,
            nulls_first: *nulls_first,
        })?;
    }
    Ok(order)
}

// ---- nodes

fn equation(alloc: Global, left: u32, right: u32) -> Result<Expr, NoMemory> {
    Expr::binary(alloc, Op::Equal, Expr::Column(left), Expr::Column(right))
}

// $1 = $3 AND $4 = $2: of left rows of three columns the second one and the third one, with the first two of the right rows.
fn two_equations(alloc: Global) -> Result<Expr, NoMemory> {
    let first = equation(alloc, 1, 3)?;
    let second = equation(alloc, 4, 2)?;
    Expr::binary(alloc, Op::And, first, second)
}

// $1, $2, $1
fn three_items(alloc: Global) -> Result<List<Expr>, NoMemory> {
    list_of(alloc, [Expr::Column(1), Expr::Column(2), Expr::Column(1)])
}

fn project(alloc: Global, name: &str) -> Result<PlanNode, NoMemory> {
    let items = three_items(alloc)?;
    match name {
        "MemProject" => Ok(PlanNode::MemProject { items }),
        "CsvProject" => Ok(PlanNode::CsvProject { items }),
        _ => Ok(PlanNode::Project { items }),
    }
}

fn join(alloc: Global, name: &str) -> Result<PlanNode, NoMemory> {
    let on = two_equations(alloc)?;
    let kind = JoinKind::Inner;
    match name {
        "NestedLoopJoin" => Ok(PlanNode::NestedLoopJoin { kind, on }),
        "HashJoin" => Ok(PlanNode::HashJoin { kind, on }),
        _ => Ok(PlanNode::MergeJoin { on }),
    }
}

// Groups of the third column and the first one.
fn aggregate(alloc: Global, name: &str) -> Result<PlanNode, NoMemory> {
    let groups = list_of(alloc, [2, 0])?;
    let calls = List::new(alloc);
    match name {
        "HashAggregate" => Ok(PlanNode::HashAggregate { groups, calls }),
        _ => Ok(PlanNode::SortedAggregate { groups, calls }),
    }
}

// By $1 descending, $2 with NULL first, $0.
fn sort(alloc: Global) -> Result<PlanNode, NoMemory> {
    let keys = order_of(
        alloc,
        &[(1, true, false), (2, false, true), (0, false, false)],
    )?;
    Ok(PlanNode::Sort { keys })
}

/// The node of this name, over three columns.
pub(crate) fn node(alloc: Global, name: &str) -> Result<PlanNode, NoMemory> {
    let predicate = Expr::Column(0);
    match name {
        "MemScan" => Ok(PlanNode::MemScan { table: 0 }),
        "CsvScan" => Ok(PlanNode::CsvScan { table: 1 }),
        "TileRead" => Ok(PlanNode::TileRead { tile: 5 }),
        "MemFilter" => Ok(PlanNode::MemFilter { predicate }),
        "MemProject" | "CsvProject" | "Project" => project(alloc, name),
        "ToEnumerable" => Ok(PlanNode::ToEnumerable),
        "Filter" => Ok(PlanNode::Filter { predicate }),
        "NestedLoopJoin" | "HashJoin" | "MergeJoin" => join(alloc, name),
        "HashAggregate" | "SortedAggregate" => aggregate(alloc, name),
        "Sort" => sort(alloc),
        _ => Ok(PlanNode::EmptyRows {
            types: List::new(alloc),
        }),
    }
}

// ---- plans

fn inputs_of(name: &str) -> usize {
    match name {
        "MemScan" | "CsvScan" | "TileRead" | "EmptyRows" => 0,
        "NestedLoopJoin" | "HashJoin" | "MergeJoin" => 2,
        _ => 1,
    }
}

// The last plans, so many of them.
fn last(plans: &mut Vec<Plan>, count: usize) -> Result<Items<Plan>, NoMemory> {
    let at = plans.len().saturating_sub(count);
    Ok(Items::from_vec(plans.split_off(at)?))
}

// A number, and what stands before it.
fn divided(word: &str) -> (&str, u64) {
    match word.rsplit_once(':') {
        Some((name, digits)) => (name, digits.parse::<u64>().unwrap_or(0)),
        None => (word, 0),
    }
}

// Puts a plan in the place of its inputs, which are the last ones.
fn push_word(alloc: Global, plans: &mut Vec<Plan>, word: &str) -> Result<(), NoMemory> {
    let (front, part_rows) = divided(word);
    let (name, rows) = divided(front);
    let node = node(alloc, name)?;
    let inputs = last(plans, inputs_of(name))?;
    let rows = u128::from(rows);
    plans.push(Plan {
        node,
        inputs,
        rows,
        part_rows,
    })?;
    Ok(())
}

/// The plans of these words: a node's name, the estimate of its set, and the rows of its part, as in `MemScan:4:4 ToEnumerable:4:0`.
pub(crate) fn plans_of(alloc: Global, text: &str) -> Result<Vec<Plan>, NoMemory> {
    let mut plans = Vec::new(alloc);
    for word in text.split(' ') {
        push_word(alloc, &mut plans, word)?;
    }
    Ok(plans)
}
