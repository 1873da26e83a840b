//! The printed text of plans.
ghost use Rattle.std.specs.Prelude.{◌≡◌, ◌++◌, IfOk, OnOk, Some, codes, decimal, string_bytes};
ghost use Rattle.plan_nodes.specs.PlanTrees.{PlanTree};
ghost use Rattle.plan_nodes.specs.Seen.{plan_tree};
ghost use Rattle.explain_text.specs.Details.{named, tile_text};
ghost use Rattle.explain_text.specs.Plans as spec;

use crate::details::{push_aggregate, push_filter, push_join, push_project, push_scan, push_sort};
use cal_schema::{JoinKind, Schema};
use cal_value::NoMemory;
use plan_nodes::{Plan, PlanNode, cost};
use script_text::{push_counted, push_text};
use std::alloc::Global;

fn push_tile_read(out: &mut String, tile: u32) -> Result<(), NoMemory>
    ensures { OnOk result (string_bytes out.new ≡ string_bytes out.old ++ named (codes "TileRead") (tile_text tile)) }
{
    push_counted(out, "TileRead(tile ", tile as u128)?;
    push_text(out, ")")
}

fn push_node(out: &mut String, node: &PlanNode, schema: &Schema) -> Result<(), NoMemory>
    ensures { OnOk result (string_bytes out.new ≡ string_bytes out.old ++ spec.node_text schema.now node.now) }
{
    match node {
        PlanNode::MemScan { table } => push_scan(out, "MemScan", schema, *table),
        PlanNode::CsvScan { table } => push_scan(out, "CsvScan", schema, *table),
        PlanNode::TileRead { tile } => push_tile_read(out, *tile),
        PlanNode::MemFilter { predicate } => push_filter(out, "MemFilter", predicate),
        PlanNode::MemProject { items } => push_project(out, "MemProject", items),
        PlanNode::CsvProject { items } => push_project(out, "CsvProject", items),
        PlanNode::ToEnumerable => push_text(out, "ToEnumerable"),
        PlanNode::Filter { predicate } => push_filter(out, "Filter", predicate),
        PlanNode::Project { items } => push_project(out, "Project", items),
        PlanNode::NestedLoopJoin { kind, on } => push_join(out, "NestedLoopJoin", *kind, on),
        PlanNode::HashJoin { kind, on } => push_join(out, "HashJoin", *kind, on),
        PlanNode::MergeJoin { on } => push_join(out, "MergeJoin", JoinKind::Inner, on),
        PlanNode::HashAggregate { groups, calls } => {
            push_aggregate(out, "HashAggregate", groups, calls)
        }
        PlanNode::SortedAggregate { groups, calls } => {
            push_aggregate(out, "SortedAggregate", groups, calls)
        }
        PlanNode::EmptyRows { .. } => push_text(out, "EmptyRows"),
        PlanNode::Sort { keys } => push_sort(out, "Sort", keys),
    }
}

// The estimate of the node's set and the cost of its subtree.
fn push_numbers(out: &mut String, rows: u128, cost: u128) -> Result<(), NoMemory>
    ensures { OnOk result (string_bytes out.new ≡ string_bytes out.old
        ++ (codes " rows=" ++ decimal rows ++ codes " cost=" ++ decimal cost ++ codes "\n")) }
{
    push_counted(out, " rows=", rows)?;
    push_counted(out, " cost=", cost)?;
    push_text(out, "\n")
}

// The line of a plan's root.
fn push_root(out: &mut String, margin: &str, plan: &Plan, schema: &Schema) -> Result<(), NoMemory>
    ensures { (tree : PlanTree) → plan_tree plan.now ≡ Some tree → OnOk result (string_bytes out.new ≡ string_bytes out.old
        ++ spec.root_line schema.now margin.now tree) }
{
    out.push_str(margin)?;
    push_node(out, &plan.node, schema)?;
    push_numbers(out, plan.rows, cost(plan))
}

fn deeper(alloc: Global, margin: &str) -> Result<String, NoMemory>
    ensures { IfOk result (λ deeper. string_bytes deeper ≡ margin.now ++ codes "  ") }
{
    let mut deeper = String::new(alloc);
    deeper.push_str(margin)?;
    deeper.push_str("  ")?;
    Ok(deeper)
}

fn push_lines(
    alloc: Global,
    out: &mut String,
    margin: &str,
    plan: &Plan,
    schema: &Schema,
) -> Result<(), NoMemory>
    ensures { (tree : PlanTree) → plan_tree plan.now ≡ Some tree → OnOk result (string_bytes out.new ≡ string_bytes out.old
        ++ spec.plan_lines schema.now margin.now tree) }
{
    push_root(out, margin, plan, schema)?;
    let deeper = deeper(alloc, margin)?;
    let inner = deeper.as_str();
    match plan.inputs.as_slice() {
        [] => Ok(()),
        [a] => push_lines(alloc, out, inner, a, schema),
        [a, b, ..] => {
            push_lines(alloc, out, inner, a, schema)?;
            push_lines(alloc, out, inner, b, schema)
        }
    }
}

/// Adds the text of a plan, where each node has as many inputs as its row asks: a line for each node, its inputs below it and
/// two spaces deeper. A line has the node's name, its details in brackets, the estimate of its set and the cost of its subtree.
pub fn push_plan(
    alloc: Global,
    out: &mut String,
    plan: &Plan,
    schema: &Schema,
) -> Result<(), NoMemory>
    ensures { (tree : PlanTree) → plan_tree plan.now ≡ Some tree → OnOk result (string_bytes out.new ≡ string_bytes out.old
        ++ spec.plan_text schema.now tree) }
{
    push_lines(alloc, out, "", plan, schema)
}
