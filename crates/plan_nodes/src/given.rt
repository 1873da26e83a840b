//! The traits that a plan gives.
ghost use Rattle.std.specs.Prelude.{◌≡◌, ◌+◌, [], IfOk};
ghost use Rattle.cal_rel.specs.Bag as bag;
ghost use Rattle.plan_nodes.specs.PlanTrees as spec;
ghost use Rattle.plan_nodes.specs.Seen.{AreTraits, IsGiven, IsOver};

use crate::nodes::PlanNode;
use crate::orders::gives;
use crate::plan::Plan;
use crate::traits::{Traits, convention_of};
use cal_rel::PlanInfo;
use cal_value::{Collation, List, NoMemory};
use std::alloc::Global;

/// How many columns rows have, and how they are sorted.
#[derive(Drop)]
struct Shape {
    width: usize,
    order: Collation,
}

fn sum(left: usize, right: usize) -> Result<usize, NoMemory>
    ensures { IfOk result (λ sum. sum ≡ left + right) }
{
    let Some(sum) = left.checked_add(right) else {
        return Err(NoMemory);
    };
    Ok(sum)
}

fn table_width(info: &PlanInfo, table: u32) -> usize
    ensures { result ≡ bag.table_width info.now.schema table }
{
    match info.table(table) {
        Some(table) => table.columns.len(),
        None => 0,
    }
}

// A schema has no lattices yet, so no tile has columns.
#[tactic(auto, using(crate::proofs::PlanLemmas::width_steps))]
fn instance_width(info: &PlanInfo, tile: u32) -> usize
    ensures { result ≡ spec.instance_width info.now tile }
{
    let _ = &info.schema;
    0
}

fn node_width(
    info: &PlanInfo,
    node: &PlanNode,
    left: usize,
    right: usize,
) -> Result<usize, NoMemory>
    ensures { IfOk result (λ width. width ≡ spec.node_width info.now node.now left right) }
{
    match node {
        PlanNode::MemScan { table } => Ok(table_width(info, *table)),
        PlanNode::CsvScan { table } => Ok(table_width(info, *table)),
        PlanNode::TileRead { tile } => Ok(instance_width(info, *tile)),
        PlanNode::MemFilter { .. } => Ok(left),
        PlanNode::MemProject { items } => Ok(items.len()),
        PlanNode::CsvProject { items } => Ok(items.len()),
        PlanNode::ToEnumerable => Ok(left),
        PlanNode::Filter { .. } => Ok(left),
        PlanNode::Project { items } => Ok(items.len()),
        PlanNode::NestedLoopJoin { .. } => sum(left, right),
        PlanNode::HashJoin { .. } => sum(left, right),
        PlanNode::MergeJoin { .. } => sum(left, right),
        PlanNode::HashAggregate { groups, calls } => sum(groups.len(), calls.len()),
        PlanNode::SortedAggregate { groups, calls } => sum(groups.len(), calls.len()),
        PlanNode::EmptyRows { types } => Ok(types.len()),
        PlanNode::Sort { .. } => Ok(left),
    }
}

fn nothing(alloc: Global) -> Shape
    ensures width { result.width ≡ 0 }
    ensures order { result.order ≡ [] }
{
    Shape {
        width: 0,
        order: List::new(alloc),
    }
}

// What a node gives over its inputs.
fn over(
    alloc: Global,
    info: &PlanInfo,
    node: &PlanNode,
    left: &Shape,
    right: usize,
) -> Result<Shape, NoMemory>
    ensures { IfOk result (λ given. IsOver info.now node.now left.now.width left.now.order right
        given.width given.order) }
{
    let width = node_width(info, node, left.width, right)?;
    let order = gives(alloc, info, left.width, node, &left.order)?;
    Ok(Shape { width, order })
}

fn shape_of(alloc: Global, plan: &Plan, info: &PlanInfo) -> Result<Shape, NoMemory>
    ensures { IfOk result (λ given. IsGiven info.now plan.now given.width given.order) }
{
    match plan.inputs.as_slice() {
        [] => over(alloc, info, &plan.node, &nothing(alloc), 0),
        [a] => {
            let left = shape_of(alloc, a, info)?;
            over(alloc, info, &plan.node, &left, 0)
        }
        [a, b, ..] => {
            let left = shape_of(alloc, a, info)?;
            let right = shape_of(alloc, b, info)?;
            over(alloc, info, &plan.node, &left, right.width)
        }
    }
}

/// The traits that the plan gives, where each node has as many inputs as its row asks: the form in which its root hands on
/// rows, and how these are sorted. A table, a tile or a column that isn't there has no columns and no order.
pub fn delivers(alloc: Global, plan: &Plan, info: &PlanInfo) -> Result<Traits, NoMemory>
    ensures { IfOk result (AreTraits info.now plan.now) }
{
    let shape = shape_of(alloc, plan, info)?;
    Ok(Traits {
        convention: convention_of(&plan.node),
        collation: shape.order,
    })
}
