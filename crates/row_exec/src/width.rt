//! How many columns the rows of a plan have.
ghost use Rattle.std.specs.Prelude.{◌≡◌, ◌+◌, [], List as ListOf, IfOk, length};
ghost use Rattle.cal_schema.specs.declared.tile.TileInfo.{TileInfo};
ghost use Rattle.cal_rel.specs.Bag.{table_width};
ghost use Rattle.cal_rel.specs.Info.{info_of};
ghost use Rattle.plan_nodes.specs.PlanTrees as spec;
ghost use Rattle.row_exec.specs.Nodes.{HasWidth};

use cal_schema::Schema;
use cal_value::NoMemory;
use plan_nodes::{Plan, PlanNode};

fn table_columns(schema: &Schema, table: u32) -> usize
    ensures { result ≡ table_width schema.now table }
{
    match schema.tables.get(table as usize) {
        Some(table) => table.columns.len(),
        None => 0,
    }
}

fn sum(first: usize, second: usize) -> Result<usize, NoMemory>
    ensures { IfOk result (λ n. n ≡ first + second) }
{
    first.checked_add(second).ok_or(NoMemory)
}

// Of a node over inputs that have so many. No schema has lattices yet, so no tile has columns.
#[tactic(auto, using(crate::proofs::Widths::tile_columns))]
fn node_width(
    schema: &Schema,
    node: &PlanNode,
    left: usize,
    right: usize,
) -> Result<usize, NoMemory>
    ensures { IfOk result (λ n. (tiles : ListOf TileInfo)
        → n ≡ spec.node_width (info_of schema.now tiles []) node.now left right) }
{
    match node {
        PlanNode::MemScan { table } => Ok(table_columns(schema, *table)),
        PlanNode::CsvScan { table } => Ok(table_columns(schema, *table)),
        PlanNode::TileRead { .. } => Ok(0),
        PlanNode::MemFilter { .. } => Ok(left),
        PlanNode::MemProject { items } => Ok(items.len()),
        PlanNode::CsvProject { items } => Ok(items.len()),
        PlanNode::ToEnumerable => Ok(left),
        PlanNode::Filter { .. } => Ok(left),
        PlanNode::Project { items } => Ok(items.len()),
        PlanNode::NestedLoopJoin { .. } => sum(left, right),
        PlanNode::HashJoin { .. } => sum(left, right),
        PlanNode::MergeJoin { .. } => sum(left, right),
        PlanNode::HashAggregate { groups, calls } => sum(groups.len(), calls.len()),
        PlanNode::SortedAggregate { groups, calls } => sum(groups.len(), calls.len()),
        PlanNode::EmptyRows { types } => Ok(types.len()),
        PlanNode::Sort { .. } => Ok(left),
    }
}

/// How many columns the rows of the plan have, where each node has as many inputs as its row asks. Want of memory comes where
/// no memory could hold a row of so many.
pub(crate) fn width_of(plan: &Plan, schema: &Schema) -> Result<usize, NoMemory>
    ensures { IfOk result (HasWidth schema.now plan.now) }
{
    match plan.inputs.as_slice() {
        [] => node_width(schema, &plan.node, 0, 0),
        [a] => {
            let left = width_of(a, schema)?;
            node_width(schema, &plan.node, left, 0)
        }
        [a, b, ..] => {
            let left = width_of(a, schema)?;
            let right = width_of(b, schema)?;
            node_width(schema, &plan.node, left, right)
        }
    }
}
