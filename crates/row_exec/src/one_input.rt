//! What a node of one input makes of its rows.
ghost use Rattle.std.specs.Prelude.{[], IfOk};
ghost use Rattle.row_exec.specs.Nodes.{IsMade};
ghost use Rattle.row_exec.specs.Ready.{CanRunOne};

use crate::nodes::{filtered, projected};
use cal_value::{List, NoMemory, Row};
use exec_ops::{hash_group, sort_rows, sorted_group};
use plan_nodes::PlanNode;
use std::alloc::Global;

/// The rows that the node makes of those of its input.
pub(crate) fn one_input(
    alloc: Global,
    node: &PlanNode,
    rows: List<Row>,
) -> Result<List<Row>, NoMemory>
    requires { CanRunOne node.now rows }
    ensures { IfOk result (IsMade node.now 0 rows []) }
{
    match node {
        PlanNode::ToEnumerable => Ok(rows),
        PlanNode::Filter { predicate } => filtered(alloc, predicate, rows),
        PlanNode::Project { items } => projected(alloc, items, &rows),
        PlanNode::HashAggregate { groups, calls } => hash_group(alloc, &rows, groups, calls),
        PlanNode::SortedAggregate { groups, calls } => sorted_group(alloc, &rows, groups, calls),
        PlanNode::Sort { keys } => sort_rows(alloc, rows, keys),
        PlanNode::MemScan { .. }
        | PlanNode::CsvScan { .. }
        | PlanNode::TileRead { .. }
        | PlanNode::MemFilter { .. }
        | PlanNode::MemProject { .. }
        | PlanNode::CsvProject { .. }
        | PlanNode::NestedLoopJoin { .. }
        | PlanNode::HashJoin { .. }
        | PlanNode::MergeJoin { .. }
        | PlanNode::EmptyRows { .. } => unreachable!(),
    }
}
