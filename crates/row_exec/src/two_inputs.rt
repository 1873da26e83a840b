//! What a node of two inputs makes of their rows.
ghost use Rattle.std.specs.Prelude.{IfOk};
ghost use Rattle.row_exec.specs.Nodes.{IsMade};
ghost use Rattle.row_exec.specs.Ready.{CanRunTwo};

use crate::joins::{hashed, merged, nested};
use cal_value::{List, NoMemory, Row};
use plan_nodes::PlanNode;
use std::alloc::Global;

/// The rows that the node makes of those of its inputs, which have so many columns.
pub(crate) fn two_inputs(
    alloc: Global,
    node: &PlanNode,
    left: &List<Row>,
    right: &List<Row>,
    widths: (usize, u32),
) -> Result<List<Row>, NoMemory>
    requires { CanRunTwo node.now widths.0 left.now right.now }
    ensures { IfOk result (IsMade node.now widths.1 left.now right.now) }
{
    match node {
        PlanNode::NestedLoopJoin { kind, on } => nested(alloc, *kind, on, left, right, widths),
        PlanNode::HashJoin { kind, on } => hashed(alloc, *kind, on, left, right, widths),
        PlanNode::MergeJoin { on } => merged(alloc, on, left, right, widths),
        PlanNode::MemScan { .. }
        | PlanNode::CsvScan { .. }
        | PlanNode::TileRead { .. }
        | PlanNode::MemFilter { .. }
        | PlanNode::MemProject { .. }
        | PlanNode::CsvProject { .. }
        | PlanNode::ToEnumerable
        | PlanNode::Filter { .. }
        | PlanNode::Project { .. }
        | PlanNode::HashAggregate { .. }
        | PlanNode::SortedAggregate { .. }
        | PlanNode::EmptyRows { .. }
        | PlanNode::Sort { .. } => unreachable!(),
    }
}
