ghost use Rattle.std.specs.Prelude.{◌≡◌};
ghost use Rattle.plan_nodes.specs.Weights.{cut, bits, weight};

use crate::nodes::PlanNode;

/// No cost is greater: 2^100.
pub const COST_LIMIT: u128 = 1 << 100;

/// The number of binary digits, 0 of 0.
#[tactic(auto, using(crate::proofs::Digits::digit_steps))]
fn bits(n: u128) -> u128
    ensures { result ≡ bits n }
{
    let mut left = n;
    let mut count = 0;
    for _ in 0..128u32 {
        if left > 0 {
            left /= 2;
            count += 1;
        }
    }
    count
}

/// What the node weighs, cut at `COST_LIMIT`: over the estimate e of its set, l and r of its inputs' sets, and the rows p
/// of the part that it reads. Takes no memory.
pub fn weight(node: &PlanNode, e: u128, l: u128, r: u128, p: u64) -> u128
    ensures { result ≡ cut (weight node.now e l r p) }
{
    let full = match node {
        PlanNode::MemScan { .. } => u128::from(p).saturating_add(2),
        PlanNode::CsvScan { .. } => u128::from(p).saturating_mul(2).saturating_add(3),
        PlanNode::TileRead { .. } => u128::from(p).saturating_add(1),
        PlanNode::MemFilter { .. } => 1,
        PlanNode::MemProject { .. } => 1,
        PlanNode::CsvProject { .. } => 1,
        PlanNode::ToEnumerable => e.saturating_add(1),
        PlanNode::Filter { .. } => l.saturating_add(1),
        PlanNode::Project { .. } => l.saturating_add(1),
        PlanNode::NestedLoopJoin { .. } => l
            .saturating_mul(r)
            .saturating_add(l)
            .saturating_add(r)
            .saturating_add(1),
        PlanNode::HashJoin { .. } => l
            .saturating_add(r)
            .saturating_mul(2)
            .saturating_add(e)
            .saturating_add(1),
        PlanNode::MergeJoin { .. } => l.saturating_add(r).saturating_add(e).saturating_add(1),
        PlanNode::HashAggregate { .. } => l.saturating_mul(2).saturating_add(e).saturating_add(2),
        PlanNode::SortedAggregate { .. } => l.saturating_add(e).saturating_add(1),
        PlanNode::EmptyRows { .. } => 1,
        PlanNode::Sort { .. } => e.saturating_mul(bits(e)).saturating_add(1),
    };
    full.min(COST_LIMIT)
}
