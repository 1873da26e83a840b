ghost use Rattle.std.specs.Prelude.{◌≡◌, ◌+◌, ◌-◌, ◌^◌, min, Some};
ghost use Rattle.plan_nodes.specs.PlanTrees.{PlanTree, tree_reads};
ghost use Rattle.plan_nodes.specs.Seen.{IsCost, plan_tree, reads};
ghost use Rattle.plan_nodes.specs.Weights.{cut};

use crate::nodes::PlanNode;
use crate::weights::{COST_LIMIT, weight};
use sqlite_items::Items;

/// A plan: a node over its inputs, with the estimate of its set, and how many rows the part has that it reads, 0 where it
/// reads none.
#[derive(Debug, Drop)]
pub struct Plan {
    pub node: PlanNode,
    pub inputs: Items<Plan>,
    pub rows: u128,
    pub part_rows: u64,
}

fn more(total: u128, cost: u128) -> u128
    ensures { result ≡ cut (total + cost) }
{
    total.saturating_add(cost).min(COST_LIMIT)
}

/// What the plan costs, where each node has as many inputs as its row asks: the sum of the weights of its nodes, cut at
/// `COST_LIMIT`. Takes no memory.
pub fn cost(plan: &Plan) -> u128
    ensures { IsCost plan.now result }
{
    let (node, rows, part) = (&plan.node, plan.rows, plan.part_rows);
    match plan.inputs.as_slice() {
        [] => weight(node, rows, 0, 0, part),
        [a] => more(weight(node, rows, a.rows, 0, part), cost(a)),
        [a, b, ..] => {
            let first = more(weight(node, rows, a.rows, b.rows, part), cost(a));
            more(first, cost(b))
        }
    }
}

/// How many rows the plan reads: those of the part of each node that reads one. A sum past 2^128 - 1 stands still there.
/// Takes no memory.
pub fn plan_reads(plan: &Plan) -> u128
    ensures sum { result ≡ min (reads plan.now) (2 ^ 128 - 1) }
    ensures tree { (tree : PlanTree) → plan_tree plan.now ≡ Some tree → reads plan.now ≡ tree_reads tree }
{
    let inputs = plan.inputs.as_slice();
    let mut total = u128::from(plan.part_rows);
    for input in inputs {
        total = total.saturating_add(plan_reads(input));
    }
    total
}
