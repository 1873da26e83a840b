//! Plans, run.
ghost use Rattle.std.specs.Prelude.{◌≡◌, ◌+◌, ◌≤◌, IfOk, OnOk};
ghost use Rattle.plan_nodes.specs.Seen.{reads};
ghost use Rattle.phys_plan.specs.declared.ways.Want.TheVariants.{Rows};
ghost use Rattle.phys_plan.specs.Ways.{fits};
ghost use Rattle.plan_scans.specs.Scans.{HoldsTiles};
ghost use Rattle.row_exec.specs.Nodes.{HasWidth};
ghost use Rattle.row_exec.specs.Run.{CanRun, IsRun};

use crate::lent::pass_rows;
use crate::one_input::one_input;
use crate::pass::pass_of;
use crate::two_inputs::two_inputs;
use crate::width::width_of;
use cal_schema::Schema;
use cal_snapshot::Snapshot;
use cal_value::{List, NoMemory, Row, Steps};
use plan_nodes::{Convention, Plan, PlanNode, convention_of};
use plan_scans::scan_rows;
use std::alloc::Global;
use std::sync::ledger::Ledger;

// Whether the node makes rows of its own, and hands on none of a table or a tile.
fn is_enumerable(node: &PlanNode) -> bool
    ensures { result ≡ fits Rows node.now }
{
    match convention_of(node) {
        Convention::Enumerable => true,
        Convention::Mem | Convention::Csv | Convention::Tile => false,
    }
}

// How many columns the rows of both sides have.
fn widths_of(left: &Plan, right: &Plan, schema: &Schema) -> Result<(usize, u32), NoMemory>
    ensures left { IfOk result (λ n. HasWidth schema.now left.now n.0) }
    ensures right { IfOk result (λ n. HasWidth schema.now right.now n.1) }
{
    let first = width_of(left, schema)?;
    let second = width_of(right, schema)?;
    let Ok(second) = u32::try_from(second) else {
        return Err(NoMemory);
    };
    Ok((first, second))
}

/// The rows that a plan means over the tables and tiles of the snapshot, each as often as it means it, in the order that it
/// gives. It makes one step for each row of each part that the plan reads; where there is no memory, at most so many. A right
/// row of a join that has 2^32 columns or more counts as want of memory.
pub fn execute<L: Ledger>(
    alloc: Global,
    plan: &Plan,
    schema: &Schema,
    snapshot: &Snapshot,
    steps: &mut Steps<L>,
) -> Result<List<Row>, NoMemory>
    requires tiles { HoldsTiles schema.now snapshot.now }
    requires plan { CanRun schema.now snapshot.now plan.now }
    ensures rows { IfOk result (IsRun schema.now snapshot.now plan.now) }
    ensures all { OnOk result (steps.new ≡ steps.old + reads plan.now) }
    ensures some { steps.old ≤ steps.new }
    ensures most { steps.new ≤ steps.old + reads plan.now }
{
    if !is_enumerable(&plan.node) {
        return scan_rows(alloc, plan, schema, snapshot, steps);
    }
    if let Some(pass) = pass_of(plan) {
        return pass_rows(alloc, &pass, snapshot, steps);
    }
    match plan.inputs.as_slice() {
        [] => Ok(List::new(alloc)),
        [a] => {
            let rows = execute(alloc, a, schema, snapshot, steps)?;
            one_input(alloc, &plan.node, rows)
        }
        [a, b, ..] => {
            let widths = widths_of(a, b, schema)?;
            let left = execute(alloc, a, schema, snapshot, steps)?;
            let right = execute(alloc, b, schema, snapshot, steps)?;
            two_inputs(alloc, &plan.node, &left, &right, widths)
        }
    }
}
