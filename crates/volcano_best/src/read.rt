//! Plans, read from the steps of derivations.
ghost use Rattle.std.specs.Prelude.{◌≡◌, ◌<◌, ◌∷◌, [], length, map, slice_get, Some, IfOk, OnOk};
ghost use Rattle.cheapest_derivations.specs.Tables.{AreOrdered, IsBelow};
ghost use Rattle.plan_nodes.specs.Seen.{planned, plan_tree};
ghost use Rattle.volcano_best.specs.Solved.{IsPlanAdded};

use crate::graph::Root;
use cal_value::{Duplicate, NoMemory};
use cheapest_derivations::Step;
use plan_nodes::Plan;
use sqlite_items::Items;
use std::alloc::Global;

fn step_at(steps: &[Step], roots: &[Root], place: usize) -> Step
    requires ordered { AreOrdered steps.now (length roots.now) }
    requires within { place < length steps.now }
    ensures got { slice_get steps.now place ≡ Some result }
    ensures edge { result.edge < length roots.now }
    ensures first { IsBelow place result.first }
    ensures second { IsBelow place result.second }
{
    let _ = roots;
    steps[place]
}

fn root_at(roots: &[Root], at: usize) -> &Root
    requires { at < length roots.now }
    ensures { slice_get roots.now at ≡ Some result.now }
{
    &roots[at]
}

/// The root over its inputs.
#[tactic(auto, using(crate::proofs::PlanSteps::over_steps))]
fn over_inputs(alloc: Global, root: &Root, inputs: Items<Plan>) -> Result<Plan, NoMemory>
    ensures { IfOk result (λ plan. plan_tree plan
        ≡ planned root.now.node root.now.rows root.now.part_rows (map plan_tree inputs)) }
{
    let node = root.node.copy(alloc)?;
    Ok(Plan {
        node,
        inputs,
        rows: root.rows,
        part_rows: root.part_rows,
    })
}

/// Adds the plan whose last step stands at the place, where there is one.
fn add_plan(
    alloc: Global,
    steps: &[Step],
    roots: &[Root],
    place: Option<usize>,
    plans: &mut Items<Plan>,
) -> Result<(), NoMemory>
    requires ordered { AreOrdered steps.now (length roots.now) }
    requires within { IsBelow (length steps.now) place }
    ensures { OnOk result (IsPlanAdded steps.now roots.now place plans.old plans.new) }
{
    let Some(place) = place else {
        return Ok(());
    };
    let step = step_at(steps, roots, place);
    let mut inputs = Items::new(alloc);
    add_plan(alloc, steps, roots, step.first, &mut inputs)?;
    add_plan(alloc, steps, roots, step.second, &mut inputs)?;
    let plan = over_inputs(alloc, root_at(roots, step.edge), inputs)?;
    plans.push(plan)?;
    Ok(())
}

/// The plan whose last step stands at the place.
#[tactic(auto, using(crate::proofs::PlanSteps::added_steps))]
pub fn plan_at(
    alloc: Global,
    steps: &[Step],
    roots: &[Root],
    place: usize,
) -> Result<Plan, NoMemory>
    requires ordered { AreOrdered steps.now (length roots.now) }
    requires within { place < length steps.now }
    ensures { IfOk result (λ plan. IsPlanAdded steps.now roots.now (Some place) [] (plan ∷ [])) }
{
    let mut plans = Items::new(alloc);
    add_plan(alloc, steps, roots, Some(place), &mut plans)?;
    Ok(plans.pop().unwrap())
}
