ghost use Rattle.std.specs.Prelude.{◌≡◌, IfOk};
ghost use Rattle.std.specs.Option.{option_map};
ghost use Rattle.agg_images.specs.AggregateProjectMerge as spec;
ghost use Rattle.agg_images.specs.Meanings.{aggregate_project_merge};
ghost use Rattle.cal_rel.specs.Tree.{tree_of, project_to, aggregate_by, unary};
ghost use Rattle.rel_meta.specs.Keys.{each_of};

use cal_expr::Expr;
use cal_rel::{AggCall, PlanInfo, Rel};
use cal_value::{List, NoMemory};
use rel_meta::column_in;
use rule_hep::{Reach, Rule, kept};
use std::alloc::Global;

/// An aggregate over a project, of which it uses plain columns alone, becomes one over the project's input.
#[derive(Debug, Drop)]
pub struct AggregateProjectMerge;

impl AggregateProjectMerge {
    /// The rule. Takes no memory.
    pub fn new() -> AggregateProjectMerge
        ensures { ⟦<AggregateProjectMerge as Rule>⟧.meaning result ≡ aggregate_project_merge }
    {
        AggregateProjectMerge
    }
}

impl Rule for AggregateProjectMerge {
    ghost meaning = { λ rule. aggregate_project_merge };

    fn name(&self) -> &str {
        "AggregateProjectMerge"
    }

    fn in_hep(&self) -> bool {
        true
    }

    fn reach(&self) -> Reach {
        Reach::FirstChild
    }

    fn width(&self, _info: &PlanInfo) -> u32 {
        1
    }

    fn apply(
        &self,
        alloc: Global,
        info: &PlanInfo,
        rel: &Rel,
        nth: u32,
    ) -> Result<Option<Rel>, NoMemory> {
        if nth != 0 {
            return Ok(None);
        }
        match merged_below(alloc, rel)? {
            Some(out) => kept(alloc, info, rel, out),
            None => Ok(None),
        }
    }
}

#[tactic(auto, using(cal_rel::proofs::TreeSteps::tree_steps))]
fn merged_below(alloc: Global, rel: &Rel) -> Result<Option<Rel>, NoMemory>
    ensures { IfOk result (λ made. option_map tree_of made
        ≡ spec.merged_below (tree_of rel.now)) }
{
    match rel {
        Rel::Aggregate {
            input,
            groups,
            calls,
        } => over_project(alloc, groups, calls, input.get()),
        Rel::Scan(_)
        | Rel::TileScan(_)
        | Rel::StarScan { .. }
        | Rel::Filter { .. }
        | Rel::Project { .. }
        | Rel::Join { .. }
        | Rel::Empty(_)
        | Rel::Hole(_) => Ok(None),
    }
}

#[tactic(auto, using(cal_rel::proofs::TreeSteps::tree_steps))]
fn over_project(
    alloc: Global,
    groups: &List<u32>,
    calls: &List<AggCall>,
    below: &Rel,
) -> Result<Option<Rel>, NoMemory>
    ensures { IfOk result (λ made. option_map tree_of made
        ≡ spec.merged_below (unary (aggregate_by groups.now calls.now) (tree_of below.now))) }
{
    match below {
        Rel::Project { input, items } => over_input(alloc, groups, calls, items, input.get()),
        Rel::Scan(_)
        | Rel::TileScan(_)
        | Rel::StarScan { .. }
        | Rel::Filter { .. }
        | Rel::Join { .. }
        | Rel::Aggregate { .. }
        | Rel::Empty(_)
        | Rel::Hole(_) => Ok(None),
    }
}

#[tactic(auto, using(cal_rel::proofs::TreeSteps::tree_steps))]
fn over_input(
    alloc: Global,
    groups: &List<u32>,
    calls: &List<AggCall>,
    items: &List<Expr>,
    input: &Rel,
) -> Result<Option<Rel>, NoMemory>
    ensures { IfOk result (λ made. option_map tree_of made
        ≡ spec.merged_below (unary (aggregate_by groups.now calls.now)
        (unary (project_to items.now) (tree_of input.now)))) }
{
    let Some(groups) = groups_below(alloc, items, groups)? else {
        return Ok(None);
    };
    let Some(calls) = calls_below(alloc, items, calls)? else {
        return Ok(None);
    };
    let input = input.copy(alloc)?;
    Ok(Some(Rel::aggregate(alloc, input, groups, calls)?))
}

// The column below that the item of this place is, where it is one.
fn column_below(items: &List<Expr>, at: u32) -> Option<u32>
    ensures { result ≡ spec.column_below items.now at }
{
    match items.get(at as usize) {
        Some(item) => column_in(item),
        None => None,
    }
}

fn groups_below(
    alloc: Global,
    items: &List<Expr>,
    groups: &List<u32>,
) -> Result<Option<List<u32>>, NoMemory>
    ensures { IfOk result (λ below. below ≡ each_of (spec.column_below items.now) groups.now) }
{
    let mut below = List::new(alloc);
    for group in groups.as_slice() {
        let Some(column) = column_below(items, *group) else {
            return Ok(None);
        };
        below.push(column)?;
    }
    Ok(Some(below))
}

fn call_below(items: &List<Expr>, call: AggCall) -> Option<AggCall>
    ensures { result ≡ spec.call_below items.now call }
{
    let argument = match call.argument {
        None => None,
        Some(at) => match column_below(items, at) {
            Some(column) => Some(column),
            None => return None,
        },
    };
    Some(AggCall {
        agg: call.agg,
        argument,
    })
}

fn calls_below(
    alloc: Global,
    items: &List<Expr>,
    calls: &List<AggCall>,
) -> Result<Option<List<AggCall>>, NoMemory>
    ensures { IfOk result (λ below. below ≡ each_of (spec.call_below items.now) calls.now) }
{
    let mut below = List::new(alloc);
    for call in calls.as_slice() {
        let Some(call) = call_below(items, *call) else {
            return Ok(None);
        };
        below.push(call)?;
    }
    Ok(Some(below))
}
