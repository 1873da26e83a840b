ghost use Rattle.std.specs.Prelude.{◌≡◌, IfOk, filter, length, map};
ghost use Rattle.std.specs.Option.{option_map};
ghost use Rattle.cal_rel.specs.Tree.{tree_of, aggregate_by, filter_by, unary};
ghost use Rattle.expr_parts.specs.Columns as parts;
ghost use Rattle.filter_images.specs.Filtered as made;
ghost use Rattle.filter_images.specs.FilterAggregateTranspose as spec;
ghost use Rattle.filter_images.specs.FilterIntoJoin.{is_left};
ghost use Rattle.filter_images.specs.Meanings.{filter_aggregate_transpose};

use crate::filtered::{filtered, stays_above};
use crate::sides::{Side, over_the_groups, those_on};
use cal_expr::Expr;
use cal_rel::{AggCall, PlanInfo, Rel};
use cal_value::{Duplicate, List, NoMemory};
use expr_parts::conjuncts_of;
use rule_hep::{Reach, Rule, kept};
use std::alloc::Global;

/// Conjuncts of a filter over an aggregate with groups that read group columns alone, or none, go below it.
#[derive(Debug, Drop)]
pub struct FilterAggregateTranspose;

impl FilterAggregateTranspose {
    /// The rule. Takes no memory.
    pub fn new() -> FilterAggregateTranspose
        ensures { ⟦<FilterAggregateTranspose as Rule>⟧.meaning result
            ≡ filter_aggregate_transpose }
    {
        FilterAggregateTranspose
    }
}

impl Rule for FilterAggregateTranspose {
    ghost meaning = { λ rule. filter_aggregate_transpose };

    fn name(&self) -> &str {
        "FilterAggregateTranspose"
    }

    fn in_hep(&self) -> bool {
        true
    }

    fn reach(&self) -> Reach {
        Reach::FirstChild
    }

    fn width(&self, _info: &PlanInfo) -> u32 {
        1
    }

    fn apply(
        &self,
        alloc: Global,
        info: &PlanInfo,
        rel: &Rel,
        nth: u32,
    ) -> Result<Option<Rel>, NoMemory> {
        if nth != 0 {
            return Ok(None);
        }
        match below_aggregate(alloc, rel)? {
            Some(out) => kept(alloc, info, rel, out),
            None => Ok(None),
        }
    }
}

#[tactic(auto, using(cal_rel::proofs::TreeSteps::tree_steps))]
fn below_aggregate(alloc: Global, rel: &Rel) -> Result<Option<Rel>, NoMemory>
    ensures { IfOk result (λ made. option_map tree_of made
        ≡ spec.filter_below_aggregate (tree_of rel.now)) }
{
    match rel {
        Rel::Filter { input, predicate } => below_groups(alloc, predicate, input.get()),
        Rel::Scan(_)
        | Rel::TileScan(_)
        | Rel::StarScan { .. }
        | Rel::Project { .. }
        | Rel::Join { .. }
        | Rel::Aggregate { .. }
        | Rel::Empty(_)
        | Rel::Hole(_) => Ok(None),
    }
}

#[tactic(auto, using(cal_rel::proofs::TreeSteps::tree_steps))]
fn below_groups(alloc: Global, predicate: &Expr, below: &Rel) -> Result<Option<Rel>, NoMemory>
    ensures { IfOk result (λ made. option_map tree_of made
        ≡ spec.filter_below_aggregate (unary (filter_by predicate.now) (tree_of below.now))) }
{
    match below {
        Rel::Aggregate {
            input,
            groups,
            calls,
        } => match groups.as_slice() {
            [] => Ok(None),
            [_, ..] => over_groups(alloc, predicate, groups, calls, input.get()),
        },
        Rel::Scan(_)
        | Rel::TileScan(_)
        | Rel::StarScan { .. }
        | Rel::Filter { .. }
        | Rel::Project { .. }
        | Rel::Join { .. }
        | Rel::Empty(_)
        | Rel::Hole(_) => Ok(None),
    }
}

fn over_groups(
    alloc: Global,
    predicate: &Expr,
    groups: &List<u32>,
    calls: &List<AggCall>,
    input: &Rel,
) -> Result<Option<Rel>, NoMemory>
    ensures { IfOk result (λ made. option_map tree_of made
        ≡ spec.over_groups predicate.now groups.now calls.now (tree_of input.now)) }
{
    if stays_above(alloc, predicate, groups.len())? {
        return Ok(None);
    }
    let conjuncts = conjuncts_of(alloc, predicate)?;
    let input = filtered_groups(alloc, &conjuncts, groups, input)?;
    let grouped = grouped(alloc, groups, calls, input)?;
    let above = those_on(alloc, &conjuncts, groups.len(), Side::NotLeft)?;
    Ok(Some(filtered(alloc, above, grouped)?))
}

fn filtered_groups(
    alloc: Global,
    conjuncts: &List<Expr>,
    groups: &List<u32>,
    input: &Rel,
) -> Result<Rel, NoMemory>
    ensures { IfOk result (λ t. tree_of t ≡ made.filtered
        (map (parts.over_columns groups.now)
        (filter (is_left (length groups.now)) conjuncts.now)) (tree_of input.now)) }
{
    let those = those_on(alloc, conjuncts, groups.len(), Side::Left)?;
    let moved = over_the_groups(alloc, &those, groups)?;
    filtered(alloc, moved, input.copy(alloc)?)
}

#[tactic(auto, using(cal_rel::proofs::TreeSteps::tree_steps))]
fn grouped(
    alloc: Global,
    groups: &List<u32>,
    calls: &List<AggCall>,
    input: Rel,
) -> Result<Rel, NoMemory>
    ensures { IfOk result (λ t. tree_of t
        ≡ unary (aggregate_by groups.now calls.now) (tree_of input)) }
{
    let groups = groups.copy(alloc)?;
    Rel::aggregate(alloc, input, groups, calls.copy(alloc)?)
}
