ghost use Rattle.std.specs.Prelude.{◌≡◌, IfOk, filter, map};
ghost use Rattle.std.specs.Option.{option_map};
ghost use Rattle.cal_rel.specs.Bag.{width};
ghost use Rattle.cal_rel.specs.Tree.{tree_of, filter_by, unary};
ghost use Rattle.expr_parts.specs.Columns as parts;
ghost use Rattle.filter_images.specs.Filtered as made;
ghost use Rattle.filter_images.specs.FilterIntoJoin as spec;
ghost use Rattle.filter_images.specs.Meanings.{filter_into_join};

use crate::filtered::{filtered, joined, stays_above};
use crate::sides::{Side, over_the_right, those_on};
use cal_expr::Expr;
use cal_rel::{JoinKind, PlanInfo, Rel};
use cal_value::{List, NoMemory};
use expr_parts::{conjunction, conjuncts_of};
use rule_hep::{Reach, Rule, kept, width_of};
use std::alloc::Global;

/// Conjuncts of a filter over a join go below it, to the side whose columns alone they read. Of an inner join those of both
/// sides go into the condition; below a left join go those of the left side alone.
#[derive(Debug, Drop)]
pub struct FilterIntoJoin;

impl FilterIntoJoin {
    /// The rule. Takes no memory.
    pub fn new() -> FilterIntoJoin
        ensures { ⟦<FilterIntoJoin as Rule>⟧.meaning result ≡ filter_into_join }
    {
        FilterIntoJoin
    }
}

impl Rule for FilterIntoJoin {
    ghost meaning = { λ rule. filter_into_join };

    fn name(&self) -> &str {
        "FilterIntoJoin"
    }

    fn in_hep(&self) -> bool {
        true
    }

    fn reach(&self) -> Reach {
        Reach::FirstChild
    }

    fn width(&self, _info: &PlanInfo) -> u32 {
        1
    }

    fn apply(
        &self,
        alloc: Global,
        info: &PlanInfo,
        rel: &Rel,
        nth: u32,
    ) -> Result<Option<Rel>, NoMemory> {
        if nth != 0 {
            return Ok(None);
        }
        match below_join(alloc, info, rel)? {
            Some(out) => kept(alloc, info, rel, out),
            None => Ok(None),
        }
    }
}

#[tactic(auto, using(cal_rel::proofs::TreeSteps::tree_steps))]
fn below_join(alloc: Global, info: &PlanInfo, rel: &Rel) -> Result<Option<Rel>, NoMemory>
    ensures { IfOk result (λ made. option_map tree_of made
        ≡ spec.filter_below_join info.now (tree_of rel.now)) }
{
    match rel {
        Rel::Filter { input, predicate } => below_sides(alloc, info, predicate, input.get()),
        Rel::Scan(_)
        | Rel::TileScan(_)
        | Rel::StarScan { .. }
        | Rel::Project { .. }
        | Rel::Join { .. }
        | Rel::Aggregate { .. }
        | Rel::Empty(_)
        | Rel::Hole(_) => Ok(None),
    }
}

#[tactic(auto, using(cal_rel::proofs::TreeSteps::tree_steps))]
fn below_sides(
    alloc: Global,
    info: &PlanInfo,
    predicate: &Expr,
    below: &Rel,
) -> Result<Option<Rel>, NoMemory>
    ensures { IfOk result (λ made. option_map tree_of made
        ≡ spec.filter_below_join info.now
        (unary (filter_by predicate.now) (tree_of below.now))) }
{
    match below {
        Rel::Join {
            kind,
            left,
            right,
            on,
        } => {
            let width = width_of(alloc, info, left.get())?;
            into_join(alloc, width, predicate, *kind, on, left.get(), right.get())
        }
        Rel::Scan(_)
        | Rel::TileScan(_)
        | Rel::StarScan { .. }
        | Rel::Filter { .. }
        | Rel::Project { .. }
        | Rel::Aggregate { .. }
        | Rel::Empty(_)
        | Rel::Hole(_) => Ok(None),
    }
}

fn into_join(
    alloc: Global,
    width: usize,
    predicate: &Expr,
    kind: JoinKind,
    on: &Expr,
    left: &Rel,
    right: &Rel,
) -> Result<Option<Rel>, NoMemory>
    ensures { IfOk result (λ made. option_map tree_of made
        ≡ spec.into_join width predicate.now kind on.now (tree_of left.now) (tree_of right.now)) }
{
    match kind {
        JoinKind::Inner => {
            let conjuncts = conjuncts_of(alloc, predicate)?;
            let joined = into_inner(alloc, width, &conjuncts, on, left, right)?;
            Ok(Some(joined))
        }
        JoinKind::Left => {
            if stays_above(alloc, predicate, width)? {
                return Ok(None);
            }
            let conjuncts = conjuncts_of(alloc, predicate)?;
            let joined = into_left(alloc, width, &conjuncts, on, left, right)?;
            Ok(Some(joined))
        }
    }
}

#[tactic(auto, using(cal_rel::proofs::TreeSteps::tree_steps))]
fn into_inner(
    alloc: Global,
    width: usize,
    conjuncts: &List<Expr>,
    on: &Expr,
    left: &Rel,
    right: &Rel,
) -> Result<Rel, NoMemory>
    ensures { IfOk result (λ t. tree_of t
        ≡ spec.into_inner width conjuncts.now on.now (tree_of left.now) (tree_of right.now)) }
{
    let left = filtered_left(alloc, width, conjuncts, left)?;
    let right = filtered_right(alloc, width, conjuncts, right)?;
    let both = those_on(alloc, conjuncts, width, Side::Both)?;
    let on = with_more(alloc, on, both)?;
    Rel::join(alloc, JoinKind::Inner, left, right, on)
}

#[tactic(auto, using(cal_rel::proofs::TreeSteps::tree_steps))]
fn into_left(
    alloc: Global,
    width: usize,
    conjuncts: &List<Expr>,
    on: &Expr,
    left: &Rel,
    right: &Rel,
) -> Result<Rel, NoMemory>
    ensures { IfOk result (λ t. tree_of t
        ≡ spec.into_left width conjuncts.now on.now (tree_of left.now) (tree_of right.now)) }
{
    let left = filtered_left(alloc, width, conjuncts, left)?;
    let right = right.copy(alloc)?;
    let joined = Rel::join(alloc, JoinKind::Left, left, right, on.copy(alloc)?)?;
    let above = those_on(alloc, conjuncts, width, Side::NotLeft)?;
    filtered(alloc, above, joined)
}

fn filtered_left(
    alloc: Global,
    width: usize,
    conjuncts: &List<Expr>,
    left: &Rel,
) -> Result<Rel, NoMemory>
    ensures { IfOk result (λ t. tree_of t
        ≡ made.filtered (filter (spec.is_left width) conjuncts.now) (tree_of left.now)) }
{
    let moved = those_on(alloc, conjuncts, width, Side::Left)?;
    filtered(alloc, moved, left.copy(alloc)?)
}

fn filtered_right(
    alloc: Global,
    width: usize,
    conjuncts: &List<Expr>,
    right: &Rel,
) -> Result<Rel, NoMemory>
    ensures { IfOk result (λ t. tree_of t ≡ made.filtered
        (map (parts.shifted_down width) (filter (spec.is_right width) conjuncts.now))
        (tree_of right.now)) }
{
    let those = those_on(alloc, conjuncts, width, Side::Right)?;
    let moved = over_the_right(alloc, &those, width)?;
    filtered(alloc, moved, right.copy(alloc)?)
}

fn with_more(alloc: Global, on: &Expr, more: List<Expr>) -> Result<Expr, NoMemory>
    ensures { IfOk result (λ e. e ≡ spec.with_more on.now more) }
{
    match more.as_slice() {
        [] => on.copy(alloc),
        [_, ..] => {
            let conjuncts = conjuncts_of(alloc, on)?;
            conjunction(alloc, joined(conjuncts, more)?)
        }
    }
}
