ghost use Rattle.std.specs.Prelude.{◌≡◌, ◌++◌, IfOk};
ghost use Rattle.std.specs.Option.{option_map};
ghost use Rattle.cal_schema.specs.declared.join_kind.JoinKind.TheVariants as kinds;
ghost use Rattle.cal_rel.specs.Tree.{tree_of, join_on, binary};
ghost use Rattle.expr_parts.specs.Conjuncts as parts;
ghost use Rattle.filter_images.specs.FilterIntoJoin.{is_right};
ghost use Rattle.join_images.specs.JoinAssociate as spec;
ghost use Rattle.join_images.specs.Meanings.{join_associate};

use crate::columns::column_number;
use cal_expr::Expr;
use cal_rel::{JoinKind, PlanInfo, Rel};
use cal_value::{Duplicate, List, NoMemory};
use expr_parts::{conjunction, conjuncts_of, reads_below, reads_from, shifted_down};
use rule_hep::{Reach, Rule, kept, width_of};
use std::alloc::Global;

/// Two inner joins that are grouped to the left are grouped to the right, where some conjunct reads columns of the second and
/// the third input alone. These conjuncts become the condition of that join.
#[derive(Debug, Drop)]
pub struct JoinAssociate;

impl JoinAssociate {
    /// The rule. Takes no memory.
    pub fn new() -> JoinAssociate
        ensures { ⟦<JoinAssociate as Rule>⟧.meaning result ≡ join_associate }
    {
        JoinAssociate
    }
}

impl Rule for JoinAssociate {
    ghost meaning = { λ rule. join_associate };

    fn name(&self) -> &str {
        "JoinAssociate"
    }

    fn in_hep(&self) -> bool {
        false
    }

    fn reach(&self) -> Reach {
        Reach::FirstChild
    }

    fn width(&self, _info: &PlanInfo) -> u32 {
        1
    }

    fn apply(
        &self,
        alloc: Global,
        info: &PlanInfo,
        rel: &Rel,
        nth: u32,
    ) -> Result<Option<Rel>, NoMemory> {
        if nth != 0 {
            return Ok(None);
        }
        match associated_joins(alloc, info, rel)? {
            Some(out) => kept(alloc, info, rel, out),
            None => Ok(None),
        }
    }
}

#[tactic(auto, using(cal_rel::proofs::TreeSteps::tree_steps))]
fn associated_joins(alloc: Global, info: &PlanInfo, rel: &Rel) -> Result<Option<Rel>, NoMemory>
    ensures { IfOk result (λ made. option_map tree_of made
        ≡ spec.associated_joins info.now (tree_of rel.now)) }
{
    match rel {
        Rel::Join {
            kind,
            left,
            right,
            on,
        } => match kind {
            JoinKind::Inner => over_join(alloc, info, on, left.get(), right.get()),
            JoinKind::Left => Ok(None),
        },
        Rel::Scan(_)
        | Rel::TileScan(_)
        | Rel::StarScan { .. }
        | Rel::Filter { .. }
        | Rel::Project { .. }
        | Rel::Aggregate { .. }
        | Rel::Empty(_)
        | Rel::Hole(_) => Ok(None),
    }
}

// Of an inner join on `upper`, whose left side is `below` and whose right side is `last`.
#[tactic(auto, using(cal_rel::proofs::TreeSteps::tree_steps))]
fn over_join(
    alloc: Global,
    info: &PlanInfo,
    upper: &Expr,
    below: &Rel,
    last: &Rel,
) -> Result<Option<Rel>, NoMemory>
    ensures { IfOk result (λ made. option_map tree_of made ≡ spec.associated_joins info.now
        (binary (join_on kinds.Inner upper.now) (tree_of below.now) (tree_of last.now))) }
{
    match below {
        Rel::Join {
            kind,
            left,
            right,
            on,
        } => match kind {
            JoinKind::Inner => {
                let conjuncts = both(alloc, on, upper)?;
                let width = width_of(alloc, info, left.get())?;
                associated(alloc, width, &conjuncts, left.get(), right.get(), last)
            }
            JoinKind::Left => Ok(None),
        },
        Rel::Scan(_)
        | Rel::TileScan(_)
        | Rel::StarScan { .. }
        | Rel::Filter { .. }
        | Rel::Project { .. }
        | Rel::Aggregate { .. }
        | Rel::Empty(_)
        | Rel::Hole(_) => Ok(None),
    }
}

fn both(alloc: Global, lower: &Expr, upper: &Expr) -> Result<List<Expr>, NoMemory>
    ensures { IfOk result (λ conjuncts. conjuncts
        ≡ parts.conjuncts_of lower.now ++ parts.conjuncts_of upper.now) }
{
    let mut conjuncts = conjuncts_of(alloc, lower)?;
    for conjunct in conjuncts_of(alloc, upper)?.into_vec() {
        conjuncts.push(conjunct)?;
    }
    Ok(conjuncts)
}

fn associated(
    alloc: Global,
    width: usize,
    conjuncts: &List<Expr>,
    first: &Rel,
    middle: &Rel,
    last: &Rel,
) -> Result<Option<Rel>, NoMemory>
    ensures { IfOk result (λ made. option_map tree_of made ≡ spec.associated width conjuncts.now
        (tree_of first.now) (tree_of middle.now) (tree_of last.now)) }
{
    let moved = inside(alloc, conjuncts, width)?;
    match moved.as_slice() {
        [] => Ok(None),
        [_, ..] => {
            let others = outside(alloc, conjuncts, width)?;
            let lower = joined(alloc, middle, last.copy(alloc)?, moved)?;
            Ok(Some(joined(alloc, first, lower, others)?))
        }
    }
}

#[tactic(auto, using(cal_rel::proofs::TreeSteps::tree_steps))]
fn joined(alloc: Global, left: &Rel, right: Rel, conjuncts: List<Expr>) -> Result<Rel, NoMemory>
    ensures { IfOk result (λ t. tree_of t ≡ binary
        (join_on kinds.Inner (parts.conjunction conjuncts)) (tree_of left.now) (tree_of right)) }
{
    let on = conjunction(alloc, conjuncts)?;
    Rel::join(alloc, JoinKind::Inner, left.copy(alloc)?, right, on)
}

fn is_inside(conjunct: &Expr, width: usize) -> bool
    ensures { result ≡ is_right width conjunct.now }
{
    !reads_below(conjunct, width) && reads_from(conjunct, width)
}

fn all_inside(alloc: Global, conjuncts: &List<Expr>, width: u32) -> Result<List<Expr>, NoMemory>
    ensures { IfOk result (λ those. those ≡ spec.inside width conjuncts.now) }
{
    let mut those = List::new(alloc);
    for conjunct in conjuncts.as_slice() {
        if is_inside(conjunct, width as usize) {
            those.push(shifted_down(alloc, conjunct, width)?)?;
        }
    }
    Ok(those)
}

// Those on the columns from this one on, over these columns.
fn inside(alloc: Global, conjuncts: &List<Expr>, width: usize) -> Result<List<Expr>, NoMemory>
    ensures { IfOk result (λ those. those ≡ spec.inside width conjuncts.now) }
{
    let width = column_number(width)?;
    all_inside(alloc, conjuncts, width)
}

fn outside(alloc: Global, conjuncts: &List<Expr>, width: usize) -> Result<List<Expr>, NoMemory>
    ensures { IfOk result (λ those. those ≡ spec.outside width conjuncts.now) }
{
    let mut those = List::new(alloc);
    for conjunct in conjuncts.as_slice() {
        if !is_inside(conjunct, width) {
            those.push(conjunct.copy(alloc)?)?;
        }
    }
    Ok(those)
}
