ghost use Rattle.std.specs.Prelude.{◌≡◌, ◌++◌, IfOk};
ghost use Rattle.std.specs.Option.{option_map};
ghost use Rattle.cal_rel.specs.Tree.{tree_of, filter_by, unary};
ghost use Rattle.expr_parts.specs.Conjuncts as parts;
ghost use Rattle.filter_images.specs.FilterMerge as spec;
ghost use Rattle.filter_images.specs.Meanings.{filter_merge};

use crate::filtered::{filtered, joined};
use cal_expr::Expr;
use cal_rel::{PlanInfo, Rel};
use cal_value::{List, NoMemory};
use expr_parts::conjuncts_of;
use rule_hep::{Reach, Rule, kept};
use std::alloc::Global;

/// Two filters become one, of the conjuncts of the lower one and then those of the upper one.
#[derive(Debug, Drop)]
pub struct FilterMerge;

impl FilterMerge {
    /// The rule. Takes no memory.
    pub fn new() -> FilterMerge
        ensures { ⟦<FilterMerge as Rule>⟧.meaning result ≡ filter_merge }
    {
        FilterMerge
    }
}

impl Rule for FilterMerge {
    ghost meaning = { λ rule. filter_merge };

    fn name(&self) -> &str {
        "FilterMerge"
    }

    fn in_hep(&self) -> bool {
        true
    }

    fn reach(&self) -> Reach {
        Reach::FirstChild
    }

    fn width(&self, _info: &PlanInfo) -> u32 {
        1
    }

    fn apply(
        &self,
        alloc: Global,
        info: &PlanInfo,
        rel: &Rel,
        nth: u32,
    ) -> Result<Option<Rel>, NoMemory> {
        if nth != 0 {
            return Ok(None);
        }
        match merged_filters(alloc, rel)? {
            Some(out) => kept(alloc, info, rel, out),
            None => Ok(None),
        }
    }
}

#[tactic(auto, using(cal_rel::proofs::TreeSteps::tree_steps))]
fn merged_filters(alloc: Global, rel: &Rel) -> Result<Option<Rel>, NoMemory>
    ensures { IfOk result (λ made. option_map tree_of made
        ≡ spec.merged_filters (tree_of rel.now)) }
{
    match rel {
        Rel::Filter { input, predicate } => merged_below(alloc, predicate, input.get()),
        Rel::Scan(_)
        | Rel::TileScan(_)
        | Rel::StarScan { .. }
        | Rel::Project { .. }
        | Rel::Join { .. }
        | Rel::Aggregate { .. }
        | Rel::Empty(_)
        | Rel::Hole(_) => Ok(None),
    }
}

#[tactic(auto, using(cal_rel::proofs::TreeSteps::tree_steps))]
fn merged_below(alloc: Global, upper: &Expr, below: &Rel) -> Result<Option<Rel>, NoMemory>
    ensures { IfOk result (λ made. option_map tree_of made
        ≡ spec.merged_filters (unary (filter_by upper.now) (tree_of below.now))) }
{
    match below {
        Rel::Filter { input, predicate } => {
            let conjuncts = both(alloc, predicate, upper)?;
            let input = input.get().copy(alloc)?;
            Ok(Some(filtered(alloc, conjuncts, input)?))
        }
        Rel::Scan(_)
        | Rel::TileScan(_)
        | Rel::StarScan { .. }
        | Rel::Project { .. }
        | Rel::Join { .. }
        | Rel::Aggregate { .. }
        | Rel::Empty(_)
        | Rel::Hole(_) => Ok(None),
    }
}

fn both(alloc: Global, lower: &Expr, upper: &Expr) -> Result<List<Expr>, NoMemory>
    ensures { IfOk result (λ conjuncts. conjuncts
        ≡ parts.conjuncts_of lower.now ++ parts.conjuncts_of upper.now) }
{
    let first = conjuncts_of(alloc, lower)?;
    let second = conjuncts_of(alloc, upper)?;
    joined(first, second)
}
