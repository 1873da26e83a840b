//! A rule of the tests' own, which is also the example of how one is written.
ghost use Rattle.std.specs.Prelude.{◌≡◌, option_map, IfOk};
ghost use Rattle.cal_rel.specs.Tree.{tree_of};
ghost use Rattle.rule_hep.specs.SwapFilters as spec;
ghost use Rattle.rule_hep.specs.SwapFilters.{swap_filters};

use crate::{Reach, Rule, kept};
use cal_rel::{PlanInfo, Rel};
use cal_value::{Duplicate, NoMemory};
use std::alloc::Global;

/// Of two filters the upper one comes below the lower one.
#[derive(Drop)]
pub struct SwapFilters {
    in_hep: bool,
}

impl SwapFilters {
    pub fn new(in_hep: bool) -> SwapFilters
        ensures { ⟦<SwapFilters as Rule>⟧.meaning result ≡ swap_filters in_hep }
    {
        SwapFilters { in_hep }
    }
}

#[tactic(auto, using(cal_rel::proofs::TreeSteps::tree_steps))]
fn swapped(alloc: Global, _info: &PlanInfo, rel: &Rel) -> Result<Option<Rel>, NoMemory>
    ensures { IfOk result (λ out. option_map tree_of out
        ≡ spec.swapped _info.now (tree_of rel.now)) }
{
    match rel {
        Rel::Filter { input, predicate } => match input.get() {
            Rel::Filter {
                input: below,
                predicate: lower,
            } => {
                let below = below.get().copy(alloc)?;
                let upper = Rel::filter(alloc, below, predicate.copy(alloc)?)?;
                Ok(Some(Rel::filter(alloc, upper, lower.copy(alloc)?)?))
            }
            Rel::Scan(_)
            | Rel::TileScan(_)
            | Rel::StarScan { .. }
            | Rel::Project { .. }
            | Rel::Join { .. }
            | Rel::Aggregate { .. }
            | Rel::Empty(_)
            | Rel::Hole(_) => Ok(None),
        },
        Rel::Scan(_)
        | Rel::TileScan(_)
        | Rel::StarScan { .. }
        | Rel::Project { .. }
        | Rel::Join { .. }
        | Rel::Aggregate { .. }
        | Rel::Empty(_)
        | Rel::Hole(_) => Ok(None),
    }
}

impl Rule for SwapFilters {
    ghost meaning = { λ rule. swap_filters rule.in_hep };

    fn name(&self) -> &str {
        "SwapFilters"
    }

    fn in_hep(&self) -> bool {
        self.in_hep
    }

    fn reach(&self) -> Reach {
        Reach::FirstChild
    }

    fn width(&self, _info: &PlanInfo) -> u32 {
        1
    }

    fn apply(
        &self,
        alloc: Global,
        info: &PlanInfo,
        rel: &Rel,
        nth: u32,
    ) -> Result<Option<Rel>, NoMemory> {
        if nth != 0 {
            return Ok(None);
        }
        match swapped(alloc, info, rel)? {
            Some(out) => kept(alloc, info, rel, out),
            None => Ok(None),
        }
    }
}
