ghost use Rattle.std.specs.Prelude.{◌≡◌, IfOk};
ghost use Rattle.std.specs.Option.{option_map};
ghost use Rattle.cal_rel.specs.Tree.{tree_of};
ghost use Rattle.project_images.specs.Meanings.{prune_empty};
ghost use Rattle.project_images.specs.PruneEmpty as spec;

use crate::empties::empty_for;
use cal_rel::{JoinKind, PlanInfo, Rel};
use cal_value::NoMemory;
use rule_hep::{Reach, Rule, kept};
use std::alloc::Global;

/// A filter, a project, an aggregate with groups or an inner join over an empty tree is empty, and so is a left join of which the
/// left side is.
#[derive(Debug, Drop)]
pub struct PruneEmpty;

impl PruneEmpty {
    /// The rule. Takes no memory.
    pub fn new() -> PruneEmpty
        ensures { ⟦<PruneEmpty as Rule>⟧.meaning result ≡ prune_empty }
    {
        PruneEmpty
    }
}

impl Rule for PruneEmpty {
    ghost meaning = { λ rule. prune_empty };

    fn name(&self) -> &str {
        "PruneEmpty"
    }

    fn in_hep(&self) -> bool {
        true
    }

    fn reach(&self) -> Reach {
        Reach::BothChildren
    }

    fn width(&self, _info: &PlanInfo) -> u32 {
        1
    }

    fn apply(
        &self,
        alloc: Global,
        info: &PlanInfo,
        rel: &Rel,
        nth: u32,
    ) -> Result<Option<Rel>, NoMemory> {
        if nth != 0 {
            return Ok(None);
        }
        match pruned(alloc, info, rel)? {
            Some(out) => kept(alloc, info, rel, out),
            None => Ok(None),
        }
    }
}

fn pruned(alloc: Global, info: &PlanInfo, rel: &Rel) -> Result<Option<Rel>, NoMemory>
    ensures { IfOk result (λ made. option_map tree_of made
        ≡ spec.pruned info.now (tree_of rel.now)) }
{
    if is_pruned(rel) {
        empty_for(alloc, info, rel)
    } else {
        Ok(None)
    }
}

#[tactic(auto, using(cal_rel::proofs::TreeSteps::tree_steps))]
fn is_pruned(rel: &Rel) -> bool
    ensures { result ≡ spec.is_pruned (tree_of rel.now) }
{
    match rel {
        Rel::Filter { input, .. } => is_empty(input.get()),
        Rel::Project { input, .. } => is_empty(input.get()),
        Rel::Join {
            kind,
            left,
            right,
            ..
        } => match kind {
            JoinKind::Inner => is_empty(left.get()) || is_empty(right.get()),
            JoinKind::Left => is_empty(left.get()),
        },
        // Without groups an aggregate has a row also over none.
        Rel::Aggregate { input, groups, .. } => match groups.as_slice() {
            [] => false,
            [_, ..] => is_empty(input.get()),
        },
        Rel::Scan(_) | Rel::TileScan(_) | Rel::StarScan { .. } | Rel::Empty(_) | Rel::Hole(_) =>
            false,
    }
}

#[tactic(auto, using(cal_rel::proofs::TreeSteps::tree_steps))]
fn is_empty(rel: &Rel) -> bool
    ensures { result ≡ spec.is_empty (tree_of rel.now) }
{
    match rel {
        Rel::Empty(_) => true,
        Rel::Scan(_)
        | Rel::TileScan(_)
        | Rel::StarScan { .. }
        | Rel::Filter { .. }
        | Rel::Project { .. }
        | Rel::Join { .. }
        | Rel::Aggregate { .. }
        | Rel::Hole(_) => false,
    }
}
