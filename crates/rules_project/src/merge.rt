ghost use Rattle.std.specs.Prelude.{◌≡◌, IfOk, map};
ghost use Rattle.std.specs.Option.{option_map};
ghost use Rattle.cal_rel.specs.Tree.{tree_of, project_to, unary};
ghost use Rattle.expr_parts.specs.Columns as parts;
ghost use Rattle.project_images.specs.Meanings.{project_merge};
ghost use Rattle.project_images.specs.ProjectMerge as spec;

use cal_expr::Expr;
use cal_rel::{PlanInfo, Rel};
use cal_value::{List, NoMemory};
use expr_parts::over_items;
use rule_hep::{Reach, Rule, kept};
use std::alloc::Global;

/// Two projects become one, with the items of the lower one in the place of columns.
#[derive(Debug, Drop)]
pub struct ProjectMerge;

impl ProjectMerge {
    /// The rule. Takes no memory.
    pub fn new() -> ProjectMerge
        ensures { ⟦<ProjectMerge as Rule>⟧.meaning result ≡ project_merge }
    {
        ProjectMerge
    }
}

impl Rule for ProjectMerge {
    ghost meaning = { λ rule. project_merge };

    fn name(&self) -> &str {
        "ProjectMerge"
    }

    fn in_hep(&self) -> bool {
        true
    }

    fn reach(&self) -> Reach {
        Reach::FirstChild
    }

    fn width(&self, _info: &PlanInfo) -> u32 {
        1
    }

    fn apply(
        &self,
        alloc: Global,
        info: &PlanInfo,
        rel: &Rel,
        nth: u32,
    ) -> Result<Option<Rel>, NoMemory> {
        if nth != 0 {
            return Ok(None);
        }
        match merged_projects(alloc, rel)? {
            Some(out) => kept(alloc, info, rel, out),
            None => Ok(None),
        }
    }
}

#[tactic(auto, using(cal_rel::proofs::TreeSteps::tree_steps))]
fn merged_projects(alloc: Global, rel: &Rel) -> Result<Option<Rel>, NoMemory>
    ensures { IfOk result (λ made. option_map tree_of made
        ≡ spec.merged_projects (tree_of rel.now)) }
{
    match rel {
        Rel::Project { input, items } => merged_below(alloc, items, input.get()),
        Rel::Scan(_)
        | Rel::TileScan(_)
        | Rel::StarScan { .. }
        | Rel::Filter { .. }
        | Rel::Join { .. }
        | Rel::Aggregate { .. }
        | Rel::Empty(_)
        | Rel::Hole(_) => Ok(None),
    }
}

#[tactic(auto, using(cal_rel::proofs::TreeSteps::tree_steps))]
fn merged_below(alloc: Global, upper: &List<Expr>, below: &Rel) -> Result<Option<Rel>, NoMemory>
    ensures { IfOk result (λ made. option_map tree_of made
        ≡ spec.merged_projects (unary (project_to upper.now) (tree_of below.now))) }
{
    match below {
        Rel::Project { input, items } => {
            let items = all_over(alloc, upper, items)?;
            let input = input.get().copy(alloc)?;
            Ok(Some(Rel::project(alloc, input, items)?))
        }
        Rel::Scan(_)
        | Rel::TileScan(_)
        | Rel::StarScan { .. }
        | Rel::Filter { .. }
        | Rel::Join { .. }
        | Rel::Aggregate { .. }
        | Rel::Empty(_)
        | Rel::Hole(_) => Ok(None),
    }
}

fn all_over(alloc: Global, upper: &List<Expr>, lower: &List<Expr>) -> Result<List<Expr>, NoMemory>
    ensures { IfOk result (λ items. items ≡ map (parts.over_items lower.now) upper.now) }
{
    let mut items = List::new(alloc);
    for item in upper.as_slice() {
        items.push(over_items(alloc, item, lower)?)?;
    }
    Ok(items)
}
