ghost use Rattle.std.specs.Prelude.{◌≡◌, IfOk};
ghost use Rattle.std.specs.Option.{option_map};
ghost use Rattle.cal_expr.specs.Equal.{expr_eq};
ghost use Rattle.cal_rel.specs.Tree.{tree_of};
ghost use Rattle.project_images.specs.Meanings.{project_remove};
ghost use Rattle.project_images.specs.ProjectRemove as spec;

use cal_expr::Expr;
use cal_rel::{PlanInfo, Rel};
use cal_value::{List, NoMemory};
use rule_hep::{Reach, Rule, kept, width_of};
use std::alloc::Global;

/// A project of all columns in order is its input.
#[derive(Debug, Drop)]
pub struct ProjectRemove;

impl ProjectRemove {
    /// The rule. Takes no memory.
    pub fn new() -> ProjectRemove
        ensures { ⟦<ProjectRemove as Rule>⟧.meaning result ≡ project_remove }
    {
        ProjectRemove
    }
}

impl Rule for ProjectRemove {
    ghost meaning = { λ rule. project_remove };

    fn name(&self) -> &str {
        "ProjectRemove"
    }

    fn in_hep(&self) -> bool {
        true
    }

    fn reach(&self) -> Reach {
        Reach::Node
    }

    fn width(&self, _info: &PlanInfo) -> u32 {
        1
    }

    fn apply(
        &self,
        alloc: Global,
        info: &PlanInfo,
        rel: &Rel,
        nth: u32,
    ) -> Result<Option<Rel>, NoMemory> {
        if nth != 0 {
            return Ok(None);
        }
        match removed_project(alloc, info, rel)? {
            Some(out) => kept(alloc, info, rel, out),
            None => Ok(None),
        }
    }
}

#[tactic(auto, using(cal_rel::proofs::TreeSteps::tree_steps))]
fn removed_project(alloc: Global, info: &PlanInfo, rel: &Rel) -> Result<Option<Rel>, NoMemory>
    ensures { IfOk result (λ made. option_map tree_of made
        ≡ spec.removed_project info.now (tree_of rel.now)) }
{
    match rel {
        Rel::Project { input, items } => {
            let width = width_of(alloc, info, input.get())?;
            if is_all_columns(width, items) {
                Ok(Some(input.get().copy(alloc)?))
            } else {
                Ok(None)
            }
        }
        Rel::Scan(_)
        | Rel::TileScan(_)
        | Rel::StarScan { .. }
        | Rel::Filter { .. }
        | Rel::Join { .. }
        | Rel::Aggregate { .. }
        | Rel::Empty(_)
        | Rel::Hole(_) => Ok(None),
    }
}

fn is_all_columns(width: usize, items: &List<Expr>) -> bool
    ensures { result ≡ spec.is_all_columns width items.now }
{
    items.len() == width && are_columns(items.as_slice())
}

fn are_columns(items: &[Expr]) -> bool
    ensures { result ≡ spec.are_columns_from 0 items.now }
{
    for (at, item) in items.iter().enumerate() {
        if !is_column(item, at) {
            return false;
        }
    }
    true
}

fn is_column(item: &Expr, at: usize) -> bool
    ensures { result ≡ expr_eq item.now (Expr.Column at) }
{
    match item {
        Expr::Column(column) => *column as usize == at,
        Expr::Literal(_) => false,
        Expr::Negate(_) => false,
        Expr::Binary { .. } => false,
        Expr::Not(_) => false,
        Expr::IsNull(_) => false,
    }
}
