ghost use Rattle.std.specs.Prelude.{◌≡◌, IfOk};
ghost use Rattle.std.specs.Option.{option_map};
ghost use Rattle.cal_rel.specs.Bag.{width};
ghost use Rattle.cal_rel.specs.Tree.{tree_of};
ghost use Rattle.join_images.specs.JoinCommute as spec;
ghost use Rattle.join_images.specs.Meanings.{join_commute};

use crate::columns::{exchanged_columns, items_of};
use cal_expr::Expr;
use cal_rel::{JoinKind, PlanInfo, Rel};
use cal_value::{List, NoMemory};
use expr_parts::over_columns;
use rule_hep::{Reach, Rule, kept, width_of};
use std::alloc::Global;

/// The sides of an inner join in the other order, below a project that restores the columns.
#[derive(Debug, Drop)]
pub struct JoinCommute;

impl JoinCommute {
    /// The rule. Takes no memory.
    pub fn new() -> JoinCommute
        ensures { ⟦<JoinCommute as Rule>⟧.meaning result ≡ join_commute }
    {
        JoinCommute
    }
}

impl Rule for JoinCommute {
    ghost meaning = { λ rule. join_commute };

    fn name(&self) -> &str {
        "JoinCommute"
    }

    fn in_hep(&self) -> bool {
        false
    }

    fn reach(&self) -> Reach {
        Reach::Node
    }

    fn width(&self, _info: &PlanInfo) -> u32 {
        1
    }

    fn apply(
        &self,
        alloc: Global,
        info: &PlanInfo,
        rel: &Rel,
        nth: u32,
    ) -> Result<Option<Rel>, NoMemory> {
        if nth != 0 {
            return Ok(None);
        }
        match commuted_join(alloc, info, rel)? {
            Some(out) => kept(alloc, info, rel, out),
            None => Ok(None),
        }
    }
}

#[tactic(auto, using(cal_rel::proofs::TreeSteps::tree_steps))]
fn commuted_join(alloc: Global, info: &PlanInfo, rel: &Rel) -> Result<Option<Rel>, NoMemory>
    ensures { IfOk result (λ made. option_map tree_of made
        ≡ spec.commuted_join info.now (tree_of rel.now)) }
{
    match rel {
        Rel::Join {
            kind,
            left,
            right,
            on,
        } => match kind {
            JoinKind::Inner => {
                let columns = columns_of(alloc, info, left.get(), right.get())?;
                let made = commuted(alloc, &columns, on, left.get(), right.get())?;
                Ok(Some(made))
            }
            JoinKind::Left => Ok(None),
        },
        Rel::Scan(_)
        | Rel::TileScan(_)
        | Rel::StarScan { .. }
        | Rel::Filter { .. }
        | Rel::Project { .. }
        | Rel::Aggregate { .. }
        | Rel::Empty(_)
        | Rel::Hole(_) => Ok(None),
    }
}

fn columns_of(
    alloc: Global,
    info: &PlanInfo,
    left: &Rel,
    right: &Rel,
) -> Result<List<u32>, NoMemory>
    ensures { IfOk result (λ columns. columns ≡ spec.exchanged_columns
        (width info.now (tree_of left.now)) (width info.now (tree_of right.now))) }
{
    let first = width_of(alloc, info, left)?;
    let second = width_of(alloc, info, right)?;
    exchanged_columns(alloc, first, second)
}

#[tactic(auto, using(cal_rel::proofs::TreeSteps::tree_steps))]
fn commuted(
    alloc: Global,
    columns: &List<u32>,
    on: &Expr,
    left: &Rel,
    right: &Rel,
) -> Result<Rel, NoMemory>
    ensures { IfOk result (λ t. tree_of t
        ≡ spec.commuted columns.now on.now (tree_of left.now) (tree_of right.now)) }
{
    let on = over_columns(alloc, on, columns)?;
    let right = right.copy(alloc)?;
    let left = left.copy(alloc)?;
    let joined = Rel::join(alloc, JoinKind::Inner, right, left, on)?;
    let items = items_of(alloc, columns)?;
    Rel::project(alloc, joined, items)
}
