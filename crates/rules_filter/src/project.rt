ghost use Rattle.std.specs.Prelude.{◌≡◌, IfOk};
ghost use Rattle.std.specs.Option.{option_map};
ghost use Rattle.cal_rel.specs.Tree.{tree_of, filter_by, unary};
ghost use Rattle.expr_parts.specs.Columns as parts;
ghost use Rattle.filter_images.specs.FilterProjectTranspose as spec;
ghost use Rattle.filter_images.specs.Meanings.{filter_project_transpose};

use cal_expr::Expr;
use cal_rel::{PlanInfo, Rel};
use cal_value::{Duplicate, List, NoMemory};
use expr_parts::over_items;
use rule_hep::{Reach, Rule, kept};
use std::alloc::Global;

/// A filter over a project goes below it, with the items in the place of columns.
#[derive(Debug, Drop)]
pub struct FilterProjectTranspose;

impl FilterProjectTranspose {
    /// The rule. Takes no memory.
    pub fn new() -> FilterProjectTranspose
        ensures { ⟦<FilterProjectTranspose as Rule>⟧.meaning result ≡ filter_project_transpose }
    {
        FilterProjectTranspose
    }
}

impl Rule for FilterProjectTranspose {
    ghost meaning = { λ rule. filter_project_transpose };

    fn name(&self) -> &str {
        "FilterProjectTranspose"
    }

    fn in_hep(&self) -> bool {
        true
    }

    fn reach(&self) -> Reach {
        Reach::FirstChild
    }

    fn width(&self, _info: &PlanInfo) -> u32 {
        1
    }

    fn apply(
        &self,
        alloc: Global,
        info: &PlanInfo,
        rel: &Rel,
        nth: u32,
    ) -> Result<Option<Rel>, NoMemory> {
        if nth != 0 {
            return Ok(None);
        }
        match below_project(alloc, rel)? {
            Some(out) => kept(alloc, info, rel, out),
            None => Ok(None),
        }
    }
}

#[tactic(auto, using(cal_rel::proofs::TreeSteps::tree_steps))]
fn below_project(alloc: Global, rel: &Rel) -> Result<Option<Rel>, NoMemory>
    ensures { IfOk result (λ made. option_map tree_of made
        ≡ spec.filter_below_project (tree_of rel.now)) }
{
    match rel {
        Rel::Filter { input, predicate } => below_items(alloc, predicate, input.get()),
        Rel::Scan(_)
        | Rel::TileScan(_)
        | Rel::StarScan { .. }
        | Rel::Project { .. }
        | Rel::Join { .. }
        | Rel::Aggregate { .. }
        | Rel::Empty(_)
        | Rel::Hole(_) => Ok(None),
    }
}

#[tactic(auto, using(cal_rel::proofs::TreeSteps::tree_steps))]
fn below_items(alloc: Global, predicate: &Expr, below: &Rel) -> Result<Option<Rel>, NoMemory>
    ensures { IfOk result (λ made. option_map tree_of made
        ≡ spec.filter_below_project (unary (filter_by predicate.now) (tree_of below.now))) }
{
    match below {
        Rel::Project { input, items } => {
            let filtered = filtered_by(alloc, predicate, items, input.get())?;
            let items = items.copy(alloc)?;
            Ok(Some(Rel::project(alloc, filtered, items)?))
        }
        Rel::Scan(_)
        | Rel::TileScan(_)
        | Rel::StarScan { .. }
        | Rel::Filter { .. }
        | Rel::Join { .. }
        | Rel::Aggregate { .. }
        | Rel::Empty(_)
        | Rel::Hole(_) => Ok(None),
    }
}

#[tactic(auto, using(cal_rel::proofs::TreeSteps::tree_steps))]
fn filtered_by(
    alloc: Global,
    predicate: &Expr,
    items: &List<Expr>,
    input: &Rel,
) -> Result<Rel, NoMemory>
    ensures { IfOk result (λ t. tree_of t
        ≡ unary (filter_by (parts.over_items items.now predicate.now)) (tree_of input.now)) }
{
    let predicate = over_items(alloc, predicate, items)?;
    let input = input.copy(alloc)?;
    Rel::filter(alloc, input, predicate)
}
