//! A rule that is never done.
ghost use Rattle.std.specs.Prelude.{◌≡◌, option_map, IfOk};
ghost use Rattle.cal_rel.specs.Tree.{tree_of};
ghost use Rattle.search_tests.specs.FilterBelow as spec;
ghost use Rattle.search_tests.specs.FilterBelow.{filter_below};

use cal_expr::Expr;
use cal_rel::{PlanInfo, Rel};
use cal_value::{Duplicate, NoMemory, Value};
use rule_hep::{Reach, Rule, kept};
use sqlite_items::Boxed;
use std::alloc::Global;

/// Filters that let all rows through come below each project, a thousand different ones.
#[derive(Drop)]
pub(crate) struct FilterBelow {}

impl FilterBelow {
    pub(crate) fn new() -> FilterBelow
        ensures { ⟦<FilterBelow as Rule>⟧.meaning result ≡ filter_below }
    {
        FilterBelow {}
    }
}

// nth IS NOT NULL
fn is_number(alloc: Global, nth: u32) -> Result<Expr, NoMemory>
    ensures { IfOk result (λ e. e ≡ spec.is_number nth) }
{
    let number = Boxed::new(alloc, Expr::Literal(Value::Int(nth as i128)))?;
    let is_null = Boxed::new(alloc, Expr::IsNull(number))?;
    Ok(Expr::Not(is_null))
}

#[tactic(auto, using(cal_rel::proofs::TreeSteps::tree_steps))]
fn deepened(alloc: Global, _info: &PlanInfo, rel: &Rel, nth: u32) -> Result<Option<Rel>, NoMemory>
    ensures { IfOk result (λ out. option_map tree_of out
        ≡ spec.deepened nth _info.now (tree_of rel.now)) }
{
    match rel {
        Rel::Project { input, items } => {
            let predicate = is_number(alloc, nth)?;
            let below = Rel::filter(alloc, input.get().copy(alloc)?, predicate)?;
            Ok(Some(Rel::project(alloc, below, items.copy(alloc)?)?))
        }
        Rel::Scan(_)
        | Rel::TileScan(_)
        | Rel::StarScan { .. }
        | Rel::Filter { .. }
        | Rel::Join { .. }
        | Rel::Aggregate { .. }
        | Rel::Empty(_)
        | Rel::Hole(_) => Ok(None),
    }
}

impl Rule for FilterBelow {
    ghost meaning = { λ rule. filter_below };

    fn name(&self) -> &str {
        "FilterBelow"
    }

    fn in_hep(&self) -> bool {
        false
    }

    fn reach(&self) -> Reach {
        Reach::Node
    }

    fn width(&self, _info: &PlanInfo) -> u32 {
        1000
    }

    fn apply(
        &self,
        alloc: Global,
        info: &PlanInfo,
        rel: &Rel,
        nth: u32,
    ) -> Result<Option<Rel>, NoMemory> {
        if nth >= 1000 {
            return Ok(None);
        }
        match deepened(alloc, info, rel, nth)? {
            Some(out) => kept(alloc, info, rel, out),
            None => Ok(None),
        }
    }
}
