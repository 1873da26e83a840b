ghost use Rattle.std.specs.Prelude.{◌≡◌, IfOk, IsSome};
ghost use Rattle.std.specs.Option.{option_map};
ghost use Rattle.cal_rel.specs.Tree.{tree_of, filter_by, unary};
ghost use Rattle.cal_rel.specs.Typing as typing;
ghost use Rattle.project_images.specs.Meanings.{reduce_expressions};
ghost use Rattle.project_images.specs.ReduceExpressions as spec;

use crate::empties::empty_for;
use crate::reductions::{all_reduced, reduced};
use cal_expr::Expr;
use cal_rel::{PlanInfo, Rel, type_of};
use cal_value::{List, NoMemory, Value};
use rule_hep::{Reach, Rule, kept};
use std::alloc::Global;

/// Constant parts of predicates and items are replaced by their values. A filter by TRUE is its input, and one by FALSE is empty.
#[derive(Debug, Drop)]
pub struct ReduceExpressions;

impl ReduceExpressions {
    /// The rule. Takes no memory.
    pub fn new() -> ReduceExpressions
        ensures { ⟦<ReduceExpressions as Rule>⟧.meaning result ≡ reduce_expressions }
    {
        ReduceExpressions
    }
}

impl Rule for ReduceExpressions {
    ghost meaning = { λ rule. reduce_expressions };

    fn name(&self) -> &str {
        "ReduceExpressions"
    }

    fn in_hep(&self) -> bool {
        true
    }

    fn reach(&self) -> Reach {
        Reach::Node
    }

    fn width(&self, _info: &PlanInfo) -> u32 {
        1
    }

    fn apply(
        &self,
        alloc: Global,
        info: &PlanInfo,
        rel: &Rel,
        nth: u32,
    ) -> Result<Option<Rel>, NoMemory> {
        if nth != 0 || type_of(alloc, rel, info)?.is_none() {
            return Ok(None);
        }
        match reduced_tree(alloc, info, rel)? {
            Some(out) => kept(alloc, info, rel, out),
            None => Ok(None),
        }
    }
}

#[tactic(auto, using(cal_rel::proofs::TreeSteps::tree_steps))]
fn reduced_tree(alloc: Global, info: &PlanInfo, rel: &Rel) -> Result<Option<Rel>, NoMemory>
    requires { IsSome (typing.type_of info.now (tree_of rel.now)) }
    ensures { IfOk result (λ made. option_map tree_of made
        ≡ spec.reduced_tree info.now (tree_of rel.now)) }
{
    match rel {
        Rel::Filter { input, predicate } => {
            let Some(t) = type_of(alloc, input.get(), info)? else {
                return Ok(None);
            };
            let made = reduced(alloc, predicate, &t.columns)?;
            reduced_filter(alloc, info, rel, predicate, made, input.get())
        }
        Rel::Project { input, items } => {
            let Some(t) = type_of(alloc, input.get(), info)? else {
                return Ok(None);
            };
            let made = all_reduced(alloc, items, &t.columns)?;
            reduced_project(alloc, items, made, input.get())
        }
        Rel::Scan(_)
        | Rel::TileScan(_)
        | Rel::StarScan { .. }
        | Rel::Join { .. }
        | Rel::Aggregate { .. }
        | Rel::Empty(_)
        | Rel::Hole(_) => Ok(None),
    }
}

fn is_literal(e: &Expr, truth: bool) -> bool
    ensures { result ≡ spec.is_literal truth e.now }
{
    *e == Expr::Literal(Value::Bool(truth))
}

// The filter `rel` of this input by this predicate, where that is reduced to `made`.
#[tactic(auto, using(cal_rel::proofs::TreeSteps::tree_steps))]
fn reduced_filter(
    alloc: Global,
    info: &PlanInfo,
    rel: &Rel,
    predicate: &Expr,
    made: Expr,
    input: &Rel,
) -> Result<Option<Rel>, NoMemory>
    requires { tree_of rel.now ≡ unary (filter_by predicate.now) (tree_of input.now) }
    ensures { IfOk result (λ image. option_map tree_of image
        ≡ spec.reduced_filter info.now predicate.now made (tree_of input.now)) }
{
    if is_literal(&made, true) {
        return Ok(Some(input.copy(alloc)?));
    }
    if is_literal(&made, false) {
        return empty_for(alloc, info, rel);
    }
    if made == *predicate {
        return Ok(None);
    }
    Ok(Some(Rel::filter(alloc, input.copy(alloc)?, made)?))
}

#[tactic(auto, using(cal_rel::proofs::TreeSteps::tree_steps))]
fn reduced_project(
    alloc: Global,
    items: &List<Expr>,
    made: List<Expr>,
    input: &Rel,
) -> Result<Option<Rel>, NoMemory>
    ensures { IfOk result (λ image. option_map tree_of image
        ≡ spec.reduced_project items.now made (tree_of input.now)) }
{
    if made == *items {
        return Ok(None);
    }
    Ok(Some(Rel::project(alloc, input.copy(alloc)?, made)?))
}
