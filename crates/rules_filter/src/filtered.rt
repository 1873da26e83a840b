//! Filters made of conjuncts.
ghost use Rattle.std.specs.Prelude.{◌≡◌, ◌++◌, IfOk};
ghost use Rattle.cal_rel.specs.Tree.{tree_of};
ghost use Rattle.filter_images.specs.Filtered as spec;
ghost use Rattle.filter_images.specs.FilterIntoJoin as moves;

use crate::sides::{Side, those_on};
use cal_expr::Expr;
use cal_rel::Rel;
use cal_value::{Duplicate, List, NoMemory};
use expr_parts::{conjunction, conjuncts_of};
use std::alloc::Global;

/// The rows of which each conjunct is TRUE. Without a conjunct no filter is made.
#[tactic(auto, using(cal_rel::proofs::TreeSteps::tree_steps))]
pub(crate) fn filtered(alloc: Global, conjuncts: List<Expr>, input: Rel) -> Result<Rel, NoMemory>
    ensures { IfOk result (λ t. tree_of t ≡ spec.filtered conjuncts (tree_of input)) }
{
    match conjuncts.as_slice() {
        [] => Ok(input),
        [_, ..] => {
            let predicate = conjunction(alloc, conjuncts)?;
            Rel::filter(alloc, input, predicate)
        }
    }
}

fn is_same_filter(alloc: Global, predicate: &Expr, conjuncts: List<Expr>) -> Result<bool, NoMemory>
    ensures { IfOk result (λ same. same ≡ spec.is_same_filter predicate.now conjuncts) }
{
    match conjuncts.as_slice() {
        [] => Ok(false),
        [_, ..] => {
            let whole = conjunction(alloc, conjuncts)?;
            Ok(whole == *predicate)
        }
    }
}

/// Whether no conjunct is on the left side, whose rows have so many columns, and a filter made of the conjuncts is the one that
/// is there.
pub(crate) fn stays_above(alloc: Global, predicate: &Expr, width: usize) -> Result<bool, NoMemory>
    ensures { IfOk result (λ stays. stays ≡ moves.stays_above width predicate.now) }
{
    let conjuncts = conjuncts_of(alloc, predicate)?;
    let moved = those_on(alloc, &conjuncts, width, Side::Left)?;
    let others = those_on(alloc, &conjuncts, width, Side::NotLeft)?;
    match moved.as_slice() {
        [] => is_same_filter(alloc, predicate, others),
        [_, ..] => Ok(false),
    }
}

/// These conjuncts and then those.
pub(crate) fn joined(mut conjuncts: List<Expr>, more: List<Expr>) -> Result<List<Expr>, NoMemory>
    ensures { IfOk result (λ all. all ≡ conjuncts ++ more) }
{
    for conjunct in more.into_vec() {
        conjuncts.push(conjunct)?;
    }
    Ok(conjuncts)
}
