//! Nodes over sets, and trees with others in the place of their holes.
ghost use Rattle.std.specs.Prelude.{◌≡◌, IfOk};
ghost use Rattle.cal_rel.specs.Holes.{renumbered};
ghost use Rattle.cal_rel.specs.Tree.{tree_of, filter_by, project_to, aggregate_by, join_on, unary, binary, hole};
ghost use Rattle.memo_model.specs.Same.{same_tree};
ghost use Rattle.memo_model.specs.Steps.{in_place};

use cal_expr::Expr;
use cal_rel::Rel;
use cal_schema::{AggCall, JoinKind};
use cal_value::{Duplicate, List, NoMemory};
use sqlite_items::Boxed;
use std::alloc::Global;

/// Whether both are one tree.
#[tactic(auto, using(crate::proofs::FoundSteps::same_steps))]
pub fn is_same(first: &Rel, second: &Rel) -> bool
    ensures { result ≡ same_tree (tree_of first.now) (tree_of second.now) }
{
    *first == *second
}

/// The set `kept` in the place of `gone`.
#[tactic(auto, unfolding(memo_model::specs::Steps::in_place))]
pub fn in_place(kept: u32, gone: u32, set: u32) -> u32
    ensures { result ≡ in_place kept gone set }
{
    if set == gone { kept } else { set }
}

#[tactic(auto, using(cal_rel::proofs::TreeSteps::tree_steps))]
pub fn filter_over(alloc: Global, set: u32, predicate: &Expr) -> Result<Rel, NoMemory>
    ensures { IfOk result (λ r. tree_of r ≡ unary (filter_by predicate.now) (hole set)) }
{
    let predicate = predicate.copy(alloc)?;
    Rel::filter(alloc, Rel::Hole(set), predicate)
}

#[tactic(auto, using(cal_rel::proofs::TreeSteps::tree_steps))]
pub fn project_over(alloc: Global, set: u32, items: &List<Expr>) -> Result<Rel, NoMemory>
    ensures { IfOk result (λ r. tree_of r ≡ unary (project_to items.now) (hole set)) }
{
    let items = items.copy(alloc)?;
    Rel::project(alloc, Rel::Hole(set), items)
}

#[tactic(auto, using(cal_rel::proofs::TreeSteps::tree_steps))]
pub fn aggregate_over(
    alloc: Global,
    set: u32,
    groups: &List<u32>,
    calls: &List<AggCall>,
) -> Result<Rel, NoMemory>
    ensures { IfOk result (λ r. tree_of r ≡ unary (aggregate_by groups.now calls.now) (hole set)) }
{
    let groups = groups.copy(alloc)?;
    let calls = calls.copy(alloc)?;
    Rel::aggregate(alloc, Rel::Hole(set), groups, calls)
}

#[tactic(auto, using(cal_rel::proofs::TreeSteps::tree_steps))]
pub fn join_over(
    alloc: Global,
    kind: JoinKind,
    left: u32,
    right: u32,
    on: &Expr,
) -> Result<Rel, NoMemory>
    ensures { IfOk result (λ r. tree_of r ≡ binary (join_on kind on.now) (hole left) (hole right)) }
{
    let on = on.copy(alloc)?;
    Rel::join(alloc, kind, Rel::Hole(left), Rel::Hole(right), on)
}

/// A copy with `kept` in the place of each hole `gone`.
#[tactic(auto, using(cal_rel::proofs::TreeSteps::tree_steps))]
pub fn renumbered(alloc: Global, rel: &Rel, kept: u32, gone: u32) -> Result<Rel, NoMemory>
    ensures { IfOk result (λ r. tree_of r ≡ renumbered (in_place kept gone) (tree_of rel.now)) }
{
    match rel {
        Rel::Scan(table) => Ok(Rel::Scan(*table)),
        Rel::TileScan(at) => Ok(Rel::TileScan(*at)),
        Rel::StarScan { lattice } => Ok(Rel::StarScan { lattice: *lattice }),
        Rel::Filter { input, predicate } => {
            let input = renumbered(alloc, input.get(), kept, gone)?;
            let input = Boxed::new(alloc, input)?;
            Ok(Rel::Filter {
                input,
                predicate: predicate.copy(alloc)?,
            })
        }
        Rel::Project { input, items } => {
            let input = renumbered(alloc, input.get(), kept, gone)?;
            let input = Boxed::new(alloc, input)?;
            Ok(Rel::Project {
                input,
                items: items.copy(alloc)?,
            })
        }
        Rel::Join {
            kind,
            left,
            right,
            on,
        } => {
            let left = renumbered(alloc, left.get(), kept, gone)?;
            let left = Boxed::new(alloc, left)?;
            let right = renumbered(alloc, right.get(), kept, gone)?;
            let right = Boxed::new(alloc, right)?;
            Ok(Rel::Join {
                kind: *kind,
                left,
                right,
                on: on.copy(alloc)?,
            })
        }
        Rel::Aggregate {
            input,
            groups,
            calls,
        } => {
            let input = renumbered(alloc, input.get(), kept, gone)?;
            let input = Boxed::new(alloc, input)?;
            let groups = groups.copy(alloc)?;
            Ok(Rel::Aggregate {
                input,
                groups,
                calls: calls.copy(alloc)?,
            })
        }
        Rel::Empty(types) => Ok(Rel::Empty(types.copy(alloc)?)),
        Rel::Hole(set) => Ok(Rel::Hole(in_place(kept, gone, *set))),
    }
}
