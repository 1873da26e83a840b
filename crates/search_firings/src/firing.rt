//! Firings, and copies with the numbers that sets have become.
ghost use Rattle.std.specs.Prelude.{◌≡◌, IfOk};
ghost use Rattle.cal_rel.specs.Holes as trees;
ghost use Rattle.cal_rel.specs.Tree.{tree_of, filter_by, project_to, aggregate_by, join_on, unary, binary};
ghost use Rattle.memo_model.specs.Sets.{became};
ghost use Rattle.memo_sets.specs.Seen.{sets_of};
ghost use Rattle.search_model.specs.Firings.{renumbered};
ghost use Rattle.search_firings.specs.Digest as spec;
ghost use Rattle.search_firings.specs.Seen.{firing_of};

use crate::digest::{mixed, rel_digest};
use cal_expr::Expr;
use cal_rel::{AggCall, JoinKind, Rel};
use cal_value::{Duplicate, List, NoMemory};
use memo_sets::Memo;
use std::alloc::Global;
use std::hash::{Hash, Hasher};

/// A rule by its place in the list, the number of an image from 0, a binding, and the set of the binding's member.
#[derive(Debug, Drop)]
pub struct Firing {
    pub rule: u32,
    pub nth: u32,
    pub binding: Rel,
    pub set: u32,
}

/// The set that a number has become. A number that was never made stays.
#[tactic(auto, using(crate::proofs::NumberSteps::number_steps))]
fn number(memo: &Memo, set: u32) -> u32
    ensures { result ≡ became (sets_of memo.now).numbers set }
{
    memo.now(set).unwrap_or(set)
}

#[tactic(auto, using(cal_rel::proofs::TreeSteps::tree_steps))]
fn filter_over(alloc: Global, input: Rel, predicate: &Expr) -> Result<Rel, NoMemory>
    ensures { IfOk result (λ r. tree_of r ≡ unary (filter_by predicate.now) (tree_of input)) }
{
    let predicate = predicate.copy(alloc)?;
    Rel::filter(alloc, input, predicate)
}

#[tactic(auto, using(cal_rel::proofs::TreeSteps::tree_steps))]
fn project_over(alloc: Global, input: Rel, items: &List<Expr>) -> Result<Rel, NoMemory>
    ensures { IfOk result (λ r. tree_of r ≡ unary (project_to items.now) (tree_of input)) }
{
    let items = items.copy(alloc)?;
    Rel::project(alloc, input, items)
}

#[tactic(auto, using(cal_rel::proofs::TreeSteps::tree_steps))]
fn aggregate_over(
    alloc: Global,
    input: Rel,
    groups: &List<u32>,
    calls: &List<AggCall>,
) -> Result<Rel, NoMemory>
    ensures { IfOk result
        (λ r. tree_of r ≡ unary (aggregate_by groups.now calls.now) (tree_of input)) }
{
    let groups = groups.copy(alloc)?;
    let calls = calls.copy(alloc)?;
    Rel::aggregate(alloc, input, groups, calls)
}

#[tactic(auto, using(cal_rel::proofs::TreeSteps::tree_steps))]
fn join_over(
    alloc: Global,
    kind: JoinKind,
    left: Rel,
    right: Rel,
    on: &Expr,
) -> Result<Rel, NoMemory>
    ensures { IfOk result
        (λ r. tree_of r ≡ binary (join_on kind on.now) (tree_of left) (tree_of right)) }
{
    let on = on.copy(alloc)?;
    Rel::join(alloc, kind, left, right, on)
}

/// A copy with the numbers that sets have become.
#[tactic(auto, using(cal_rel::proofs::TreeSteps::tree_steps))]
fn numbered(alloc: Global, rel: &Rel, memo: &Memo) -> Result<Rel, NoMemory>
    ensures { IfOk result (λ r. tree_of r
        ≡ trees.renumbered (became (sets_of memo.now).numbers) (tree_of rel.now)) }
{
    match rel {
        Rel::Scan(table) => Ok(Rel::Scan(*table)),
        Rel::TileScan(at) => Ok(Rel::TileScan(*at)),
        Rel::StarScan { lattice } => Ok(Rel::StarScan { lattice: *lattice }),
        Rel::Filter { input, predicate } => {
            let input = numbered(alloc, input.get(), memo)?;
            filter_over(alloc, input, predicate)
        }
        Rel::Project { input, items } => {
            let input = numbered(alloc, input.get(), memo)?;
            project_over(alloc, input, items)
        }
        Rel::Join {
            kind,
            left,
            right,
            on,
        } => {
            let left = numbered(alloc, left.get(), memo)?;
            let right = numbered(alloc, right.get(), memo)?;
            join_over(alloc, *kind, left, right, on)
        }
        Rel::Aggregate {
            input,
            groups,
            calls,
        } => {
            let input = numbered(alloc, input.get(), memo)?;
            aggregate_over(alloc, input, groups, calls)
        }
        Rel::Empty(types) => Ok(Rel::Empty(types.copy(alloc)?)),
        Rel::Hole(set) => Ok(Rel::Hole(number(memo, *set))),
    }
}

impl Firing {
    /// A copy with the numbers that sets have become in this memo.
    pub fn renumbered(&self, alloc: Global, memo: &Memo) -> Result<Firing, NoMemory>
        ensures { IfOk result (λ r. firing_of r
            ≡ renumbered (became (sets_of memo.now).numbers) (firing_of self.now)) }
    {
        Ok(Firing {
            rule: self.rule,
            nth: self.nth,
            binding: numbered(alloc, &self.binding, memo)?,
            set: number(memo, self.set),
        })
    }

    fn digest(&self) -> u64
        ensures { result ≡ spec.digest self.now }
    {
        let place = mixed(self.rule as u64, self.nth as u64);
        mixed(mixed(place, self.set as u64), rel_digest(&self.binding))
    }
}

impl PartialEq for Firing {
    ghost use Rattle.std.specs.Cmp.{partial_equiv_from_equiv};
    ghost use Rattle.search_firings.specs.Equal.{firing_eq};
    ghost use Rattle.search_firings.specs.EqualLaws.{firing_eq_equiv};

    ghost eq = { firing_eq };

    ghost laws = { partial_equiv_from_equiv firing_eq_equiv };

    fn eq(&self, other: &Firing) -> bool {
        self.rule == other.rule
            && self.nth == other.nth
            && self.set == other.set
            && self.binding == other.binding
    }
}

impl Eq for Firing {
    ghost use Rattle.search_firings.specs.EqualLaws.{firing_eq_equiv};

    ghost laws = { firing_eq_equiv };
}

impl Hash for Firing {
    ghost use Rattle.std.specs.Hash as fed;
    ghost use Rattle.search_firings.specs.Digest.{digest};
    ghost use Rattle.search_firings.specs.EqualLaws.{firing_Alike};

    ghost hash_input = { λ f. fed.u64 (digest f) };

    ghost respects_eq = { firing_Alike.fed };

    fn hash<H: Hasher>(&self, state: &mut H) {
        self.digest().hash(state);
    }
}
