//! The memo with which a search begins.
ghost use Rattle.std.specs.Prelude.{◌≡◌, ◌≤◌, IfOk, MatchOption, IsSome, []};
ghost use Rattle.cal_schema.specs.Valid.{IsValidSchema};
ghost use Rattle.cal_rel.specs.Holes.{EachHole};
ghost use Rattle.cal_rel.specs.Tree.{tree_of};
ghost use Rattle.cal_rel.specs.Typing.{type_of};
ghost use Rattle.memo_model.specs.declared.TheConstants.{MEMBER_LIMIT};
ghost use Rattle.memo_sets.specs.Seen.{sets_of};
ghost use Rattle.select_planning.specs.Start.{IsTooLarge, IsStarted};

use cal_rel::{PlanInfo, Rel};
use cal_value::NoMemory;
use memo_sets::{Memo, MemoFault};
use std::alloc::Global;

/// A memo with the tree in it, and the number of the set that it was given; None where the tree is too large for a memo.
pub fn seeded(alloc: Global, info: &PlanInfo, tree: &Rel) -> Result<Option<(Memo, u32)>, NoMemory>
    requires valid { IsValidSchema info.now.schema }
    requires sets { info.now.sets ≡ [] }
    requires well_formed { IsSome (type_of info.now (tree_of tree.now)) }
    requires no_hole { EachHole (λ k. ⊥) (tree_of tree.now) }
    ensures { IfOk result (λ made. MatchOption made (IsTooLarge info.now (tree_of tree.now))
        (λ p. IsStarted info.now (tree_of tree.now) (sets_of p.0) p.1)) }
{
    let mut memo = Memo::new(alloc);
    match memo.seed(alloc, tree, info) {
        Ok(set) => Ok(Some((memo, set))),
        Err(MemoFault::MemoFull { .. }) => Ok(None),
        Err(MemoFault::NoMemory) => Err(NoMemory),
    }
}
