//! Trees are made to stand in sets.
ghost use Rattle.std.specs.Prelude.{◌≡◌, IfOk, OnOk, IfErr, OnErr, Some, None};
ghost use Rattle.cal_rel.specs.Tree.{tree_of};
ghost use Rattle.memo_model.specs.Sound.{IsSound, MayRegister};
ghost use Rattle.memo_model.specs.Steps.{entered};
ghost use Rattle.memo_sets.specs.Seen.{sets_of, with_draft, HasRoom};
ghost use Rattle.memo_sets.specs.Faults.{IsFaultOf};
ghost use Rattle.memo_sets.specs.Answers.{IsSeeded, IsRegistered, IsPlacedBy, IsPlacedUnlessMerged, IsAnswer, IsAnswerIn};

use crate::draft::{Draft, Finished};
use crate::memo::{Memo, MemoFault};
use cal_rel::{PlanInfo, Rel};
use cal_value::NoMemory;
use std::alloc::Global;

/// How an expression came into its set: Added and Known tell the set, Merged the first merge alone; `Memo::now` tells what
/// its numbers have become by further ones.
#[derive(Clone, Copy, Debug, PartialEq, Eq)]
pub enum Registered {
    Added(u32),
    Known(u32),
    Merged { kept: u32, gone: u32 },
}

fn answer_in(set: u32, before: u32, after: u32) -> Registered
    ensures { IsAnswerIn set before after result }
{
    if before == after {
        Registered::Known(set)
    } else {
        Registered::Added(set)
    }
}

impl Memo {
    /// Takes what a draft over it has come to.
    fn take(&mut self, finished: Finished)
        ensures { sets_of self.new ≡ with_draft (sets_of self.old) finished }
    {
        match finished {
            Finished::Types(types) => self.types = types,
            Finished::Whole(memo) => *self = memo,
        }
    }

    /// `seed` of any memo with room.
    pub(crate) fn seeded(
        &mut self,
        alloc: Global,
        rel: &Rel,
        info: &PlanInfo,
    ) -> Result<u32, MemoFault>
        requires { HasRoom (sets_of self.old) }
        ensures done { IfOk result (λ set. IsSound info.now (sets_of self.old)
            → IsSeeded info.now (sets_of self.old) (sets_of self.new) (tree_of rel.now) set) }
        ensures room { OnOk result (HasRoom (sets_of self.new)) }
        ensures entered { IfOk result (IsPlacedBy
            (entered info.now None (tree_of rel.now) (sets_of self.old)) (sets_of self.new)) }
        ensures fault { IfErr result
            (IsFaultOf (entered info.now None (tree_of rel.now) (sets_of self.old)).sets) }
        ensures unchanged { OnErr result (sets_of self.new ≡ sets_of self.old) }
    {
        let mut draft = Draft::over(alloc, self)?;
        let set = match draft.enter(alloc, self, info, None, rel) {
            Ok(set) => set,
            Err(fault) => return Err(fault),
        };
        let finished = draft.finished(alloc, self)?;
        self.take(finished);
        Ok(set)
    }

    /// Enters a tree, its inputs before the root and the left one before the right one; the set in which it stands is
    /// answered. After a fault the memo is as before.
    pub fn seed(&mut self, alloc: Global, rel: &Rel, info: &PlanInfo) -> Result<u32, MemoFault>
        requires { IsSound info.now (sets_of self.old) }
        ensures done { IfOk result (λ set.
            IsSeeded info.now (sets_of self.old) (sets_of self.new) (tree_of rel.now) set) }
        ensures entered { IfOk result (IsPlacedBy
            (entered info.now None (tree_of rel.now) (sets_of self.old)) (sets_of self.new)) }
        ensures fault { IfErr result
            (IsFaultOf (entered info.now None (tree_of rel.now) (sets_of self.old)).sets) }
        ensures unchanged { OnErr result (sets_of self.new ≡ sets_of self.old) }
    {
        self.seeded(alloc, rel, info)
    }

    /// `register` of any memo with room.
    pub(crate) fn registered(
        &mut self,
        alloc: Global,
        set: u32,
        rel: &Rel,
        info: &PlanInfo,
    ) -> Result<Registered, MemoFault>
        requires { HasRoom (sets_of self.old) }
        ensures done { OnOk result (IsSound info.now (sets_of self.old)
            → MayRegister info.now (sets_of self.old) (tree_of rel.now) set
            → IsRegistered info.now (sets_of self.old) (sets_of self.new) (tree_of rel.now) set) }
        ensures answer { IfOk result (λ answer. IsSound info.now (sets_of self.old)
            → MayRegister info.now (sets_of self.old) (tree_of rel.now) set
            → IsAnswer (sets_of self.old).members (tree_of rel.now) set answer) }
        ensures room { OnOk result (HasRoom (sets_of self.new)) }
        ensures entered { IfOk result (IsPlacedUnlessMerged
            (entered info.now (Some set) (tree_of rel.now) (sets_of self.old)) (sets_of self.new)) }
        ensures fault { IfErr result
            (IsFaultOf (entered info.now (Some set) (tree_of rel.now) (sets_of self.old)).sets) }
        ensures unchanged { OnErr result (sets_of self.new ≡ sets_of self.old) }
    {
        let mut draft = Draft::over(alloc, self)?;
        let found = match draft.enter(alloc, self, info, Some(set), rel) {
            Ok(found) => found,
            Err(fault) => return Err(fault),
        };
        if found == set {
            let answer = answer_in(set, self.added, draft.added);
            let finished = draft.finished(alloc, self)?;
            self.take(finished);
            Ok(answer)
        } else {
            let mut next = draft.whole(alloc, self)?;
            next.merge_sets(alloc, found, set)?;
            *self = next;
            Ok(Registered::Merged {
                kept: found.min(set),
                gone: found.max(set),
            })
        }
    }

    /// Makes the tree stand in the set, which means the same. After a fault the memo is as before.
    pub fn register(
        &mut self,
        alloc: Global,
        set: u32,
        rel: &Rel,
        info: &PlanInfo,
    ) -> Result<Registered, MemoFault>
        requires sound { IsSound info.now (sets_of self.old) }
        requires may { MayRegister info.now (sets_of self.old) (tree_of rel.now) set }
        ensures done { OnOk result
            (IsRegistered info.now (sets_of self.old) (sets_of self.new) (tree_of rel.now) set) }
        ensures answer { IfOk result (IsAnswer (sets_of self.old).members (tree_of rel.now) set) }
        ensures entered { IfOk result (IsPlacedUnlessMerged
            (entered info.now (Some set) (tree_of rel.now) (sets_of self.old)) (sets_of self.new)) }
        ensures fault { IfErr result
            (IsFaultOf (entered info.now (Some set) (tree_of rel.now) (sets_of self.old)).sets) }
        ensures unchanged { OnErr result (sets_of self.new ≡ sets_of self.old) }
    {
        self.registered(alloc, set, rel, info)
    }
}
