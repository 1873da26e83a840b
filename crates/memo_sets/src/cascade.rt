//! Sets become one, until no expression occurs twice.
ghost use Rattle.std.specs.Prelude.{◌≡◌, ◌<◌, IfOk, OnOk, MatchOption, map, length, slice_index_or};
ghost use Rattle.cal_rel.specs.Info.{Info};
ghost use Rattle.memo_model.specs.Sets as plain;
ghost use Rattle.memo_model.specs.Sets.{became};
ghost use Rattle.memo_model.specs.Sound.{IsCoherent, IsUnique, MayMerge};
ghost use Rattle.memo_model.specs.Relations.{IsTwice, IsFirst, Settles};
ghost use Rattle.memo_model.specs.Steps.{in_place, moved, merged, united, without};
ghost use Rattle.memo_sets.specs.Seen.{member_of, sets_of, HasRoom};

use crate::memo::{Member, Memo};
use crate::nodes::{in_place, is_same, renumbered};
use crate::types::{met, put_type, type_at};
use cal_value::{List, NoMemory};
use std::alloc::Global;
use std::mem;

#[tactic(auto, using(crate::proofs::SeedSteps::push_steps))]
fn moved_members(
    alloc: Global,
    members: &[Member],
    kept: u32,
    gone: u32,
) -> Result<List<Member>, NoMemory>
    ensures { IfOk result (λ all. map member_of all
        ≡ map (moved kept gone) (map member_of members.now)) }
{
    let mut all = List::new(alloc);
    for member in members {
        all.push(Member {
            set: in_place(kept, gone, member.set),
            rel: renumbered(alloc, &member.rel, kept, gone)?,
        })?;
    }
    Ok(all)
}

fn moved_numbers(
    alloc: Global,
    numbers: &[u32],
    kept: u32,
    gone: u32,
) -> Result<List<u32>, NoMemory>
    ensures { IfOk result (λ all. all ≡ map (in_place kept gone) numbers.now) }
{
    let mut all = List::new(alloc);
    for number in numbers {
        all.push(in_place(kept, gone, *number))?;
    }
    Ok(all)
}

/// The first place before `j` with the expression of `j`.
fn first_same(members: &[Member], j: usize) -> Option<usize>
    requires { j < length members.now }
    ensures { MatchOption result (IsFirst (map member_of members.now) j)
        (λ i. IsTwice (map member_of members.now) i j) }
{
    let last = &members[j];
    for i in 0..j {
        if is_same(&members[i].rel, &last.rel) {
            return Some(i);
        }
    }
    None
}

/// The set of the member at a place.
fn set_of(members: &[Member], i: usize) -> u32
    requires { i < length members.now }
    ensures { (d : plain.Member) → (slice_index_or (map member_of members.now) i d).set ≡ result }
{
    members[i].set
}

impl Memo {
    /// The set `gone` becomes the set `kept`.
    fn merge(&mut self, alloc: Global, kept: u32, gone: u32) -> Result<(), NoMemory>
        ensures { OnOk result (sets_of self.new ≡ merged kept gone (sets_of self.old)) }
    {
        let members = moved_members(alloc, self.members.as_slice(), kept, gone)?;
        let numbers = moved_numbers(alloc, self.numbers.as_slice(), kept, gone)?;
        let first = type_at(alloc, &self.types, kept)?;
        let second = type_at(alloc, &self.types, gone)?;
        let both = met(alloc, first, &second)?;
        let types = mem::replace(&mut self.types, List::new(alloc));
        self.types = put_type(put_type(types, kept, both), gone, None);
        self.members = members;
        self.numbers = numbers;
        Ok(())
    }

    /// Two sets become one, under the lower number.
    #[tactic(auto, unfolding(memo_model::specs::Steps::united))]
    fn unite(&mut self, alloc: Global, a: u32, b: u32) -> Result<(), NoMemory>
        ensures { OnOk result (sets_of self.new ≡ united a b (sets_of self.old)) }
    {
        if a < b {
            self.merge(alloc, a, b)
        } else if b < a {
            self.merge(alloc, b, a)
        } else {
            Ok(())
        }
    }

    /// Two places with one expression.
    fn twice(&self) -> Option<(usize, usize)>
        ensures { MatchOption result (IsUnique (sets_of self.now).members)
            (λ p. IsTwice (sets_of self.now).members p.0 p.1) }
    {
        let members = self.members.as_slice();
        for j in 0..members.len() {
            if let Some(i) = first_same(members, j) {
                return Some((i, j));
            }
        }
        None
    }

    #[tactic(auto, using(crate::proofs::SeedSteps::remove_steps))]
    fn drop_member(&mut self, alloc: Global, j: usize)
        requires { j < length (sets_of self.old).members }
        ensures { sets_of self.new ≡ without j (sets_of self.old) }
    {
        let mut items = mem::replace(&mut self.members, List::new(alloc)).into_vec();
        items.remove(j);
        self.members = List::from_vec(items);
    }

    /// Of two places with one expression the sets become one, and the later place goes.
    fn join(&mut self, alloc: Global, i: usize, j: usize) -> Result<(), NoMemory>
        requires { IsTwice (sets_of self.old).members i j }
        ensures settles { OnOk result ((info : Info) → IsCoherent info (sets_of self.old)
            → Settles info (sets_of self.old) (sets_of self.new)) }
        ensures fewer { OnOk result
            (length (sets_of self.new).members < length (sets_of self.old).members) }
        ensures room { OnOk result (HasRoom (sets_of self.old) → HasRoom (sets_of self.new)) }
    {
        let first = set_of(self.members.as_slice(), i);
        let second = set_of(self.members.as_slice(), j);
        self.unite(alloc, first, second)?;
        self.drop_member(alloc, j);
        Ok(())
    }

    /// Sets become one until no expression occurs twice.
    fn settle(&mut self, alloc: Global) -> Result<(), NoMemory>
        ensures settles { OnOk result ((info : Info) → IsCoherent info (sets_of self.old)
            → Settles info (sets_of self.old) (sets_of self.new)) }
        ensures unique { OnOk result (IsUnique (sets_of self.new).members) }
        ensures room { OnOk result (HasRoom (sets_of self.old) → HasRoom (sets_of self.new)) }
    {
        while let Some((i, j)) = self.twice() {
            self.join(alloc, i, j)?;
        }
        Ok(())
    }

    /// The sets become one, and then sets become one until no expression occurs twice.
    pub(crate) fn merge_sets(&mut self, alloc: Global, a: u32, b: u32) -> Result<(), NoMemory>
        ensures settles { OnOk result ((info : Info) → IsCoherent info (sets_of self.old)
            → MayMerge info (sets_of self.old) a b → Settles info (sets_of self.old) (sets_of self.new)
            × (became (sets_of self.new).numbers a ≡ became (sets_of self.new).numbers b)) }
        ensures unique { OnOk result (IsUnique (sets_of self.new).members) }
        ensures room { OnOk result (HasRoom (sets_of self.old) → HasRoom (sets_of self.new)) }
    {
        self.unite(alloc, a, b)?;
        self.settle(alloc)?;
        Ok(())
    }
}
