//! The entering of trees, beside a memo that stays as it is.
ghost use Rattle.std.specs.Prelude.{◌≡◌, ◌<◌, ◌≤◌, ◌++◌, IsTrue, IfOk, OnOk, map, length, slice_index_or};
ghost use Rattle.cal_rel.specs.Holes.{filled};
ghost use Rattle.cal_rel.specs.Tree.{tree_of, hole};
ghost use Rattle.memo_model.specs.Sets.{seed_at};
ghost use Rattle.memo_model.specs.Steps.{found, narrowed, pushed, with_set};
ghost use Rattle.memo_sets.specs.Seen.{member_of, sets_of, drafted, with_draft, IsTypesAlone, HasRoom};

use crate::memo::{Member, Memo};
use crate::nodes::is_same;
use crate::types::narrow_type;
use cal_rel::Rel;
use cal_schema::RelType;
use cal_value::{Duplicate, List, NoMemory};
use memo_model::MEMBER_LIMIT;
use sqlite_items::Boxed;
use std::alloc::Global;
use std::mem;

/// What a tree adds to a memo, its base: members and sets behind those of the base, and the types of all sets.
#[derive(Drop)]
pub struct Draft {
    pub members: List<Member>,
    pub seeds: List<Rel>,
    pub types: List<Option<RelType>>,
    pub numbers: List<u32>,
    pub added: u32,
}

/// A draft that is finished: where it adds nothing but types, these alone.
#[derive(Drop)]
pub enum Finished {
    Types(List<Option<RelType>>),
    Whole(Memo),
}

/// The set of the first member with that node.
#[tactic(auto, using(crate::proofs::FoundSteps::found_steps))]
fn found(members: &[Member], node: &Rel) -> Option<u32>
    ensures { result ≡ found (tree_of node.now) (map member_of members.now) }
{
    for member in members {
        if is_same(&member.rel, node) {
            return Some(member.set);
        }
    }
    None
}

impl Draft {
    /// Nothing more than the base.
    pub fn over(alloc: Global, base: &Memo) -> Result<Draft, NoMemory>
        ensures { IfOk result (λ draft. drafted base.now draft ≡ sets_of base.now) }
    {
        let types = base.types.copy(alloc)?;
        Ok(Draft {
            members: List::new(alloc),
            seeds: List::new(alloc),
            types,
            numbers: List::new(alloc),
            added: base.added,
        })
    }

    /// The set of the member with that node.
    #[tactic(auto, using(crate::proofs::FoundSteps::found_append))]
    pub fn found(&self, base: &Memo, node: &Rel) -> Option<u32>
        ensures { result ≡ found (tree_of node.now) (drafted base.now self.now).members }
    {
        match found(base.members.as_slice(), node) {
            Some(set) => Some(set),
            None => found(self.members.as_slice(), node),
        }
    }

    #[tactic(auto, using(crate::proofs::SeedSteps::seed_steps))]
    fn seed_of(&self, alloc: Global, base: &Memo, set: u32) -> Result<Rel, NoMemory>
        ensures { IfOk result (λ r. tree_of r ≡ seed_at (drafted base.now self.now).seeds set) }
    {
        let count = base.seeds.len();
        let at = set as usize;
        if at < count {
            copy_of(alloc, &base.seeds, at, set)
        } else {
            copy_of(alloc, &self.seeds, at - count, set)
        }
    }

    /// A copy with the seeds of the sets in the place of its holes.
    #[tactic(auto, using(cal_rel::proofs::TreeSteps::tree_steps))]
    fn filled(&self, alloc: Global, base: &Memo, rel: &Rel) -> Result<Rel, NoMemory>
        ensures { IfOk result (λ r. tree_of r
            ≡ filled (seed_at (drafted base.now self.now).seeds) (tree_of rel.now)) }
    {
        match rel {
            Rel::Scan(table) => Ok(Rel::Scan(*table)),
            Rel::TileScan(at) => Ok(Rel::TileScan(*at)),
            Rel::StarScan { lattice } => Ok(Rel::StarScan { lattice: *lattice }),
            Rel::Filter { input, predicate } => {
                let input = Boxed::new(alloc, self.filled(alloc, base, input.get())?)?;
                Ok(Rel::Filter {
                    input,
                    predicate: predicate.copy(alloc)?,
                })
            }
            Rel::Project { input, items } => {
                let input = Boxed::new(alloc, self.filled(alloc, base, input.get())?)?;
                Ok(Rel::Project {
                    input,
                    items: items.copy(alloc)?,
                })
            }
            Rel::Join {
                kind,
                left,
                right,
                on,
            } => {
                let left = Boxed::new(alloc, self.filled(alloc, base, left.get())?)?;
                let right = Boxed::new(alloc, self.filled(alloc, base, right.get())?)?;
                Ok(Rel::Join {
                    kind: *kind,
                    left,
                    right,
                    on: on.copy(alloc)?,
                })
            }
            Rel::Aggregate {
                input,
                groups,
                calls,
            } => {
                let input = Boxed::new(alloc, self.filled(alloc, base, input.get())?)?;
                let groups = groups.copy(alloc)?;
                Ok(Rel::Aggregate {
                    input,
                    groups,
                    calls: calls.copy(alloc)?,
                })
            }
            Rel::Empty(types) => Ok(Rel::Empty(types.copy(alloc)?)),
            Rel::Hole(set) => self.seed_of(alloc, base, *set),
        }
    }

    /// The type of a set is also `own`.
    pub fn narrow(
        &mut self,
        alloc: Global,
        base: &Memo,
        set: u32,
        own: &Option<RelType>,
    ) -> Result<(), NoMemory>
        ensures { OnOk result (drafted base.now self.new
            ≡ narrowed set own.now (drafted base.now self.old)) }
    {
        let types = mem::replace(&mut self.types, List::new(alloc));
        self.types = narrow_type(alloc, types, set, own)?;
        let _ = base;
        Ok(())
    }

    /// One more member of a set.
    #[tactic(auto, using(crate::proofs::SeedSteps::push_steps))]
    pub fn push_member(&mut self, base: &Memo, set: u32, node: Rel) -> Result<(), NoMemory>
        requires { (drafted base.now self.old).added < MEMBER_LIMIT }
        ensures { OnOk result (drafted base.now self.new
            ≡ pushed set (tree_of node) (drafted base.now self.old)) }
    {
        self.members.push(Member { set, rel: node })?;
        self.added += 1;
        let _ = base;
        Ok(())
    }

    /// One more set, of this node alone.
    #[tactic(auto, using(crate::proofs::SeedSteps::push_steps))]
    pub fn push_set(
        &mut self,
        alloc: Global,
        base: &Memo,
        node: Rel,
        own: Option<RelType>,
    ) -> Result<u32, NoMemory>
        requires room { HasRoom (drafted base.now self.old) }
        requires limit { (drafted base.now self.old).added < MEMBER_LIMIT }
        ensures set { IfOk result (λ set. set ≡ length (drafted base.now self.old).types) }
        ensures sets { OnOk result (drafted base.now self.new
            ≡ with_set (tree_of node) own (drafted base.now self.old)) }
    {
        let set = self.types.len() as u32;
        let seed = self.filled(alloc, base, &node)?;
        self.members.push(Member { set, rel: node })?;
        self.seeds.push(seed)?;
        self.types.push(own)?;
        self.numbers.push(set)?;
        self.added += 1;
        Ok(set)
    }

    /// The base with what the draft adds, as a memo of its own.
    pub fn whole(self, alloc: Global, base: &Memo) -> Result<Memo, NoMemory>
        ensures { IfOk result (λ memo. sets_of memo ≡ drafted base.now self) }
    {
        let members = appended(base.members.copy(alloc)?, self.members)?;
        let seeds = appended(base.seeds.copy(alloc)?, self.seeds)?;
        let numbers = appended(base.numbers.copy(alloc)?, self.numbers)?;
        Ok(Memo {
            members,
            seeds,
            types: self.types,
            numbers,
            added: self.added,
        })
    }

    fn is_types_alone(&self, base: &Memo) -> bool
        ensures { IsTrue result → IsTypesAlone base.now self.now }
    {
        self.members.is_empty()
            && self.seeds.is_empty()
            && self.numbers.is_empty()
            && self.added == base.added
    }

    /// Its types alone, where it adds nothing else.
    pub fn finished(self, alloc: Global, base: &Memo) -> Result<Finished, NoMemory>
        ensures { IfOk result (λ f. with_draft (sets_of base.now) f ≡ drafted base.now self) }
    {
        if self.is_types_alone(base) {
            Ok(Finished::Types(self.types))
        } else {
            let memo = self.whole(alloc, base)?;
            Ok(Finished::Whole(memo))
        }
    }
}

fn appended<T: Drop>(mut list: List<T>, more: List<T>) -> Result<List<T>, NoMemory>
    ensures { IfOk result (λ all. all ≡ list ++ more) }
{
    for item in more.into_vec() {
        list.push(item)?;
    }
    Ok(list)
}

// The seed at a place, or where there is none the hole.
#[tactic(auto, using(crate::proofs::SeedSteps::copy_steps))]
fn copy_of(alloc: Global, seeds: &List<Rel>, at: usize, set: u32) -> Result<Rel, NoMemory>
    ensures { IfOk result (λ r. tree_of r ≡ slice_index_or (map tree_of seeds.now) at (hole set)) }
{
    match seeds.get(at) {
        Some(seed) => seed.copy(alloc),
        None => Ok(Rel::Hole(set)),
    }
}
