ghost use Rattle.std.specs.Prelude.{◌≡◌, ◌↔◌, [], map, slice_get, option_map, IsSome};
ghost use Rattle.std.specs.Option.{option_copied};
ghost use Rattle.cal_schema.specs.Valid.{IsValidSchema};
ghost use Rattle.cal_rel.specs.Info.{Info, set_at};
ghost use Rattle.cal_rel.specs.Tree.{tree_of};
ghost use Rattle.memo_model.specs.Sets.{IsThere};
ghost use Rattle.memo_model.specs.Sound.{IsSound};
ghost use Rattle.memo_sets.specs.Seen.{member_of, sets_of, seed_there};

use cal_rel::Rel;
use cal_schema::RelType;
use cal_value::{Duplicate, List, NoMemory};
use std::alloc::Global;
use thiserror::Error;

/// A member of a set: a node over sets, which are its holes.
#[derive(Debug, Drop)]
pub struct Member {
    pub set: u32,
    pub rel: Rel,
}

impl Duplicate for Member {
    fn copy(&self, alloc: Global) -> Result<Member, NoMemory> {
        let rel = self.rel.copy(alloc)?;
        Ok(Member { set: self.set, rel })
    }
}

/// Sets of equivalent trees. Each list but that of the members is by the number of a set.
#[derive(Debug, Drop)]
pub struct Memo {
    pub(crate) members: List<Member>,
    pub(crate) seeds: List<Rel>,
    pub(crate) types: List<Option<RelType>>,
    pub(crate) numbers: List<u32>,
    pub(crate) added: u32,
}

/// Why a tree isn't entered.
#[derive(Clone, Copy, Debug, PartialEq, Eq, Error)]
pub enum MemoFault {
    #[error("its new members would pass the limit of {limit}")]
    MemoFull { limit: u32 },
    #[error("out of memory")]
    NoMemory,
}

impl From<NoMemory> for MemoFault {
    ghost use Rattle.std.specs.Prelude.{◌≡◌};
    ghost use Rattle.memo_sets.specs.declared.memo.MemoFault.TheVariants.{NoMemory as Memory};

    ghost from_gives = { λ _ e. e ≡ Memory };

    fn from(_error: NoMemory) -> MemoFault {
        MemoFault::NoMemory
    }
}

impl Memo {
    /// A memo with nothing in it. Takes no memory.
    pub fn new(alloc: Global) -> Memo
        ensures empty { sets_of result
            ≡ record { members = []; seeds = []; types = []; numbers = []; added = 0 } }
        ensures sound { (info : Info) → IsValidSchema info.schema → IsSound info (sets_of result) }
    {
        Memo {
            members: List::new(alloc),
            seeds: List::new(alloc),
            types: List::new(alloc),
            numbers: List::new(alloc),
            added: 0,
        }
    }

    /// How many members were ever added, also those that a merge made equal to others. Takes no memory.
    pub fn added(&self) -> u32
        ensures { result ≡ (sets_of self.now).added }
    {
        self.added
    }

    /// The members of all sets.
    pub fn members(&self) -> &List<Member>
        ensures { map member_of result.now ≡ (sets_of self.now).members }
    {
        &self.members
    }

    /// The type of set k at place k, None for a number that is gone.
    pub fn types(&self) -> &List<Option<RelType>>
        ensures { result.now ≡ (sets_of self.now).types }
    {
        &self.types
    }

    /// The type of a set, None exactly where the set isn't there.
    pub fn set_type(&self, set: u32) -> Option<&RelType>
        ensures { option_copied result ≡ set_at (sets_of self.now).types set }
    {
        match self.types.get(set as usize) {
            Some(Some(t)) => Some(t),
            Some(None) => None,
            None => None,
        }
    }

    /// The seed of a set, None exactly where the set isn't there.
    pub fn seed_of(&self, set: u32) -> Option<&Rel>
        ensures seed { option_map tree_of (option_copied result) ≡ seed_there (sets_of self.now) set }
        ensures exact { (info : Info) → IsSound info (sets_of self.now)
            → IsSome result ↔ IsThere (sets_of self.now).types set }
    {
        match self.set_type(set) {
            Some(_) => self.seeds.get(set as usize),
            None => None,
        }
    }

    /// The set that this number has become by the merges so far, itself where it is there, None exactly for a number
    /// that was never made. Takes no memory.
    pub fn now(&self, set: u32) -> Option<u32>
        ensures { result ≡ slice_get (sets_of self.now).numbers set }
    {
        self.numbers.get(set as usize).copied()
    }
}
