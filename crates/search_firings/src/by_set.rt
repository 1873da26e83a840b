//! The nodes of a memo by their sets.
ghost use Rattle.std.specs.Prelude.{◌≡◌, ◌<◌, ◌++◌, ◌∷◌, ◌==◌, [], ℕ, map, length, cond, IfOk, OnOk};
ghost use Rattle.cal_rel.specs.Tree.{tree_of};
ghost use Rattle.memo_sets.specs.Seen.{member_of};
ghost use Rattle.search_model.specs.Listed.{in_set, inputs};
ghost use Rattle.search_firings.specs.Seen.{nodes_of};

use cal_rel::Rel;
use cal_value::{List, NoMemory};
use memo_sets::Member;
use std::alloc::Global;

/// Copies of the nodes of the set k at place k, in the order of the members.
#[derive(Drop)]
pub struct BySet {
    sets: Vec<List<Rel>>,
}

impl BySet {
    // Makes room for a set.
    #[tactic(auto, using(crate::proofs::BySetSteps::grow_steps))]
    fn grow(&mut self, alloc: Global, set: usize) -> Result<(), NoMemory>
        ensures same { OnOk result ((k : ℕ) → nodes_of self.new k ≡ nodes_of self.old k) }
        ensures within { OnOk result (set < length self.new.sets.items) }
    {
        while self.sets.len() <= set {
            self.sets.push(List::new(alloc))?;
        }
        Ok(())
    }

    // Adds the node of a member behind the others of its set.
    fn add(&mut self, alloc: Global, member: &Member) -> Result<(), NoMemory>
        ensures { OnOk result ((k : ℕ) → nodes_of self.new k
            ≡ nodes_of self.old k ++ cond (member.now.set == k) (tree_of member.now.rel ∷ []) []) }
    {
        let set = member.set as usize;
        self.grow(alloc, set)?;
        self.sets[set].push(member.rel.copy(alloc)?)
    }

    /// The nodes of these members.
    pub fn of(alloc: Global, members: &[Member]) -> Result<BySet, NoMemory>
        ensures { IfOk result (λ nodes. nodes_of nodes ≡ in_set (map member_of members.now)) }
    {
        let mut nodes = BySet {
            sets: Vec::new(alloc),
        };
        for member in members {
            nodes.add(alloc, member)?;
        }
        Ok(nodes)
    }

    // The nodes of a set.
    fn of_set(&self, set: u32) -> &[Rel]
        ensures { map tree_of result.now ≡ nodes_of self.now set }
    {
        match self.sets.get(set as usize) {
            Some(nodes) => nodes.as_slice(),
            None => &[],
        }
    }

    /// Those of the set that a hole names, and none for another tree.
    #[tactic(auto, using(cal_rel::proofs::TreeSteps::tree_steps))]
    pub fn inputs(&self, rel: &Rel) -> &[Rel]
        ensures { map tree_of result.now ≡ inputs (nodes_of self.now) (tree_of rel.now) }
    {
        match rel {
            Rel::Hole(set) => self.of_set(*set),
            Rel::Scan(_)
            | Rel::TileScan(_)
            | Rel::StarScan { .. }
            | Rel::Filter { .. }
            | Rel::Project { .. }
            | Rel::Join { .. }
            | Rel::Aggregate { .. }
            | Rel::Empty(_) => &[],
        }
    }
}
