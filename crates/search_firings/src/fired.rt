//! The firings of a search, in order, and whether a triple is among them.
ghost use Rattle.std.specs.Prelude.{◌≡◌, [], map, length, IfOk, OnOk, OnErr};
ghost use Rattle.memo_model.specs.Sets.{became};
ghost use Rattle.memo_sets.specs.Seen.{sets_of};
ghost use Rattle.search_model.specs.Search.{among, joined, gathered};
ghost use Rattle.search_firings.specs.Seen.{firing_of, firings_of};

use crate::firing::Firing;
use cal_value::{List, NoMemory};
use indexmap::IndexSet;
use memo_sets::Memo;
use std::alloc::Global;

/// Firings in order, each once, which are looked up by hashing.
#[derive(Debug, Drop)]
pub struct Fired {
    firings: IndexSet<Firing>,
}

impl Fired {
    /// No firings. Takes no memory.
    pub fn new(alloc: Global) -> Fired
        ensures { firings_of result ≡ [] }
    {
        Fired {
            firings: IndexSet::new(alloc),
        }
    }

    /// How many there are.
    pub fn len(&self) -> usize
        ensures { result ≡ length (firings_of self.now) }
    {
        self.firings.len()
    }

    /// The firings in their order.
    pub fn as_slice(&self) -> &[Firing]
        ensures { map firing_of result.now ≡ firings_of self.now }
    {
        self.firings.as_slice()
    }

    /// Whether it is one of them, by its digest and then whole. Takes no memory.
    pub fn has(&self, firing: &Firing) -> bool
        ensures { result ≡ among (firing_of firing.now) (firings_of self.now) }
    {
        self.firings.contains(firing)
    }

    /// Adds it at the end, where it isn't there yet.
    pub fn push(&mut self, firing: Firing) -> Result<(), NoMemory>
        ensures joined { OnOk result
            (firings_of self.new ≡ joined (firings_of self.old) (firing_of firing)) }
        ensures unchanged { OnErr result (firings_of self.new ≡ firings_of self.old) }
    {
        self.firings.insert(firing)?;
        Ok(())
    }

    // The firings with the numbers that sets have become, each at its earliest place.
    #[tactic(auto, using(crate::proofs::FiredSteps::gather_steps))]
    fn gathered(&self, alloc: Global, memo: &Memo) -> Result<Fired, NoMemory>
        ensures { IfOk result (λ all. firings_of all
            ≡ gathered (became (sets_of memo.now).numbers) [] (firings_of self.now)) }
    {
        let mut all = Fired::new(alloc);
        for firing in self.firings.as_slice() {
            all.push(firing.renumbered(alloc, memo)?)?;
        }
        Ok(all)
    }

    /// Gives them the numbers that sets have become in this memo. Those that became one stand at the earliest place. After
    /// want of memory they are as before.
    pub fn gather(&mut self, alloc: Global, memo: &Memo) -> Result<(), NoMemory>
        ensures gathered { OnOk result (firings_of self.new
            ≡ gathered (became (sets_of memo.now).numbers) [] (firings_of self.old)) }
        ensures unchanged { OnErr result (firings_of self.new ≡ firings_of self.old) }
    {
        *self = self.gathered(alloc, memo)?;
        Ok(())
    }

    /// The firings as a list, in their order.
    pub fn into_list(self, alloc: Global) -> Result<List<Firing>, NoMemory>
        ensures { IfOk result (λ all. map firing_of all ≡ firings_of self) }
    {
        let Fired { firings } = self;
        let mut all = List::new(alloc);
        for firing in firings {
            all.push(firing)?;
        }
        Ok(all)
    }
}
