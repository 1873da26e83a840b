//! One round: each triple of the memo in turn.
ghost use Rattle.std.specs.Prelude.{◌≡◌, ◌<◌, ◌++◌, ◌∷◌, [], IfOk, OnOk, Contains, List as ListOf, Some, map, length, slice_get, true, false};
ghost use Rattle.std.specs.Option.{option_map};
ghost use Rattle.cal_rel.specs.Tree.{tree_of};
ghost use Rattle.rule_hep.specs.Meaning.{Meaning};
ghost use Rattle.memo_model.specs.Sets.{became};
ghost use Rattle.memo_model.specs.Sound.{over};
ghost use Rattle.memo_sets.specs.Seen.{sets_of};
ghost use Rattle.search_model.specs.Firings as plain;
ghost use Rattle.search_model.specs.Search.{among, joined, IsTriple, IsSearch};
ghost use Rattle.search_firings.specs.Seen.{firing_of, firings_of};
ghost use Rattle.volcano_search.specs.Went.{IsStep, IsPass, noted, stops, also};

use cal_rel::{PlanInfo, Rel};
use cal_value::NoMemory;
use memo_sets::{Memo, MemoFault, Registered};
use rule_hep::Rule;
use search_firings::{Fired, Firing};
use std::alloc::Global;

/// The memo and the firings so far.
#[derive(Debug, Drop)]
pub(crate) struct Search {
    pub(crate) memo: Memo,
    pub(crate) fired: Fired,
}

/// How a part of a search went: nothing happened, a rule fired, or the search stops.
#[derive(Clone, Copy, Debug, PartialEq, Eq)]
pub(crate) enum Went {
    Quiet,
    Fired,
    Stopped,
}

fn stops(went: Went) -> bool
    ensures { result ≡ stops went }
{
    match went {
        Went::Quiet => false,
        Went::Fired => false,
        Went::Stopped => true,
    }
}

// Whether a rule fired, so far or now.
fn also(fired: bool, went: Went) -> bool
    ensures { result ≡ also fired went }
{
    match went {
        Went::Quiet => fired,
        Went::Fired => true,
        Went::Stopped => fired,
    }
}

fn image_by(
    alloc: Global,
    rule: &Box<dyn Rule>,
    info: &PlanInfo,
    rel: &Rel,
    nth: u32,
) -> Result<Option<Rel>, NoMemory>
    ensures { IfOk result (λ image. option_map tree_of image
        ≡ (meaning rule.now).image info.now (tree_of rel.now) nth) }
{
    rule.apply(alloc, info, rel, nth)
}

// The image of a triple, over the types of the memo.
fn image(
    alloc: Global,
    rules: &[Box<dyn Rule>],
    info: &PlanInfo,
    memo: &Memo,
    at: &Firing,
) -> Result<Option<Rel>, NoMemory>
    requires { (firing_of at.now).rule < length rules.now }
    ensures { IfOk result (λ image. (law : Meaning)
        → slice_get (map (λ b. meaning b) rules.now) (firing_of at.now).rule ≡ Some law
        → option_map tree_of image ≡ law.image (over info.now (sets_of memo.now).types)
        (firing_of at.now).binding (firing_of at.now).nth) }
{
    let over = PlanInfo::new(info.schema, info.tiles, memo.types());
    image_by(alloc, &rules[at.rule as usize], &over, &at.binding, at.nth)
}

// One more firing, which isn't there yet; where sets became one, all get the numbers that theirs have become.
fn note(
    alloc: Global,
    fired: &mut Fired,
    at: Firing,
    memo: &Memo,
    answer: Registered,
) -> Result<(), NoMemory>
    ensures { OnOk result (firings_of fired.new ≡ noted answer
        (became (sets_of memo.now).numbers) (joined (firings_of fired.old) (firing_of at))) }
{
    fired.push(at)?;
    match answer {
        Registered::Added(_) => Ok(()),
        Registered::Known(_) => Ok(()),
        Registered::Merged { .. } => fired.gather(alloc, memo),
    }
}

fn copied(alloc: Global, at: &Firing) -> Result<Firing, NoMemory>
    ensures { IfOk result (λ copy. firing_of copy ≡ firing_of at.now) }
{
    let binding = at.binding.copy(alloc)?;
    Ok(Firing {
        rule: at.rule,
        nth: at.nth,
        binding,
        set: at.set,
    })
}

impl Search {
    // The image of a triple that hasn't fired is registered, where the budget allows one more firing.
    fn fire(
        &mut self,
        alloc: Global,
        rules: &[Box<dyn Rule>],
        info: &PlanInfo,
        budget: u32,
        at: &Firing,
        image: &Rel,
    ) -> Result<Went, NoMemory>
        requires search { IsSearch info.now (map (λ b. meaning b) rules.now) budget
            (sets_of self.old.memo) (firings_of self.old.fired) }
        requires triple { IsTriple info.now (map (λ b. meaning b) rules.now)
            (sets_of self.old.memo).members (firing_of at.now) }
        requires apart { among (firing_of at.now) (firings_of self.old.fired) ≡ false }
        requires image { (law : Meaning)
            → slice_get (map (λ b. meaning b) rules.now) (firing_of at.now).rule ≡ Some law
            → law.image (over info.now (sets_of self.old.memo).types)
            (firing_of at.now).binding (firing_of at.now).nth ≡ Some (tree_of image.now) }
        ensures { IfOk result (IsStep info.now (map (λ b. meaning b) rules.now) budget
            (sets_of self.old.memo) (sets_of self.new.memo)
            (firings_of self.old.fired) (firings_of self.new.fired) (firing_of at.now)) }
    {
        let _ = rules;
        if self.fired.len() >= budget as usize {
            return Ok(Went::Stopped);
        }
        match self.memo.register(alloc, at.set, image, info) {
            Ok(answer) => {
                let firing = copied(alloc, at)?;
                note(alloc, &mut self.fired, firing, &self.memo, answer)?;
                Ok(Went::Fired)
            }
            Err(MemoFault::MemoFull { .. }) => Ok(Went::Stopped),
            Err(MemoFault::NoMemory) => Err(NoMemory),
        }
    }

    fn fire_image(
        &mut self,
        alloc: Global,
        rules: &[Box<dyn Rule>],
        info: &PlanInfo,
        budget: u32,
        at: &Firing,
        image: Rel,
    ) -> Result<Went, NoMemory>
        requires search { IsSearch info.now (map (λ b. meaning b) rules.now) budget
            (sets_of self.old.memo) (firings_of self.old.fired) }
        requires triple { IsTriple info.now (map (λ b. meaning b) rules.now)
            (sets_of self.old.memo).members (firing_of at.now) }
        requires apart { among (firing_of at.now) (firings_of self.old.fired) ≡ false }
        requires image { (law : Meaning)
            → slice_get (map (λ b. meaning b) rules.now) (firing_of at.now).rule ≡ Some law
            → law.image (over info.now (sets_of self.old.memo).types)
            (firing_of at.now).binding (firing_of at.now).nth ≡ Some (tree_of image) }
        ensures { IfOk result (IsStep info.now (map (λ b. meaning b) rules.now) budget
            (sets_of self.old.memo) (sets_of self.new.memo)
            (firings_of self.old.fired) (firings_of self.new.fired) (firing_of at.now)) }
    {
        let went = self.fire(alloc, rules, info, budget, at, &image);
        drop(image);
        went
    }

    // One triple: its image is registered, unless it has fired.
    fn step(
        &mut self,
        alloc: Global,
        rules: &[Box<dyn Rule>],
        info: &PlanInfo,
        budget: u32,
        at: &Firing,
    ) -> Result<Went, NoMemory>
        requires search { IsSearch info.now (map (λ b. meaning b) rules.now) budget
            (sets_of self.old.memo) (firings_of self.old.fired) }
        requires triple { IsTriple info.now (map (λ b. meaning b) rules.now)
            (sets_of self.old.memo).members (firing_of at.now) }
        ensures { IfOk result (IsStep info.now (map (λ b. meaning b) rules.now) budget
            (sets_of self.old.memo) (sets_of self.new.memo)
            (firings_of self.old.fired) (firings_of self.new.fired) (firing_of at.now)) }
    {
        if self.fired.has(at) {
            return Ok(Went::Quiet);
        }
        let made = image(alloc, rules, info, &self.memo, at)?;
        match made {
            Some(image) => self.fire_image(alloc, rules, info, budget, at, image),
            None => Ok(Went::Quiet),
        }
    }

    fn turn(
        &mut self,
        alloc: Global,
        rules: &[Box<dyn Rule>],
        info: &PlanInfo,
        budget: u32,
        at: Firing,
    ) -> Result<Went, NoMemory>
        requires search { IsSearch info.now (map (λ b. meaning b) rules.now) budget
            (sets_of self.old.memo) (firings_of self.old.fired) }
        requires triple { IsTriple info.now (map (λ b. meaning b) rules.now)
            (sets_of self.old.memo).members (firing_of at) }
        ensures { IfOk result (IsStep info.now (map (λ b. meaning b) rules.now) budget
            (sets_of self.old.memo) (sets_of self.new.memo)
            (firings_of self.old.fired) (firings_of self.new.fired) (firing_of at)) }
    {
        let went = self.step(alloc, rules, info, budget, &at);
        drop(at);
        went
    }

    /// The triples of a round in turn, with the numbers that sets have become since it began.
    pub(crate) fn pass(
        &mut self,
        alloc: Global,
        rules: &[Box<dyn Rule>],
        info: &PlanInfo,
        budget: u32,
        triples: &[Firing],
    ) -> Result<Went, NoMemory>
        requires search { IsSearch info.now (map (λ b. meaning b) rules.now) budget
            (sets_of self.old.memo) (firings_of self.old.fired) }
        requires triples { (f : plain.Firing) → Contains (map firing_of triples.now) f
            → IsTriple info.now (map (λ b. meaning b) rules.now) (sets_of self.old.memo).members f }
        ensures { IfOk result (IsPass info.now (map (λ b. meaning b) rules.now) budget
            (sets_of self.old.memo) (sets_of self.new.memo)
            (firings_of self.old.fired) (firings_of self.new.fired) (map firing_of triples.now)) }
    {
        let mut fired = false;
        for triple in triples {
            let at = triple.renumbered(alloc, &self.memo)?;
            let went = self.turn(alloc, rules, info, budget, at)?;
            if stops(went) {
                return Ok(went);
            }
            fired = also(fired, went);
        }
        if fired {
            Ok(Went::Fired)
        } else {
            Ok(Went::Quiet)
        }
    }
}
