//! Rounds over the triples of a memo.
ghost use Rattle.std.specs.Prelude.{◌≡◌, IfOk, [], List as ListOf, map};
ghost use Rattle.cal_rel.specs.Tree.{Tree};
ghost use Rattle.memo_model.specs.Sound.{IsSound};
ghost use Rattle.memo_sets.specs.Seen.{sets_of};
ghost use Rattle.search_model.specs.Grown.{StaysGrown};
ghost use Rattle.search_firings.specs.Seen.{firing_of, firings_of};
ghost use Rattle.volcano_search.specs.Went.{ends, is_complete};
ghost use Rattle.volcano_search.specs.Explored.{IsExplored};

use crate::search::{Search, Went};
use cal_rel::PlanInfo;
use cal_value::{List, NoMemory};
use memo_sets::Memo;
use rule_hep::Rule;
use search_firings::{Fired, Firing, triples};
use std::alloc::Global;

/// What a search came to: the memo, the firings in order with the numbers that sets have become, and whether the search went to its end.
#[derive(Debug, Drop)]
pub struct Explored {
    pub memo: Memo,
    pub firings: List<Firing>,
    pub complete: bool,
}

fn ends(went: Went) -> bool
    ensures { result ≡ ends went }
{
    match went {
        Went::Quiet => true,
        Went::Fired => false,
        Went::Stopped => true,
    }
}

fn is_complete(went: Went, firings: usize, budget: u32) -> bool
    ensures { result ≡ is_complete went firings budget }
{
    match went {
        Went::Quiet => firings < budget as usize,
        Went::Fired => false,
        Went::Stopped => false,
    }
}

// What the search has come to.
fn made(alloc: Global, search: Search, complete: bool) -> Result<Explored, NoMemory>
    ensures memo { IfOk result (λ e. sets_of e.memo ≡ sets_of search.memo) }
    ensures firings { IfOk result (λ e. map firing_of e.firings ≡ firings_of search.fired) }
    ensures complete { IfOk result (λ e. e.complete ≡ complete) }
{
    let Search { memo, fired } = search;
    match fired.into_list(alloc) {
        Ok(firings) => Ok(Explored {
            memo,
            firings,
            complete,
        }),
        Err(NoMemory) => {
            drop(memo);
            Err(NoMemory)
        }
    }
}

/// Registers the images of all bindings in a memo, round by round, until none is new: `complete` then. It stops before that where one firing
/// more would pass `budget`, or an image would pass `MEMBER_LIMIT`. What `info` says of sets isn't read. It always returns; a list of
/// more than 2^32 rules is answered like want of memory.
pub fn explore(
    alloc: Global,
    memo: Memo,
    rules: &[Box<dyn Rule>],
    info: &PlanInfo,
    budget: u32,
) -> Result<Explored, NoMemory>
    requires { IsSound info.now (sets_of memo) }
    ensures explored { IfOk result (λ e. IsExplored info.now (map (λ b. meaning b) rules.now) budget
        (sets_of memo) (sets_of e.memo) (map firing_of e.firings) e.complete) }
    ensures grown { IfOk result (λ e. StaysGrown info.now (map (λ b. meaning b) rules.now)
        (sets_of memo) (sets_of e.memo) [] (map firing_of e.firings)) }
{
    let mut search = Search {
        memo,
        fired: Fired::new(alloc),
    };
    'rounds: loop {
        let triples = triples(alloc, &search.memo, rules, info)?;
        let went = search.pass(alloc, rules, info, budget, triples.as_slice())?;
        drop(triples);
        if ends(went) {
            let complete = is_complete(went, search.fired.len(), budget);
            let made = made(alloc, search, complete)?;
            return Ok(made);
        }
    }
}
