//! The planning of a SELECT.
ghost use Rattle.std.specs.Prelude.{◌≡◌, ◌≤◌, IfOk, IsSome, [], map};
ghost use Rattle.cal_schema.specs.Valid.{IsValidSchema};
ghost use Rattle.cal_rel.specs.Holes.{EachHole};
ghost use Rattle.cal_rel.specs.Tree.{tree_of};
ghost use Rattle.cal_rel.specs.Typing.{type_of};
ghost use Rattle.memo_model.specs.Sets.{became};
ghost use Rattle.memo_sets.specs.Seen.{sets_of};
ghost use Rattle.sql_algebra.specs.Algebra.{algebra};
ghost use Rattle.sql_algebra.specs.Formed.{IsFormed};
ghost use Rattle.sql_meaning.specs.Order.{keys_of};
ghost use Rattle.sql_meaning.specs.Scope.{scope_of};
ghost use Rattle.sql_translate.specs.Translated.{IsAccepted};
ghost use Rattle.plan_answers.specs.Answers.{KeepsTheSelect, AnswersTheSelect};
ghost use Rattle.plan_meaning.specs.Memos.{AreApart};
ghost use Rattle.search_firings.specs.Seen.{firing_of};
ghost use Rattle.select_planning.specs.Found.{IsFound};
ghost use Rattle.select_planning.specs.Planned.{IsPlanned, IsRewritten};
ghost use Rattle.select_planning.specs.Start.{IsStartedFrom, IsStarted};

use crate::cheapest::{cheapest_of, instances};
use crate::planning::{HEP_LIMIT, Planning};
use crate::start::seeded;
use cal_rel::{PlanInfo, Rel};
use cal_schema::Schema;
use cal_snapshot::Snapshot;
use cal_value::{Collation, List, NoMemory};
use memo_sets::Memo;
use plan_nodes::{Convention, Traits};
use rule_hep::{HepRecord, Rule, hep};
use search_firings::Firing;
use sql_translate::translate;
use sql_validator::CheckedSelect;
use std::alloc::Global;
use volcano_search::explore;

// The tree of the SELECT, rewritten by the rules, and the keys of ORDER BY.
#[tactic(auto, using(crate::proofs::Kept::select_rules))]
fn rewritten(
    alloc: Global,
    checked: &CheckedSelect,
    schema: &Schema,
    info: &PlanInfo,
    rules: &[Box<dyn Rule>],
) -> Result<(HepRecord, Collation), NoMemory>
    requires valid { IsValidSchema schema.now }
    requires formed { IsFormed checked.now.select }
    requires accepted { IsAccepted schema.now checked.now }
    requires schema { info.now.schema ≡ schema.now }
    requires sets { info.now.sets ≡ [] }
    ensures hep { IfOk result (λ made. IsRewritten (map (λ b. meaning b) rules.now)
        info.now (algebra schema.now checked.now.select) made.0) }
    ensures order { IfOk result (λ made.
        made.1 ≡ keys_of (scope_of schema.now checked.now.select) checked.now.select) }
    ensures own { IfOk result (λ made. KeepsTheSelect info.now checked.now.select
        (algebra schema.now checked.now.select)) }
    ensures keeps { IfOk result (λ made.
        KeepsTheSelect info.now checked.now.select (tree_of made.0.result)) }
    ensures no_hole { IfOk result (λ made. EachHole (λ k. ⊥) (tree_of made.0.result)) }
{
    let (tree, keys) = translate(alloc, checked, schema)?;
    let made = hep(alloc, rules, HEP_LIMIT, info, tree)?;
    Ok((made, keys))
}

// A memo with the SELECT's own tree in it, for which there is always room.
#[tactic(auto, using(crate::proofs::Kept::select_rules))]
fn started_anew(
    alloc: Global,
    checked: &CheckedSelect,
    schema: &Schema,
    info: &PlanInfo,
) -> Result<(Memo, u32), NoMemory>
    requires valid { IsValidSchema schema.now }
    requires formed { IsFormed checked.now.select }
    requires accepted { IsAccepted schema.now checked.now }
    requires schema { info.now.schema ≡ schema.now }
    requires sets { info.now.sets ≡ [] }
    ensures { IfOk result (λ made. IsStarted info.now
        (algebra schema.now checked.now.select) (sets_of made.0) made.1) }
{
    let (tree, _keys) = translate(alloc, checked, schema)?;
    match seeded(alloc, info, &tree)? {
        Some(made) => Ok(made),
        None => unreachable!(),
    }
}

// A memo with the rewritten tree in it, or where that is too large the SELECT's own tree.
fn started(
    alloc: Global,
    checked: &CheckedSelect,
    schema: &Schema,
    info: &PlanInfo,
    tree: &Rel,
) -> Result<(Memo, u32), NoMemory>
    requires valid { IsValidSchema schema.now }
    requires formed { IsFormed checked.now.select }
    requires accepted { IsAccepted schema.now checked.now }
    requires schema { info.now.schema ≡ schema.now }
    requires sets { info.now.sets ≡ [] }
    requires well_formed { IsSome (type_of info.now (tree_of tree.now)) }
    requires no_hole { EachHole (λ k. ⊥) (tree_of tree.now) }
    ensures { IfOk result (λ made. IsStartedFrom info.now
        (algebra schema.now checked.now.select) (tree_of tree.now) (sets_of made.0) made.1) }
{
    match seeded(alloc, info, tree)? {
        Some(made) => Ok(made),
        None => started_anew(alloc, checked, schema, info),
    }
}

// The set that a number has become.
#[tactic(auto, using(crate::proofs::StartLemmas::number_steps))]
fn root_in(memo: &Memo, set: u32) -> u32
    ensures { result ≡ became (sets_of memo.now).numbers set }
{
    memo.now(set).unwrap_or(set)
}

// The memo that was searched, the set in which the start tree stands, and the search.
#[derive(Debug, Drop)]
struct Searched {
    memo: Memo,
    root: u32,
    firings: List<Firing>,
    complete: bool,
}

// Searches a memo from the rewritten tree, or where that is too large from the SELECT's own tree.
fn search(
    alloc: Global,
    checked: &CheckedSelect,
    schema: &Schema,
    info: &PlanInfo,
    tree: &Rel,
    rules: &[Box<dyn Rule>],
    budget: u32,
) -> Result<Searched, NoMemory>
    requires valid { IsValidSchema schema.now }
    requires formed { IsFormed checked.now.select }
    requires accepted { IsAccepted schema.now checked.now }
    requires schema { info.now.schema ≡ schema.now }
    requires sets { info.now.sets ≡ [] }
    requires own { KeepsTheSelect info.now checked.now.select
        (algebra schema.now checked.now.select) }
    requires keeps { KeepsTheSelect info.now checked.now.select (tree_of tree.now) }
    requires no_hole { EachHole (λ k. ⊥) (tree_of tree.now) }
    ensures { IfOk result (λ found. IsFound (map (λ b. meaning b) rules.now) budget info.now
        checked.now.select (algebra schema.now checked.now.select) (tree_of tree.now)
        (sets_of found.memo) found.root (map firing_of found.firings) found.complete) }
{
    let (memo, set) = started(alloc, checked, schema, info, tree)?;
    let explored = explore(alloc, memo, rules, info, budget)?;
    let root = root_in(&explored.memo, set);
    Ok(Searched {
        memo: explored.memo,
        root,
        firings: explored.firings,
        complete: explored.complete,
    })
}

/// Plans an accepted SELECT over a snapshot: its tree is rewritten by the rules that are `in_hep`, in at most `HEP_LIMIT` steps, a memo is
/// searched from the tree after them by all rules, in at most `budget` firings, and the plan is the cheapest one of the memo in the order that
/// the SELECT asks. Where that tree has more different parts than a memo may have members, the search begins with the SELECT's own tree. The
/// SELECT is one that a text spells and that `validate` accepted over this schema, which is valid. No two tiles of the snapshot are of one
/// instance.
pub fn plan_select(
    alloc: Global,
    checked: &CheckedSelect,
    schema: &Schema,
    snapshot: &Snapshot,
    rules: &[Box<dyn Rule>],
    budget: u32,
) -> Result<Planning, NoMemory>
    requires valid { IsValidSchema schema.now }
    requires formed { IsFormed checked.now.select }
    requires accepted { IsAccepted schema.now checked.now }
    requires apart { AreApart snapshot.now.tiles }
    ensures planned { IfOk result (IsPlanned (map (λ b. meaning b) rules.now) budget
        schema.now snapshot.now checked.now.select) }
    ensures answers { IfOk result (λ planning. AnswersTheSelect schema.now snapshot.now
        (sets_of planning.memo) checked.now.select planning.plan) }
{
    let sets = List::new(alloc);
    let info = PlanInfo::new(schema, snapshot.tiles(), &sets);
    let (hep, keys) = rewritten(alloc, checked, schema, &info, rules)?;
    let found = search(alloc, checked, schema, &info, &hep.result, rules, budget)?;
    let (best, estimates) = cheapest_of(alloc, &found.memo, found.root, &keys, schema, snapshot)?;
    let tiles = instances(alloc, snapshot.tiles())?;
    Ok(Planning {
        plan: best.plan,
        cost: best.cost,
        traits: Traits {
            convention: Convention::Enumerable,
            collation: keys,
        },
        hep,
        memo: found.memo,
        root: found.root,
        firings: found.firings,
        complete: found.complete,
        estimates,
        tiles,
    })
}
