//! The planner that rewrites a tree by the first rule at its first place until none has an image, or for so many steps.
ghost use Rattle.std.specs.Prelude.{◌≡◌, ◌↔◌, length, map, option_map, IfOk, IsSome, IsTrue};
ghost use Rattle.cal_rel.specs.Holes.{EachHole};
ghost use Rattle.cal_rel.specs.Meaning.{MeansTheSame};
ghost use Rattle.cal_rel.specs.Tree.{tree_of};
ghost use Rattle.cal_rel.specs.Typing as trees;
ghost use Rattle.rule_hep.specs.Run as spec;
ghost use Rattle.rule_hep.specs.Run.{hep_run, last_result};
ghost use Rattle.rule_hep.specs.Seen.{step_of};

use crate::paths::{place, places, replaced};
use crate::rule::Rule;
use cal_rel::{PlanInfo, Rel, type_of};
use cal_value::{Duplicate, List, NoMemory};
use std::alloc::Global;

/// One step: the rule by its place in the list, the path of the part that was rewritten, the number of the image, and the whole tree after it.
#[derive(Debug, Drop)]
pub struct HepStep {
    pub rule: u32,
    pub path: List<u32>,
    pub nth: u32,
    pub result: Rel,
}

/// The steps in order, the tree after them, and whether as many were made as are allowed.
#[derive(Debug, Drop)]
pub struct HepRecord {
    pub log: List<HepStep>,
    pub result: Rel,
    pub stopped: bool,
}

fn in_hep(rule: &Box<dyn Rule>) -> bool
    ensures { result ≡ (meaning rule.now).in_hep }
{
    rule.in_hep()
}

fn width(rule: &Box<dyn Rule>, info: &PlanInfo) -> u32
    ensures { result ≡ (meaning rule.now).width info.now }
{
    rule.width(info)
}

fn image(
    alloc: Global,
    rule: &Box<dyn Rule>,
    info: &PlanInfo,
    rel: &Rel,
    nth: u32,
) -> Result<Option<Rel>, NoMemory>
    ensures { IfOk result (λ image. option_map tree_of image
        ≡ (meaning rule.now).image info.now (tree_of rel.now) nth) }
{
    rule.apply(alloc, info, rel, nth)
}

// The whole tree after the rule's image of this number at a place.
fn rewritten(
    alloc: Global,
    rule: &Box<dyn Rule>,
    info: &PlanInfo,
    root: &Rel,
    path: &[u32],
    nth: u32,
) -> Result<Option<Rel>, NoMemory>
    ensures { IfOk result (λ whole. option_map tree_of whole
        ≡ spec.rewritten (meaning rule.now) info.now (tree_of root.now) path.now nth) }
{
    let Some(here) = place(root, path) else {
        return Ok(None);
    };
    let Some(image) = image(alloc, rule, info, here, nth)? else {
        return Ok(None);
    };
    let whole = replaced(alloc, root, path, image)?;
    if type_of(alloc, &whole, info)?.is_some() {
        Ok(Some(whole))
    } else {
        Ok(None)
    }
}

fn copied_path(alloc: Global, path: &[u32]) -> Result<List<u32>, NoMemory>
    ensures { IfOk result (λ copy. copy ≡ path.now) }
{
    let mut copy = List::new(alloc);
    for step in path {
        copy.push(*step)?;
    }
    Ok(copy)
}

// The first image at a place.
#[tactic(auto, using(crate::proofs::RunLemmas::run_steps))]
fn first_nth(
    alloc: Global,
    at: u32,
    rule: &Box<dyn Rule>,
    info: &PlanInfo,
    root: &Rel,
    path: &[u32],
) -> Result<Option<HepStep>, NoMemory>
    ensures { IfOk result (λ step. option_map step_of step
        ≡ spec.first_nth at (meaning rule.now) info.now (tree_of root.now) path.now
        0 ((meaning rule.now).width info.now)) }
{
    let end = width(rule, info);
    for nth in 0..end {
        if let Some(result) = rewritten(alloc, rule, info, root, path, nth)? {
            let path = copied_path(alloc, path)?;
            return Ok(Some(HepStep {
                rule: at,
                path,
                nth,
                result,
            }));
        }
    }
    Ok(None)
}

// The first of these places.
#[tactic(auto, using(crate::proofs::RunLemmas::run_steps))]
fn first_place(
    alloc: Global,
    at: u32,
    rule: &Box<dyn Rule>,
    info: &PlanInfo,
    root: &Rel,
    paths: &[List<u32>],
) -> Result<Option<HepStep>, NoMemory>
    ensures { IfOk result (λ step. option_map step_of step
        ≡ spec.first_place at (meaning rule.now) info.now (tree_of root.now) paths.now) }
{
    for path in paths {
        if let Some(step) = first_nth(alloc, at, rule, info, root, path.as_slice())? {
            return Ok(Some(step));
        }
    }
    Ok(None)
}

// The first rule of the list.
#[tactic(auto, using(crate::proofs::RunLemmas::run_steps))]
fn first_rule(
    alloc: Global,
    rules: &[Box<dyn Rule>],
    info: &PlanInfo,
    root: &Rel,
) -> Result<Option<HepStep>, NoMemory>
    ensures { IfOk result (λ step. option_map step_of step
        ≡ spec.first_rule 0 (map (λ b. meaning b) rules.now) info.now (tree_of root.now)) }
{
    let paths = places(alloc, root)?;
    for (k, rule) in rules.iter().enumerate() {
        let Ok(at) = u32::try_from(k) else {
            return Err(NoMemory);
        };
        if in_hep(rule) {
            if let Some(step) = first_place(alloc, at, rule, info, root, paths.as_slice())? {
                return Ok(Some(step));
            }
        }
    }
    Ok(None)
}

/// Rewrites `rel` by the first rule, at the first place where it has an image that counts, with the first such image, again and again, until no rule
/// has one or `limit` steps are made. Rules that aren't `in_hep` are left out; an image counts where the whole tree stays well formed. A list of more
/// than 2^32 rules is answered like want of memory.
#[tactic(auto, using(crate::proofs::RunLemmas::hep_steps))]
pub fn hep(
    alloc: Global,
    rules: &[Box<dyn Rule>],
    limit: u32,
    info: &PlanInfo,
    rel: Rel,
) -> Result<HepRecord, NoMemory>
    requires well_formed { IsSome (trees.type_of info.now (tree_of rel)) }
    requires no_hole { EachHole (λ k. ⊥) (tree_of rel) }
    ensures log { IfOk result (λ made. map step_of made.log
        ≡ hep_run limit (map (λ b. meaning b) rules.now) info.now (tree_of rel)) }
    ensures last { IfOk result
        (λ made. tree_of made.result ≡ last_result (tree_of rel) (map step_of made.log)) }
    ensures stopped { IfOk result (λ made. IsTrue made.stopped ↔ (length made.log ≡ limit)) }
    ensures well_formed { IfOk result
        (λ made. IsSome (trees.type_of info.now (tree_of made.result))) }
    ensures no_hole { IfOk result (λ made. EachHole (λ k. ⊥) (tree_of made.result)) }
    ensures same { IfOk result
        (λ made. MeansTheSame info.now (tree_of made.result) (tree_of rel)) }
{
    let mut log = List::new(alloc);
    let mut root = rel;
    for _step in 0..limit {
        let Some(step) = first_rule(alloc, rules, info, &root)? else {
            return Ok(HepRecord {
                log,
                result: root,
                stopped: false,
            });
        };
        root = step.result.copy(alloc)?;
        log.push(step)?;
    }
    Ok(HepRecord {
        log,
        result: root,
        stopped: true,
    })
}
