//! The places of a tree, each a path of the numbers of inputs from the root, from 0.
ghost use Rattle.std.specs.Prelude.{◌≡◌, [], ◌∷◌, ◌++◌, map, option_map, IfOk, OnOk};
ghost use Rattle.cal_rel.specs.Places as trees;
ghost use Rattle.cal_rel.specs.Tree.{tree_of};
ghost use Rattle.rule_hep.specs.Run as spec;

use cal_rel::Rel;
use cal_value::{Duplicate, List, NoMemory};
use std::alloc::Global;

// The path of the root alone.
fn root_alone(alloc: Global) -> Result<List<List<u32>>, NoMemory>
    ensures { IfOk result (λ all. all ≡ [] ∷ []) }
{
    let mut all = List::new(alloc);
    all.push(List::new(alloc))?;
    Ok(all)
}

fn with_first(alloc: Global, first: u32, path: &[u32]) -> Result<List<u32>, NoMemory>
    ensures { IfOk result (λ whole. whole ≡ first ∷ path.now) }
{
    let mut whole = List::new(alloc);
    whole.push(first)?;
    for step in path {
        whole.push(*step)?;
    }
    Ok(whole)
}

// Adds the places of the input of this number.
fn push_below(
    alloc: Global,
    all: &mut List<List<u32>>,
    first: u32,
    below: &List<List<u32>>,
) -> Result<(), NoMemory>
    ensures { OnOk result (all.new ≡ all.old ++ map (λ path. first ∷ path) below.now) }
{
    for path in below.as_slice() {
        all.push(with_first(alloc, first, path.as_slice())?)?;
    }
    Ok(())
}

fn above_one(alloc: Global, below: &List<List<u32>>) -> Result<List<List<u32>>, NoMemory>
    ensures { IfOk result (λ all. all ≡ [] ∷ map (λ path. 0 ∷ path) below.now) }
{
    let mut all = root_alone(alloc)?;
    push_below(alloc, &mut all, 0, below)?;
    Ok(all)
}

fn above_two(
    alloc: Global,
    left: &List<List<u32>>,
    right: &List<List<u32>>,
) -> Result<List<List<u32>>, NoMemory>
    ensures { IfOk result (λ all. all
        ≡ [] ∷ (map (λ path. 0 ∷ path) left.now ++ map (λ path. 1 ∷ path) right.now)) }
{
    let mut all = root_alone(alloc)?;
    push_below(alloc, &mut all, 0, left)?;
    push_below(alloc, &mut all, 1, right)?;
    Ok(all)
}

/// The paths of all places, a node before its inputs.
#[tactic(auto, using(cal_rel::proofs::TreeSteps::tree_steps))]
pub fn places(alloc: Global, rel: &Rel) -> Result<List<List<u32>>, NoMemory>
    ensures { IfOk result (λ all. all ≡ spec.places (tree_of rel.now)) }
{
    match rel {
        Rel::Scan(_) => root_alone(alloc),
        Rel::TileScan(_) => root_alone(alloc),
        Rel::StarScan { lattice: _ } => root_alone(alloc),
        Rel::Filter {
            input,
            predicate: _,
        } => {
            let below = places(alloc, input.get())?;
            above_one(alloc, &below)
        }
        Rel::Project { input, items: _ } => {
            let below = places(alloc, input.get())?;
            above_one(alloc, &below)
        }
        Rel::Join {
            kind: _,
            left,
            right,
            on: _,
        } => {
            let left = places(alloc, left.get())?;
            let right = places(alloc, right.get())?;
            above_two(alloc, &left, &right)
        }
        Rel::Aggregate {
            input,
            groups: _,
            calls: _,
        } => {
            let below = places(alloc, input.get())?;
            above_one(alloc, &below)
        }
        Rel::Empty(_) => root_alone(alloc),
        Rel::Hole(_) => root_alone(alloc),
    }
}

/// The part at this path, where there is one.
#[tactic(auto, using(cal_rel::proofs::TreeSteps::tree_steps))]
pub fn place<'a>(rel: &'a Rel, path: &[u32]) -> Option<&'a Rel>
    ensures { option_map (λ part. tree_of part.now) result
        ≡ trees.place (tree_of rel.now) path.now }
{
    let Some((first, rest)) = path.split_first() else {
        return Some(rel);
    };
    match rel {
        Rel::Filter {
            input,
            predicate: _,
        } => {
            if *first == 0 {
                place(input.get(), rest)
            } else {
                None
            }
        }
        Rel::Project { input, items: _ } => {
            if *first == 0 {
                place(input.get(), rest)
            } else {
                None
            }
        }
        Rel::Join {
            kind: _,
            left,
            right,
            on: _,
        } => match *first {
            0 => place(left.get(), rest),
            1 => place(right.get(), rest),
            _ => None,
        },
        Rel::Aggregate {
            input,
            groups: _,
            calls: _,
        } => {
            if *first == 0 {
                place(input.get(), rest)
            } else {
                None
            }
        }
        Rel::Scan(_) => None,
        Rel::TileScan(_) => None,
        Rel::StarScan { lattice: _ } => None,
        Rel::Empty(_) => None,
        Rel::Hole(_) => None,
    }
}

/// A copy with another tree at this path; where there is no such place, an equal tree.
#[tactic(auto, using(cal_rel::proofs::TreeSteps::tree_steps))]
pub fn replaced(alloc: Global, rel: &Rel, path: &[u32], new: Rel) -> Result<Rel, NoMemory>
    ensures { IfOk result
        (λ whole. tree_of whole ≡ trees.replaced (tree_of rel.now) path.now (tree_of new)) }
{
    let Some((first, rest)) = path.split_first() else {
        return Ok(new);
    };
    match rel {
        Rel::Filter { input, predicate } => {
            if *first == 0 {
                let input = replaced(alloc, input.get(), rest, new)?;
                Rel::filter(alloc, input, predicate.copy(alloc)?)
            } else {
                rel.copy(alloc)
            }
        }
        Rel::Project { input, items } => {
            if *first == 0 {
                let input = replaced(alloc, input.get(), rest, new)?;
                Rel::project(alloc, input, items.copy(alloc)?)
            } else {
                rel.copy(alloc)
            }
        }
        Rel::Join {
            kind,
            left,
            right,
            on,
        } => {
            if *first == 0 {
                let left = replaced(alloc, left.get(), rest, new)?;
                let right = right.get().copy(alloc)?;
                Rel::join(alloc, *kind, left, right, on.copy(alloc)?)
            } else if *first == 1 {
                let right = replaced(alloc, right.get(), rest, new)?;
                let left = left.get().copy(alloc)?;
                Rel::join(alloc, *kind, left, right, on.copy(alloc)?)
            } else {
                rel.copy(alloc)
            }
        }
        Rel::Aggregate {
            input,
            groups,
            calls,
        } => {
            if *first == 0 {
                let input = replaced(alloc, input.get(), rest, new)?;
                let groups = groups.copy(alloc)?;
                Rel::aggregate(alloc, input, groups, calls.copy(alloc)?)
            } else {
                rel.copy(alloc)
            }
        }
        Rel::Scan(_) => rel.copy(alloc),
        Rel::TileScan(_) => rel.copy(alloc),
        Rel::StarScan { lattice: _ } => rel.copy(alloc),
        Rel::Empty(_) => rel.copy(alloc),
        Rel::Hole(_) => rel.copy(alloc),
    }
}
