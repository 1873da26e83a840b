//! The bindings of a node.
ghost use Rattle.std.specs.Prelude.{◌≡◌, ◌++◌, ◌∷◌, [], map, IfOk, OnOk};
ghost use Rattle.std.specs.List.{flat_map};
ghost use Rattle.cal_rel.specs.Places.{replaced};
ghost use Rattle.cal_rel.specs.Tree.{tree_of};
ghost use Rattle.search_model.specs.Listed as spec;
ghost use Rattle.search_firings.specs.Seen.{nodes_of};
ghost use Rattle.search_firings.specs.Steps.{is_leaf, leaf_alone, pairs};

use crate::by_set::BySet;
use cal_rel::Rel;
use cal_value::{List, NoMemory};
use rule_hep::{Reach, place, replaced};
use std::alloc::Global;

fn add_copy(alloc: Global, node: &Rel, all: &mut List<Rel>) -> Result<(), NoMemory>
    ensures { OnOk result (map tree_of all.new ≡ map tree_of all.old ++ tree_of node.now ∷ []) }
{
    all.push(node.copy(alloc)?)
}

#[tactic(auto, using(cal_rel::proofs::TreeSteps::tree_steps))]
fn is_leaf(node: &Rel) -> bool
    ensures { result ≡ is_leaf (tree_of node.now) }
{
    match node {
        Rel::Scan(_) | Rel::TileScan(_) | Rel::StarScan { .. } | Rel::Empty(_) => true,
        Rel::Filter { .. }
        | Rel::Project { .. }
        | Rel::Join { .. }
        | Rel::Aggregate { .. }
        | Rel::Hole(_) => false,
    }
}

// Adds a leaf. A hole has no binding.
fn add_leaf(alloc: Global, node: &Rel, all: &mut List<Rel>) -> Result<(), NoMemory>
    ensures { OnOk result
        (map tree_of all.new ≡ map tree_of all.old ++ leaf_alone (tree_of node.now)) }
{
    if is_leaf(node) {
        add_copy(alloc, node, all)
    } else {
        Ok(())
    }
}

// Adds the node with each of these at the path.
fn add_with(
    alloc: Global,
    node: &Rel,
    path: &[u32],
    inputs: &[Rel],
    all: &mut List<Rel>,
) -> Result<(), NoMemory>
    ensures { OnOk result (map tree_of all.new ≡ map tree_of all.old
        ++ map (replaced (tree_of node.now) path.now) (map tree_of inputs.now)) }
{
    for input in inputs {
        let input = input.copy(alloc)?;
        all.push(replaced(alloc, node, path, input)?)?;
    }
    Ok(())
}

// Adds the node with each pair of these as its inputs.
fn add_pairs(
    alloc: Global,
    node: &Rel,
    lefts: &[Rel],
    rights: &[Rel],
    all: &mut List<Rel>,
) -> Result<(), NoMemory>
    ensures { OnOk result (map tree_of all.new ≡ map tree_of all.old
        ++ pairs (tree_of node.now) (map tree_of lefts.now) (map tree_of rights.now)) }
{
    for left in lefts {
        let left = left.copy(alloc)?;
        let half = replaced(alloc, node, &[0], left)?;
        add_with(alloc, &half, &[1], rights, all)?;
    }
    Ok(())
}

#[tactic(auto, using(crate::proofs::BindingSteps::first_steps))]
fn add_firsts(alloc: Global, nodes: &BySet, node: &Rel, all: &mut List<Rel>) -> Result<(), NoMemory>
    ensures { OnOk result (map tree_of all.new
        ≡ map tree_of all.old ++ spec.firsts (nodes_of nodes.now) (tree_of node.now)) }
{
    match place(node, &[0]) {
        Some(input) => add_with(alloc, node, &[0], nodes.inputs(input), all),
        None => add_leaf(alloc, node, all),
    }
}

#[tactic(auto, using(crate::proofs::BindingSteps::both_steps))]
fn add_boths(alloc: Global, nodes: &BySet, node: &Rel, all: &mut List<Rel>) -> Result<(), NoMemory>
    ensures { OnOk result (map tree_of all.new
        ≡ map tree_of all.old ++ spec.boths (nodes_of nodes.now) (tree_of node.now)) }
{
    let Some(left) = place(node, &[0]) else {
        return add_firsts(alloc, nodes, node, all);
    };
    let Some(right) = place(node, &[1]) else {
        return add_firsts(alloc, nodes, node, all);
    };
    add_pairs(alloc, node, nodes.inputs(left), nodes.inputs(right), all)
}

// The bindings of inputs with members in the place of their first inputs.
fn deep(alloc: Global, nodes: &BySet, inputs: &[Rel]) -> Result<List<Rel>, NoMemory>
    ensures { IfOk result (λ all. map tree_of all
        ≡ flat_map (spec.firsts (nodes_of nodes.now)) (map tree_of inputs.now)) }
{
    let mut all = List::new(alloc);
    for input in inputs {
        add_firsts(alloc, nodes, input, &mut all)?;
    }
    Ok(all)
}

#[tactic(auto, using(crate::proofs::BindingSteps::chain_steps))]
fn add_chains(alloc: Global, nodes: &BySet, node: &Rel, all: &mut List<Rel>) -> Result<(), NoMemory>
    ensures { OnOk result (map tree_of all.new
        ≡ map tree_of all.old ++ spec.chains (nodes_of nodes.now) (tree_of node.now)) }
{
    match place(node, &[0]) {
        Some(input) => {
            let inputs = deep(alloc, nodes, nodes.inputs(input))?;
            add_with(alloc, node, &[0], inputs.as_slice(), all)
        }
        None => add_leaf(alloc, node, all),
    }
}

fn add_bindings(
    alloc: Global,
    nodes: &BySet,
    reach: Reach,
    node: &Rel,
    all: &mut List<Rel>,
) -> Result<(), NoMemory>
    ensures { OnOk result (map tree_of all.new
        ≡ map tree_of all.old ++ spec.bindings (nodes_of nodes.now) reach (tree_of node.now)) }
{
    match reach {
        Reach::Node => add_copy(alloc, node, all),
        Reach::FirstChild => add_firsts(alloc, nodes, node, all),
        Reach::BothChildren => add_boths(alloc, nodes, node, all),
        Reach::Chain => add_chains(alloc, nodes, node, all),
    }
}

/// The bindings of a node, for a rule that looks so far.
pub fn bindings(
    alloc: Global,
    nodes: &BySet,
    reach: Reach,
    node: &Rel,
) -> Result<List<Rel>, NoMemory>
    ensures { IfOk result (λ all. map tree_of all
        ≡ spec.bindings (nodes_of nodes.now) reach (tree_of node.now)) }
{
    let mut all = List::new(alloc);
    add_bindings(alloc, nodes, reach, node, &mut all)?;
    Ok(all)
}
