//! The states that can be asked, and all alternatives of each.
ghost use Rattle.std.specs.Prelude.{◌≡◌, ◌+◌, ◌<◌, ◌∷◌, [], IsTrue, length, slice_get, Some, IfOk, OnOk};
ghost use Rattle.plan_nodes.specs.Orders.{is_prefix};
ghost use Rattle.phys_plan.specs.Seen.{space_of};
ghost use Rattle.volcano_best.specs.Graphs.{root_of, IsGraph, IsFull, IsNumbered, IsInput, IsExtended, IsPartial, AreKept};

use crate::index::{Index, add, empty, find};
use cal_value::{Duplicate, List, NoMemory};
use cheapest_derivations::Edge;
use phys_plan::{Alternative, Space, State, alternatives_of};
use plan_nodes::PlanNode;
use std::alloc::Global;

/// The root of an alternative: its node, the estimate of its set, and the rows of the part that it reads.
#[derive(Drop)]
pub struct Root {
    pub node: PlanNode,
    pub rows: u128,
    pub part_rows: u64,
}

/// The states that can be asked, each once, with an edge and a root for each alternative of each.
#[derive(Drop)]
pub struct Graph {
    pub states: List<State>,
    pub roots: List<Root>,
    pub edges: List<Edge>,
    pub index: Index,
}

/// The state's number, a new one where it has none.
#[tactic(auto, using(crate::proofs::GraphSteps::number_steps))]
fn number_of(
    alloc: Global,
    states: &mut List<State>,
    index: &mut Index,
    state: &State,
) -> Result<u32, NoMemory>
    ensures { IfOk result (λ n. IsNumbered states.old states.new state.now n) }
{
    if let Some(n) = find(states.as_slice(), index, state) {
        return Ok(n);
    }
    let Ok(n) = u32::try_from(states.len()) else {
        return Err(NoMemory);
    };
    let new = state.copy(alloc)?;
    states.push(new)?;
    add(index, state.ask.set, n)?;
    Ok(n)
}

/// The number of an input's state.
#[tactic(auto, using(crate::proofs::GraphSteps::number_steps))]
fn input_of(
    alloc: Global,
    states: &mut List<State>,
    index: &mut Index,
    state: &Option<State>,
) -> Result<Option<u32>, NoMemory>
    ensures { IfOk result (λ n. IsInput states.old states.new state.now n) }
{
    match state {
        None => Ok(None),
        Some(state) => {
            let n = number_of(alloc, states, index, state)?;
            Ok(Some(n))
        }
    }
}

fn root_of(alloc: Global, alternative: &Alternative) -> Result<Root, NoMemory>
    ensures { IfOk result (λ root. root ≡ root_of alternative.now) }
{
    let node = alternative.node.copy(alloc)?;
    Ok(Root {
        node,
        rows: alternative.rows,
        part_rows: alternative.part_rows,
    })
}

/// Adds an alternative of the state `at` as an edge.
#[tactic(auto, using(crate::proofs::GraphSteps::link_steps))]
fn link(
    alloc: Global,
    graph: &mut Graph,
    at: u32,
    alternative: &Alternative,
) -> Result<(), NoMemory>
    ensures { OnOk result (IsExtended graph.old.states graph.old.roots graph.old.edges
        graph.new.states graph.new.roots graph.new.edges at alternative.now) }
{
    let first = input_of(
        alloc,
        &mut graph.states,
        &mut graph.index,
        &alternative.first,
    )?;
    let second = input_of(
        alloc,
        &mut graph.states,
        &mut graph.index,
        &alternative.second,
    )?;
    let root = root_of(alloc, alternative)?;
    graph.roots.push(root)?;
    graph.edges.push(Edge {
        target: at,
        weight: alternative.weight,
        first,
        second,
    })?;
    Ok(())
}

/// Adds all alternatives of the state `at`.
fn expand(alloc: Global, space: &Space, graph: &mut Graph, at: u32) -> Result<(), NoMemory>
    requires within { at < length graph.old.states }
    requires partial { IsPartial (space_of space.now)
        graph.old.states graph.old.roots graph.old.edges at 0 }
    ensures kept { OnOk result (AreKept graph.old.states graph.new.states) }
    ensures partial { OnOk result (IsPartial (space_of space.now)
        graph.new.states graph.new.roots graph.new.edges (at + 1) 0) }
{
    let alternatives = alternatives_of(alloc, space, &graph.states.as_slice()[at as usize])?;
    for alternative in alternatives.as_slice() {
        link(alloc, graph, at, alternative)?;
    }
    Ok(())
}

/// All states that can be asked from this one on.
#[tactic(auto, using(crate::proofs::PartialSteps::partial_steps))]
pub fn graph_of(alloc: Global, space: &Space, state: State) -> Result<Graph, NoMemory>
    requires { IsTrue (is_prefix state.ask.order state.need) }
    ensures root { IfOk result (λ graph. slice_get graph.states 0 ≡ Some state) }
    ensures even { IfOk result (λ graph. length graph.roots ≡ length graph.edges) }
    ensures graph { IfOk result (λ graph. IsGraph (space_of space.now) graph.states graph.roots graph.edges) }
    ensures full { IfOk result (λ graph. IsFull (space_of space.now) graph.states graph.roots graph.edges) }
{
    let mut index = empty(alloc)?;
    add(&mut index, state.ask.set, 0)?;
    let mut states = List::new(alloc);
    states.push(state)?;
    let mut graph = Graph {
        states,
        roots: List::new(alloc),
        edges: List::new(alloc),
        index,
    };
    let mut at = 0u32;
    'states: while (at as usize) < graph.states.len() {
        expand(alloc, space, &mut graph, at)?;
        let Some(next) = at.checked_add(1) else {
            return Err(NoMemory);
        };
        at = next;
    }
    Ok(graph)
}
