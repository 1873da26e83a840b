ghost use Rattle.std.specs.Prelude.{◌≡◌, ◌<◌, ◌↔◌, IsTrue, All};
ghost use Rattle.cheapest_derivations.specs.Derivations.{IsWithin, IsEdgeWithin, AreWithin};

use crate::table::Edge;

fn is_within(input: Option<u32>, states: u32) -> bool
    ensures { IsTrue result ↔ IsWithin states input }
{
    match input {
        None => true,
        Some(state) => state < states,
    }
}

fn is_edge_within(edge: &Edge, states: u32) -> bool
    ensures { IsTrue result ↔ IsEdgeWithin states edge.now }
{
    edge.target < states && is_within(edge.first, states) && is_within(edge.second, states)
}

fn all_within(edges: &[Edge], states: u32) -> bool
    ensures { IsTrue result ↔ All (IsEdgeWithin states) edges.now }
{
    edges.iter().all(|edge| is_edge_within(edge, states))
}

/// Whether the alternatives name states below `states` alone.
#[tactic(auto, using(crate::proofs::WithinSteps::within_steps))]
pub fn are_within(edges: &[Edge], states: u32) -> bool
    ensures { IsTrue result ↔ AreWithin edges.now states }
{
    all_within(edges, states)
}
