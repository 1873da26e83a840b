//! Rounds over all alternatives, until none offers less.
ghost use Rattle.std.specs.Prelude.{◌≡◌, ◌<◌, ◌≤◌, ◌++◌, ◌∷◌, [], length, slice_set, replicate, Some, None, IfOk, OnOk};
ghost use Rattle.cheapest_derivations.specs.Derivations.{IsWithin, AreWithin};
ghost use Rattle.cheapest_derivations.specs.Offers.{step_for};
ghost use Rattle.cheapest_derivations.specs.Tables.{IsSound, AreSettled, IsLeast};

use crate::offer::{offer, place_of};
use crate::table::{Cell, Edge, Step, Table};
use cal_value::{List, NoMemory};
use std::alloc::Global;

/// Makes the step of the alternative at this place the cheapest of its target.
fn record_step(
    cells: &mut [Option<Cell>],
    steps: &mut List<Step>,
    at: usize,
    edge: &Edge,
    cost: u128,
) -> Result<(), NoMemory>
    requires target { edge.now.target < length cells.old }
    requires first { IsWithin (length cells.old) edge.now.first }
    requires second { IsWithin (length cells.old) edge.now.second }
    ensures cells { OnOk result (cells.new ≡ slice_set cells.old edge.now.target
        (Some (record { cost = cost; place = length steps.old }))) }
    ensures steps { OnOk result (steps.new ≡ steps.old ++ step_for cells.old at edge.now ∷ []) }
{
    let step = Step {
        edge: at,
        first: place_of(cells, edge.first),
        second: place_of(cells, edge.second),
    };
    let place = steps.len();
    steps.push(step)?;
    cells[edge.target as usize] = Some(Cell { cost, place });
    Ok(())
}

/// Tries each alternative once, the last one first. Where none offered less, no step is added.
fn round(
    cells: &mut [Option<Cell>],
    steps: &mut List<Step>,
    edges: &[Edge],
    limit: u128,
) -> Result<(), NoMemory>
    requires within { AreWithin edges.now (length cells.old) }
    requires sound { IsSound limit edges.now cells.old steps.old }
    ensures len { OnOk result (length cells.new ≡ length cells.old) }
    ensures sound { OnOk result (IsSound limit edges.now cells.new steps.new) }
    ensures grown { OnOk result (length steps.old ≤ length steps.new) }
    ensures settled { OnOk result (length steps.old ≡ length steps.new
        → AreSettled limit edges.now cells.new) }
{
    let mut left = edges.len();
    'edges: while left > 0 {
        left -= 1;
        let edge = edges[left];
        let Some(cost) = offer(cells, &edge, limit) else {
            continue;
        };
        record_step(cells, steps, left, &edge, cost)?;
    }
    Ok(())
}

fn no_cells(alloc: Global, states: u32) -> Result<Vec<Option<Cell>>, NoMemory>
    ensures { IfOk result (λ cells. cells.items ≡ replicate states None) }
{
    let mut cells = Vec::new(alloc);
    for _ in 0..states {
        cells.push(None)?;
    }
    Ok(cells)
}

/// Rounds until no alternative offers less.
#[tactic(auto, using(crate::proofs::Least::least_steps))]
fn settle(
    cells: &mut [Option<Cell>],
    steps: &mut List<Step>,
    edges: &[Edge],
    limit: u128,
) -> Result<(), NoMemory>
    requires within { AreWithin edges.now (length cells.old) }
    requires sound { IsSound limit edges.now cells.old steps.old }
    ensures sound { OnOk result (IsSound limit edges.now cells.new steps.new) }
    ensures least { OnOk result (IsLeast limit edges.now cells.new) }
{
    'rounds: loop {
        let before = steps.len();
        round(cells, steps, edges, limit)?;
        if steps.len() == before {
            return Ok(());
        }
    }
}

/// The cheapest derivation of each state that has one, over states below `states`, with costs cut at `limit`. Takes memory for
/// each state, and for each time that a derivation gets cheaper.
pub fn cheapest(alloc: Global, edges: &[Edge], states: u32, limit: u128) -> Result<Table, NoMemory>
    requires { AreWithin edges.now states }
    ensures len { IfOk result (λ table. length table.cells ≡ states) }
    ensures sound { IfOk result (λ table. IsSound limit edges.now table.cells table.steps) }
    ensures least { IfOk result (λ table. IsLeast limit edges.now table.cells) }
{
    let mut cells = no_cells(alloc, states)?;
    let mut steps = List::new(alloc);
    settle(cells.as_mut_slice(), &mut steps, edges, limit)?;
    let cells = List::from_vec(cells);
    Ok(Table { cells, steps })
}
