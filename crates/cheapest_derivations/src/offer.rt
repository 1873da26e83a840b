//! What an alternative offers to its target.
ghost use Rattle.std.specs.Prelude.{◌≡◌, ◌+◌, ◌<◌, length, min};
ghost use Rattle.cheapest_derivations.specs.Derivations.{IsWithin};
ghost use Rattle.cheapest_derivations.specs.Offers.{cell_at, value_of, place_of, offered};

use crate::table::{Cell, Edge};

fn cell_of(cells: &[Option<Cell>], state: u32) -> Option<Cell>
    requires { state < length cells.now }
    ensures { result ≡ cell_at cells.now state }
{
    cells[state as usize]
}

/// The cost of an input so far, 0 where there is no input.
fn value_of(cells: &[Option<Cell>], input: Option<u32>) -> Option<u128>
    requires { IsWithin (length cells.now) input }
    ensures { result ≡ value_of cells.now input }
{
    match input {
        None => Some(0),
        Some(state) => match cell_of(cells, state) {
            None => None,
            Some(cell) => Some(cell.cost),
        },
    }
}

/// The place of an input's last step.
pub fn place_of(cells: &[Option<Cell>], input: Option<u32>) -> Option<usize>
    requires { IsWithin (length cells.now) input }
    ensures { result ≡ place_of cells.now input }
{
    match input {
        None => None,
        Some(state) => match cell_of(cells, state) {
            None => None,
            Some(cell) => Some(cell.place),
        },
    }
}

fn cut_sum(limit: u128, weight: u128, first: u128, second: u128) -> u128
    ensures { result ≡ min (weight + first + second) limit }
{
    weight
        .saturating_add(first)
        .saturating_add(second)
        .min(limit)
}

/// The cost of the alternative over those of its inputs, where it is less than what its target has.
pub fn offer(cells: &[Option<Cell>], edge: &Edge, limit: u128) -> Option<u128>
    requires target { edge.now.target < length cells.now }
    requires first { IsWithin (length cells.now) edge.now.first }
    requires second { IsWithin (length cells.now) edge.now.second }
    ensures { result ≡ offered limit cells.now edge.now }
{
    let first = value_of(cells, edge.first)?;
    let second = value_of(cells, edge.second)?;
    let cost = cut_sum(limit, edge.weight, first, second);
    match cell_of(cells, edge.target) {
        None => Some(cost),
        Some(cell) => { if cost < cell.cost { Some(cost) } else { None } }
    }
}
