use crate::{Edge, Table, are_within, cheapest};
use cal_value::{List, NoMemory};
use std::alloc::Global;
use std::test::Fail;

// No input, and no cost.
const N: u32 = u32::MAX;

const NONE: u128 = u128::MAX;

const LIMIT: u128 = 1 << 100;

type Alternative = (u32, u128, u32, u32);

// What it shows, alternatives as target, weight and inputs, and the cost of each state.
const CASES: &[(&str, &[Alternative], &[u128])] = &[
    ("nothing", &[], &[NONE]),
    (
        "chain",
        &[(0, 2, 1, N), (1, 3, 2, N), (2, 5, N, N)],
        &[10, 8, 5],
    ),
    (
        "chain upwards",
        &[(0, 5, N, N), (1, 3, 0, N), (2, 2, 1, N)],
        &[5, 8, 10],
    ),
    (
        "cycle",
        &[(0, 10, N, N), (0, 1, 1, N), (1, 3, N, N), (1, 1, 0, N)],
        &[4, 3],
    ),
    (
        "long cycle",
        &[(0, 1, 1, N), (1, 1, 2, N), (2, 1, 0, N), (1, 7, N, N)],
        &[8, 7, 9],
    ),
    (
        "cycle without a base",
        &[(0, 1, 1, N), (1, 1, 0, N), (2, 4, N, N)],
        &[NONE, NONE, 4],
    ),
    (
        "loop without a base",
        &[(0, 1, 0, N), (1, 1, 0, N)],
        &[NONE, NONE],
    ),
    ("loop with a base", &[(0, 0, 0, N), (0, 6, N, N)], &[6]),
    (
        "two inputs",
        &[(0, 1, 1, 2), (1, 2, N, N), (2, 4, N, N)],
        &[7, 2, 4],
    ),
    (
        "two inputs, one without a base",
        &[(0, 1, 1, 2), (1, 2, N, N)],
        &[NONE, 2, NONE],
    ),
    ("one input twice", &[(0, 1, 1, 1), (1, 5, N, N)], &[11, 5]),
    ("second input alone", &[(0, 1, N, 1), (1, 5, N, N)], &[6, 5]),
    (
        "cheaper by two inputs",
        &[(0, 9, N, N), (0, 1, 1, 1), (1, 3, N, N)],
        &[7, 3],
    ),
    (
        "cheaper by none",
        &[(0, 6, N, N), (0, 1, 1, 1), (1, 3, N, N)],
        &[6, 3],
    ),
    (
        "equal costs",
        &[(0, 7, N, N), (0, 7, N, N), (0, 2, 1, N), (1, 5, N, N)],
        &[7, 5],
    ),
    (
        "cycle at no cost",
        &[(0, 0, 1, N), (1, 0, 0, N), (0, 7, N, N)],
        &[7, 7],
    ),
    ("below the limit", &[(0, LIMIT - 1, N, N)], &[LIMIT - 1]),
    (
        "cut",
        &[(0, 1, 1, N), (1, LIMIT, N, N), (2, u128::MAX, 1, 1)],
        &[LIMIT, LIMIT, LIMIT],
    ),
    (
        "cut in a cycle",
        &[(0, LIMIT, 1, N), (1, LIMIT, 0, N), (1, LIMIT, N, N)],
        &[LIMIT, LIMIT],
    ),
];

fn input(state: u32) -> Option<u32> {
    if state == N { None } else { Some(state) }
}

fn edges_of(alloc: Global, alternatives: &[Alternative]) -> Result<List<Edge>, NoMemory> {
    let mut edges = List::new(alloc);
    for (target, weight, first, second) in alternatives {
        edges.push(Edge {
            target: *target,
            weight: *weight,
            first: input(*first),
            second: input(*second),
        })?;
    }
    Ok(edges)
}

fn cost_of(table: &Table, state: usize) -> u128 {
    match table.cells.get(state) {
        Some(Some(cell)) => cell.cost,
        Some(None) => NONE,
        None => NONE,
    }
}

fn has_costs(table: &Table, wanted: &[u128]) -> bool {
    table.cells.len() == wanted.len()
        && wanted
            .iter()
            .enumerate()
            .all(|(state, cost)| cost_of(table, state) == *cost)
}

// Whether the cheapest derivations cost this.
fn is_solved(alloc: Global, case: &[Alternative], wanted: &[u128]) -> Result<bool, NoMemory> {
    let edges = edges_of(alloc, case)?;
    let Ok(states) = u32::try_from(wanted.len()) else {
        return Ok(false);
    };
    if !are_within(edges.as_slice(), states) {
        return Ok(false);
    }
    let table = cheapest(alloc, edges.as_slice(), states, LIMIT)?;
    Ok(has_costs(&table, wanted))
}

#[test]
fn cheapest_costs(rt: HostRuntime) -> Result<(), Fail> {
    let alloc = rt.alloc();
    for (name, case, wanted) in CASES {
        let solved = is_solved(alloc, case, wanted)?;
        assert!(rt; solved, "{name}");
    }
    Ok(())
}

// An alternative, a number of states, and whether it names those alone.
const WITHIN: &[(Alternative, u32, bool)] = &[
    ((0, 1, N, N), 1, true),
    ((1, 1, N, N), 1, false),
    ((0, 1, 1, N), 1, false),
    ((0, 1, 0, 1), 1, false),
    ((0, 1, 0, 1), 2, true),
];

#[test]
fn states_that_are_named(rt: HostRuntime) -> Result<(), Fail> {
    let alloc = rt.alloc();
    for (alternative, states, wanted) in WITHIN {
        let edges = edges_of(alloc, &[*alternative])?;
        assert!(rt; are_within(edges.as_slice(), *states) == *wanted);
    }
    Ok(())
}
