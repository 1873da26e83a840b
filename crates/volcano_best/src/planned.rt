ghost use Rattle.std.specs.Prelude.{◌≡◌, ◌<◌, length, Some, IfOk};
ghost use Rattle.cheapest_derivations.specs.Offers.{cell_at};
ghost use Rattle.phys_plan.specs.Grounded.{HoldsTree};
ghost use Rattle.phys_plan.specs.Seen.{space_of};
ghost use Rattle.phys_plan.specs.Spaces.{HasWidths};
ghost use Rattle.volcano_best.specs.Solved.{IsSolved, IsAnswer, IsCheapest, root_state};

use crate::graph::{Graph, graph_of};
use crate::read::plan_at;
use cal_value::{Collation, Duplicate, List, NoMemory};
use cheapest_derivations::{Cell, Table, cheapest};
use phys_plan::{Ask, Space, State, Want};
use plan_nodes::{COST_LIMIT, Plan};
use std::alloc::Global;

/// A plan, and what it costs.
#[derive(Debug, Drop)]
pub struct Planned {
    pub plan: Plan,
    pub cost: u128,
}

fn root_state(alloc: Global, root: u32, order: &Collation) -> Result<State, NoMemory>
    ensures { IfOk result (λ state. state ≡ root_state root order.now) }
{
    let need = order.copy(alloc)?;
    let order = order.copy(alloc)?;
    Ok(State {
        ask: Ask {
            set: root,
            want: Want::Rows,
            order,
        },
        need,
    })
}

fn count(states: &List<State>) -> Result<u32, NoMemory>
    ensures { IfOk result (λ n. length states.now ≡ n) }
{
    let Ok(n) = u32::try_from(states.len()) else {
        return Err(NoMemory);
    };
    Ok(n)
}

fn root_cell(cells: &[Option<Cell>]) -> Option<Cell>
    requires { 0 < length cells.now }
    ensures { result ≡ cell_at cells.now 0 }
{
    cells[0]
}

/// The plan and the cost of the root's cell.
fn read_best(
    alloc: Global,
    space: &Space,
    root: u32,
    order: &Collation,
    graph: &Graph,
    table: &Table,
) -> Result<Option<Planned>, NoMemory>
    requires { IsSolved (space_of space.now) root order.now
        graph.now.states graph.now.roots graph.now.edges table.now.cells table.now.steps }
    ensures { IfOk result (λ found. IsAnswer (space_of space.now) root order.now found) }
{
    match root_cell(table.cells.as_slice()) {
        None => Ok(None),
        Some(cell) => {
            let steps = table.steps.as_slice();
            let roots = graph.roots.as_slice();
            let plan = plan_at(alloc, steps, roots, cell.place)?;
            Ok(Some(Planned {
                plan,
                cost: cell.cost,
            }))
        }
    }
}

/// A plan of the set in this order of which none costs less, and what it costs, where members have as many columns as their
/// sets; None where the set has no plan at all. Takes memory for each state that can be asked and each of its alternatives;
/// more than 2^32 states count as want of it.
pub fn find_best(
    alloc: Global,
    space: &Space,
    root: u32,
    order: &Collation,
) -> Result<Option<Planned>, NoMemory>
    ensures { IfOk result (λ found. IsAnswer (space_of space.now) root order.now found) }
{
    let state = root_state(alloc, root, order)?;
    let graph = graph_of(alloc, space, state)?;
    let states = count(&graph.states)?;
    let table = cheapest(alloc, graph.edges.as_slice(), states, COST_LIMIT)?;
    read_best(alloc, space, root, order, &graph, &table)
}

/// A plan of the set in this order of which none costs less, and what it costs. Memory as with `find_best`.
pub fn best(alloc: Global, space: &Space, root: u32, order: &Collation) -> Result<Planned, NoMemory>
    requires widths { HasWidths (space_of space.now) }
    requires tree { HoldsTree (space_of space.now) root }
    ensures { IfOk result (λ best. IsCheapest (space_of space.now) root order.now best) }
{
    let found = find_best(alloc, space, root, order)?;
    Ok(found.unwrap())
}
