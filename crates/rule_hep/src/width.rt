//! How many columns the rows of a tree have.
ghost use Rattle.std.specs.Prelude.{◌≡◌, ◌+◌, IfOk};
ghost use Rattle.cal_rel.specs.Bag.{table_width, set_width, leaf_width, width};
ghost use Rattle.cal_rel.specs.Tree.{tile_scan, star_scan, tree_of};

use cal_rel::{PlanInfo, Rel};
use cal_value::NoMemory;
use std::alloc::Global;

fn table_columns(info: &PlanInfo, table: u32) -> usize
    ensures { result ≡ table_width info.now.schema table }
{
    match info.table(table) {
        Some(table) => table.columns.len(),
        None => 0,
    }
}

// A schema has no lattices yet, so the rows of tiles and stars have no columns.
fn tile_columns(info: &PlanInfo, _at: u32) -> usize
    ensures { result ≡ leaf_width info.now (tile_scan _at) }
{
    let _ = &info.schema;
    0
}

fn star_columns(info: &PlanInfo, _lattice: u32) -> usize
    ensures { result ≡ leaf_width info.now (star_scan _lattice) }
{
    let _ = &info.schema;
    0
}

fn set_columns(alloc: Global, info: &PlanInfo, set: u32) -> Result<usize, NoMemory>
    ensures { IfOk result (λ n. n ≡ set_width info.now set) }
{
    match info.set_type(alloc, set)? {
        Some(t) => Ok(t.columns.len()),
        None => Ok(0),
    }
}

fn sum(first: usize, second: usize) -> Result<usize, NoMemory>
    ensures { IfOk result (λ n. n ≡ first + second) }
{
    first.checked_add(second).ok_or(NoMemory)
}

/// How many columns the rows of the tree have. Want of memory comes also where no memory could hold a row of so many.
#[tactic(auto, using(cal_rel::proofs::TreeSteps::tree_steps))]
pub fn width_of(alloc: Global, info: &PlanInfo, rel: &Rel) -> Result<usize, NoMemory>
    ensures { IfOk result (λ n. n ≡ width info.now (tree_of rel.now)) }
{
    match rel {
        Rel::Scan(table) => Ok(table_columns(info, *table)),
        Rel::TileScan(at) => Ok(tile_columns(info, *at)),
        Rel::StarScan { lattice } => Ok(star_columns(info, *lattice)),
        Rel::Filter { input, .. } => width_of(alloc, info, input.get()),
        Rel::Project { items, .. } => Ok(items.len()),
        Rel::Join { left, right, .. } => {
            let first = width_of(alloc, info, left.get())?;
            let second = width_of(alloc, info, right.get())?;
            sum(first, second)
        }
        Rel::Aggregate { groups, calls, .. } => sum(groups.len(), calls.len()),
        Rel::Empty(types) => Ok(types.len()),
        Rel::Hole(set) => set_columns(alloc, info, *set),
    }
}
