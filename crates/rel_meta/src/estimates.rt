//! How many rows a tree is thought to have.
ghost use Rattle.std.specs.Prelude.{◌≡◌, ℕ, List as ListOf};
ghost use Rattle.cal_rel.specs.Tree.{tree_of};
ghost use Rattle.rel_meta.specs.Estimates as spec;
ghost use Rattle.rel_meta.specs.Estimates.{cut, table_counts};

use crate::equates::equates;
use cal_rel::{JoinKind, PlanInfo, Rel};
use cal_snapshot::{Part, Snapshot};
use cal_value::List;

/// No estimate is greater: 2^100.
pub const ESTIMATE_LIMIT: u128 = 1 << 100;

fn cut(rows: u128) -> u128
    ensures { result ≡ cut rows }
{
    rows.min(ESTIMATE_LIMIT)
}

// ---- leaves

#[tactic(auto, using(crate::proofs::CountSteps::count_steps))]
fn table_rows(snapshot: &Snapshot, table: u32) -> u128
    ensures { result ≡ spec.rows_of_table (table_counts snapshot.now) table }
{
    match snapshot.rows_len(Part::Table(table)) {
        Some(rows) => u128::from(rows),
        None => 0,
    }
}

fn tile_rows(info: &PlanInfo, at: u32) -> u128
    ensures { result ≡ spec.rows_of_tile info.now.tiles at }
{
    match info.tiles.get(at as usize) {
        Some(tile) => u128::from(tile.rows),
        None => 0,
    }
}

// A schema has no lattices yet, so a star has no table.
fn star_rows(info: &PlanInfo, _lattice: u32) -> u128
    ensures { (counts : ListOf ℕ) → result ≡ spec.rows_of_star info.now counts _lattice }
{
    let _ = &info.schema;
    0
}

// ---- nodes

// Half of the rows, rounded up.
fn half(rows: u128) -> u128
    ensures { result ≡ cut (spec.half rows) }
{
    cut(rows.div_ceil(2))
}

fn inner_rows(equated: bool, left: u128, right: u128) -> u128
    ensures { result ≡ cut (spec.inner_rows equated left right) }
{
    let rows = if equated {
        left.max(right)
    } else {
        left.saturating_mul(right)
    };
    cut(rows)
}

fn join_rows(kind: JoinKind, equated: bool, left: u128, right: u128) -> u128
    ensures { result ≡ cut (spec.join_rows kind equated left right) }
{
    let inner = inner_rows(equated, left, right);
    match kind {
        JoinKind::Inner => inner,
        JoinKind::Left => cut(left.max(inner)),
    }
}

fn group_rows(groups: &List<u32>, rows: u128) -> u128
    ensures { result ≡ cut (spec.group_rows groups.now rows) }
{
    match groups.as_slice() {
        [] => 1,
        [_, ..] => half(rows),
    }
}

// ---- trees

/// How many rows the tree is thought to have, cut at `ESTIMATE_LIMIT`: those of its tables and tiles as they are, half of them behind a filter or a
/// grouping, the greater side of a join that equates columns of both, and each pair of rows of another one. A table, a tile or a star that isn't there
/// has no rows, nor has a hole. Takes no memory.
#[tactic(auto, using(cal_rel::proofs::TreeSteps::tree_steps))]
pub fn estimate(rel: &Rel, info: &PlanInfo, snapshot: &Snapshot) -> u128
    ensures { result ≡ spec.estimate info.now (table_counts snapshot.now) (tree_of rel.now) }
{
    match rel {
        Rel::Scan(table) => cut(table_rows(snapshot, *table)),
        Rel::TileScan(at) => cut(tile_rows(info, *at)),
        Rel::StarScan { lattice } => cut(star_rows(info, *lattice)),
        Rel::Filter { input, .. } => half(estimate(input.get(), info, snapshot)),
        Rel::Project { input, .. } => cut(estimate(input.get(), info, snapshot)),
        Rel::Join {
            kind,
            left,
            right,
            on,
        } => {
            let equated = equates(info, left.get(), on);
            let first = estimate(left.get(), info, snapshot);
            let second = estimate(right.get(), info, snapshot);
            join_rows(*kind, equated, first, second)
        }
        Rel::Aggregate { input, groups, .. } => {
            group_rows(groups, estimate(input.get(), info, snapshot))
        }
        Rel::Empty(_) => 0,
        Rel::Hole(_) => 0,
    }
}
