//! Whether the condition of a join equates columns of both sides, found without memory.
ghost use Rattle.std.specs.Prelude.{◌≡◌, ℕ};
ghost use Rattle.cal_rel.specs.Bag.{table_width, set_width, leaf_width, width};
ghost use Rattle.cal_rel.specs.Tree.{tile_scan, star_scan, tree_of};
ghost use Rattle.cal_rel.specs.Typing as typing;
ghost use Rattle.rel_meta.specs.Estimates.{counted, has_pair};

use crate::keys::column_in;
use cal_expr::{Expr, Op};
use cal_rel::{PlanInfo, Rel};

// ---- columns of a tree

fn table_columns(info: &PlanInfo, table: u32) -> usize
    ensures { result ≡ table_width info.now.schema table }
{
    match info.table(table) {
        Some(table) => table.columns.len(),
        None => 0,
    }
}

// A schema has no lattices yet, so the rows of tiles and stars have no columns.
fn tile_columns(info: &PlanInfo, _at: u32) -> usize
    ensures { result ≡ leaf_width info.now (tile_scan _at) }
{
    let _ = &info.schema;
    0
}

fn star_columns(info: &PlanInfo, _lattice: u32) -> usize
    ensures { result ≡ leaf_width info.now (star_scan _lattice) }
{
    let _ = &info.schema;
    0
}

fn set_columns(info: &PlanInfo, set: u32) -> usize
    ensures { result ≡ set_width info.now set }
{
    match info.sets.get(set as usize) {
        Some(Some(t)) => t.columns.len(),
        Some(None) => 0,
        None => 0,
    }
}

// How many columns the rows of the tree have. The count stands still at the end of its type, past every column's number.
#[tactic(auto, using(cal_rel::proofs::TreeSteps::tree_steps))]
fn columns_of(info: &PlanInfo, rel: &Rel) -> usize
    ensures { result ≡ counted (width info.now (tree_of rel.now)) }
{
    match rel {
        Rel::Scan(table) => table_columns(info, *table),
        Rel::TileScan(at) => tile_columns(info, *at),
        Rel::StarScan { lattice } => star_columns(info, *lattice),
        Rel::Filter { input, .. } => columns_of(info, input.get()),
        Rel::Project { items, .. } => items.len(),
        Rel::Join { left, right, .. } => {
            columns_of(info, left.get()).saturating_add(columns_of(info, right.get()))
        }
        Rel::Aggregate { groups, calls, .. } => groups.len().saturating_add(calls.len()),
        Rel::Empty(types) => types.len(),
        Rel::Hole(set) => set_columns(info, *set),
    }
}

// ---- conditions

// Whether one of two columns is among so many left ones and the other behind them.
fn on_both_sides(count: usize, c: Option<u32>, d: Option<u32>) -> bool
    ensures { (width : ℕ) → count ≡ counted width → result ≡ has_pair (typing.pair_of width c d) }
{
    let (Some(c), Some(d)) = (c, d) else {
        return false;
    };
    let (c, d) = (c as usize, d as usize);
    (c < count && count <= d) || (d < count && count <= c)
}

fn equates_columns(count: usize, on: &Expr) -> bool
    ensures { (width : ℕ) → count ≡ counted width → result ≡ has_pair (typing.pairs_of width on.now) }
{
    match on {
        Expr::Binary { op, left, right } => match op {
            Op::And => equates_columns(count, left.get()) || equates_columns(count, right.get()),
            Op::Equal => on_both_sides(count, column_in(left.get()), column_in(right.get())),
            Op::Add
            | Op::Subtract
            | Op::Multiply
            | Op::Divide
            | Op::NotEqual
            | Op::Less
            | Op::LessEqual
            | Op::Greater
            | Op::GreaterEqual
            | Op::Or => false,
        },
        Expr::Column(_) => false,
        Expr::Literal(_) => false,
        Expr::Negate(_) => false,
        Expr::Not(_) => false,
        Expr::IsNull(_) => false,
    }
}

/// Whether some conjunct of the condition equates a column of the left side and one of the other side. Takes no memory.
pub(crate) fn equates(info: &PlanInfo, left: &Rel, on: &Expr) -> bool
    ensures { result ≡ has_pair (typing.pairs_of (width info.now (tree_of left.now)) on.now) }
{
    equates_columns(columns_of(info, left), on)
}
