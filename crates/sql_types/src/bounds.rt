//! How many rows FROM has at most.
ghost use Rattle.std.specs.Prelude.{◌≡◌, ◌<◌, ◌≤◌, ◌^◌, ◌*◌, ◌==◌, ℕ, IfOk, OnOk};
ghost use Rattle.std.specs.Prelude.{◌++◌, ◌∷◌, [], length};
ghost use Rattle.std.specs.List.{flat_map, list_all, list_any};
ghost use Rattle.cal_value.specs.Interval.{limit};
ghost use Rattle.cal_aggregate.specs.ResultType as result_type;
ghost use Rattle.sql_meaning.specs.Bounds as spec;
ghost use Rattle.sql_meaning.specs.Bounds.{bound_of, equated};
ghost use Rattle.sql_meaning.specs.Parts.{listed};
ghost use Rattle.sql_meaning.specs.Scope.{types_in};
ghost use Rattle.sql_types.specs.Walks.{equated_of};

use crate::seen::seen;
use cal_value::{List, NUMBER_LIMIT, NoMemory, Op};
use sql_meaning::{Entry, column_count, column_place, conditions};
use sql_tree::Tree;
use std::alloc::Global;

// ---- the columns of an entry that a condition equates with columns before it

// The place of the column that the expression is.
fn column_of(tree: &Tree, scope: &[Entry<'_>]) -> Option<usize>
    requires { length (types_in scope.now) < 2 ^ 32 }
    ensures { (width : ℕ) → result ≡ (equated_of scope.now width tree.now).column }
{
    match tree {
        Tree::Column { name, .. } => column_place(scope, name),
        _ => None,
    }
}

// Of two columns one stands before the entry, whose columns begin at `width`, and one is its own.
fn key_of(width: usize, a: Option<usize>, b: Option<usize>) -> Option<usize>
    ensures { listed result ≡ spec.key_of width a b }
{
    match (a, b) {
        (Some(c), Some(d)) => {
            if c < width && width <= d {
                Some(d - width)
            } else if d < width && width <= c {
                Some(c - width)
            } else {
                None
            }
        }
        _ => None,
    }
}

fn add_key(key: Option<usize>, keys: &mut List<usize>) -> Result<(), NoMemory>
    ensures { OnOk result (keys.new ≡ keys.old ++ listed key) }
{
    match key {
        Some(column) => keys.push(column),
        None => Ok(()),
    }
}

// Puts the columns that the condition equates behind the keys.
fn add_equated(
    tree: &Tree,
    scope: &[Entry<'_>],
    width: usize,
    keys: &mut List<usize>,
) -> Result<(), NoMemory>
    requires { length (types_in scope.now) < 2 ^ 32 }
    ensures { OnOk result (keys.new ≡ keys.old ++ equated scope.now width tree.now) }
{
    match tree {
        Tree::Binary {
            op,
            left,
            right,
            ..
        } => match op {
            Op::And => {
                add_equated(left.get(), scope, width, keys)?;
                add_equated(right.get(), scope, width, keys)
            }
            Op::Equal => {
                let a = column_of(left.get(), scope);
                let b = column_of(right.get(), scope);
                add_key(key_of(width, a, b), keys)
            }
            _ => Ok(()),
        },
        _ => Ok(()),
    }
}

fn equated_by(
    alloc: Global,
    trees: &[Tree],
    scope: &[Entry<'_>],
    width: usize,
) -> Result<List<usize>, NoMemory>
    requires { length (types_in scope.now) < 2 ^ 32 }
    ensures { IfOk result (λ keys. keys ≡ flat_map (equated scope.now width) trees.now) }
{
    let mut keys = List::new(alloc);
    for tree in trees {
        add_equated(tree, scope, width, &mut keys)?;
    }
    Ok(keys)
}

fn is_among(columns: &[usize], column: u32) -> bool
    ensures { result ≡ list_any (λ other. other == column) columns.now }
{
    columns.iter().any(|other| *other == column as usize)
}

fn are_among(columns: &[usize], key: &[u32]) -> bool
    ensures { result ≡ list_all (λ c. list_any (λ other. other == c) columns.now) key.now }
{
    key.iter().all(|column| is_among(columns, *column))
}

fn has_key(columns: &[usize], key: &[u32]) -> bool
    ensures { result ≡ spec.has_key columns.now key.now }
{
    match key {
        [] => false,
        [_, ..] => are_among(columns, key),
    }
}

// Whether the conditions of the entry equate its primary key with columns of the entries before. `scope` has both.
fn is_keyed(
    alloc: Global,
    before: &[Entry<'_>],
    entry: &Entry<'_>,
    scope: &[Entry<'_>],
) -> Result<bool, NoMemory>
    requires both { scope.now ≡ before.now ++ entry.now ∷ [] }
    requires few_before { length (types_in before.now) < 2 ^ 32 }
    requires few { length (types_in scope.now) < 2 ^ 32 }
    ensures { IfOk result (λ keyed. keyed ≡ spec.is_keyed before.now entry.now) }
{
    let trees = conditions(alloc, entry.from())?;
    let keys = equated_by(alloc, trees.as_slice(), scope, column_count(before))?;
    Ok(has_key(keys.as_slice(), entry.table().primary_key.as_slice()))
}

// ---- bounds

// The product, cut at 10^38.
fn product_bound(a: u128, b: u128) -> u128
    ensures { result ≡ result_type.row_bound (a * b) }
{
    match a.checked_mul(b) {
        Some(rows) => rows.min(NUMBER_LIMIT as u128),
        None => NUMBER_LIMIT as u128,
    }
}

fn partners_bound(entry: &Entry<'_>) -> u128
    ensures { result ≡ spec.partners_bound entry.now }
{
    let rows = entry.table().max_rows as u128;
    if entry.is_padded() { rows.max(1) } else { rows }
}

fn joined_bound(
    alloc: Global,
    before: &[Entry<'_>],
    entry: &Entry<'_>,
    scope: &[Entry<'_>],
    rows: u128,
) -> Result<u128, NoMemory>
    requires both { scope.now ≡ before.now ++ entry.now ∷ [] }
    requires few_before { length (types_in before.now) < 2 ^ 32 }
    requires few { length (types_in scope.now) < 2 ^ 32 }
    ensures { IfOk result (λ bound. bound ≡ spec.joined_bound before.now entry.now rows) }
{
    if is_keyed(alloc, before, entry, scope)? {
        Ok(rows)
    } else {
        Ok(product_bound(rows, partners_bound(entry)))
    }
}

/// How many rows the entries of FROM have at most together, cut at 10^38. Where the conditions of an entry equate each
/// column of its primary key with one before, at most one of its rows goes with each row before. Want of memory is the
/// only error.
#[tactic(auto, using(crate::proofs::Bounded::bound_rules))]
pub fn row_bound(alloc: Global, scope: &[Entry<'_>]) -> Result<u128, NoMemory>
    requires { length (types_in scope.now) < 2 ^ 32 }
    ensures value { IfOk result (λ rows. rows ≡ bound_of scope.now) }
    ensures within { IfOk result (λ rows. rows ≤ limit) }
{
    let mut rows = 1;
    for (before, entry) in scope.iter().enumerate() {
        rows = joined_bound(
            alloc,
            seen(scope, before),
            entry,
            seen(scope, before + 1),
            rows,
        )?;
    }
    Ok(rows)
}
