//! The tree of a SELECT.
ghost use Rattle.std.specs.Prelude.{◌≡◌, ◌<◌, ◌^◌, length, map, IfOk};
ghost use Rattle.cal_rel.specs.Tree.{tree_of};
ghost use Rattle.cal_schema.specs.Valid.{IsValidSchema};
ghost use Rattle.sql_algebra.specs.Algebra as spec;
ghost use Rattle.sql_algebra.specs.Formed.{IsFormed};
ghost use Rattle.sql_meaning.specs.Names.{places_from};
ghost use Rattle.sql_meaning.specs.Order.{keys_of};
ghost use Rattle.sql_meaning.specs.Scope.{scope_of, types_in};
ghost use Rattle.sql_translate.specs.Translated.{IsAccepted, MeansTheSelect};

use crate::aggregates::aggregate_tree;
use crate::calls::layout_of;
use crate::from::{from_tree, where_tree};
use crate::items::{distinct_tree, group_items, having_tree, row_items};
use crate::order::order_keys;
use cal_rel::Rel;
use cal_schema::Schema;
use cal_value::{Collation, NoMemory};
use sql_meaning::Entry;
use sql_names::entries;
use sql_tree::Select;
use sql_validator::{CheckedSelect, is_aggregate_query};
use std::alloc::Global;

#[tactic(auto, using(cal_rel::proofs::TreeSteps::tree_steps))]
fn group_answer(
    alloc: Global,
    tree: Rel,
    select: &Select,
    scope: &[Entry<'_>],
) -> Result<Rel, NoMemory>
    requires { length (types_in scope.now) < 2 ^ 32 }
    ensures { IfOk result (λ rel. tree_of rel ≡ spec.group_answer scope.now
        (spec.layout_of scope.now select.now) select.now (tree_of tree)) }
{
    let layout = layout_of(alloc, select, scope)?;
    let items = group_items(alloc, &select.items, scope, &layout)?;
    let grouped = aggregate_tree(alloc, tree, &layout)?;
    let kept = having_tree(alloc, grouped, &select.having, scope, &layout)?;
    Rel::project(alloc, kept, items)
}

#[tactic(auto, using(cal_rel::proofs::TreeSteps::tree_steps))]
fn row_answer(
    alloc: Global,
    tree: Rel,
    select: &Select,
    scope: &[Entry<'_>],
) -> Result<Rel, NoMemory>
    requires { length (types_in scope.now) < 2 ^ 32 }
    ensures { IfOk result (λ rel. tree_of rel ≡ spec.row_answer scope.now select.now (tree_of tree)) }
{
    let items = row_items(alloc, &select.items, scope)?;
    Rel::project(alloc, tree, items)
}

fn answer_tree(
    alloc: Global,
    tree: Rel,
    select: &Select,
    scope: &[Entry<'_>],
) -> Result<Rel, NoMemory>
    requires { length (types_in scope.now) < 2 ^ 32 }
    ensures { IfOk result (λ rel. tree_of rel ≡ spec.answer_tree scope.now select.now (tree_of tree)) }
{
    if is_aggregate_query(select) {
        group_answer(alloc, tree, select, scope)
    } else {
        row_answer(alloc, tree, select, scope)
    }
}

// DISTINCT keeps one of equal rows.
fn once_tree(
    alloc: Global,
    tree: Rel,
    select: &Select,
    scope: &[Entry<'_>],
) -> Result<Rel, NoMemory>
    requires { length (types_in scope.now) < 2 ^ 32 }
    ensures { IfOk result (λ rel. tree_of rel ≡ spec.once_tree select.now.distinct
        (places_from 0 (spec.row_items scope.now select.now.items)) (tree_of tree)) }
{
    if !select.distinct {
        return Ok(tree);
    }
    let items = row_items(alloc, &select.items, scope)?;
    distinct_tree(alloc, tree, items.as_slice())
}

// The tree over the joins of FROM.
fn tree_over(
    alloc: Global,
    tree: Rel,
    select: &Select,
    scope: &[Entry<'_>],
) -> Result<Rel, NoMemory>
    requires { length (types_in scope.now) < 2 ^ 32 }
    ensures { IfOk result (λ rel. tree_of rel ≡ spec.algebra_over scope.now select.now (tree_of tree)) }
{
    let found = where_tree(alloc, tree, &select.filter, scope)?;
    let answer = answer_tree(alloc, found, select, scope)?;
    once_tree(alloc, answer, select, scope)
}

/// The tree of the SELECT, whose rows are those that it means in the same order, and the keys of ORDER BY as columns of these
/// rows. The schema is valid, the SELECT is one that a text spells, and `validate` answered it for this schema.
pub fn translate(
    alloc: Global,
    checked: &CheckedSelect,
    schema: &Schema,
) -> Result<(Rel, Collation), NoMemory>
    requires valid { IsValidSchema schema.now }
    requires formed { IsFormed checked.now.select }
    requires accepted { IsAccepted schema.now checked.now }
    ensures tree { IfOk result (λ made.
        tree_of made.0 ≡ spec.algebra schema.now checked.now.select) }
    ensures order { IfOk result (λ made.
        made.1 ≡ keys_of (scope_of schema.now checked.now.select) checked.now.select) }
    ensures means { IfOk result (λ made.
        MeansTheSelect schema.now checked.now.select (tree_of made.0)) }
{
    let from = checked.select.from.as_slice();
    let scope = entries(alloc, from, &checked.tables, schema)?;
    let scope = scope.as_slice();
    let joined = from_tree(alloc, from, checked.tables.as_slice(), scope)?;
    let tree = tree_over(alloc, joined, &checked.select, scope)?;
    let keys = order_keys(alloc, &checked.select, checked.names.as_slice(), scope)?;
    Ok((tree, keys))
}
