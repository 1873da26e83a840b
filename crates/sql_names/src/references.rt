//! The places of the columns that a SELECT refers to.
ghost use Rattle.std.specs.Prelude.{◌≡◌, ◌<◌, ◌^◌, ◌++◌, ◌∷◌, [], length, map, IfOk, OnOk};
ghost use Rattle.std.specs.List.{flat_map};
ghost use Rattle.sql_meaning.specs.Mentions as spec;
ghost use Rattle.sql_meaning.specs.Parts.{columns_in, item_trees, listed};
ghost use Rattle.sql_meaning.specs.Scope as scopes;
ghost use Rattle.sql_meaning.specs.Scope.{types_in};

use cal_value::{List, NoMemory};
use sql_meaning::{Entry, column_at};
use sql_tree::{ColumnName, Cond, FromEntry, How, Item, Items, KeyBy, OrderKey, Select, Tree};
use std::alloc::Global;

fn add_column(
    scope: &[Entry<'_>],
    column: &ColumnName,
    places: &mut List<u32>,
) -> Result<(), NoMemory>
    requires { length (types_in scope.now) < 2 ^ 32 }
    ensures { OnOk result (places.new ≡ places.old ++ scopes.column_at scope.now column.now ∷ []) }
{
    places.push(column_at(scope, column) as u32)
}

fn add_tree(scope: &[Entry<'_>], tree: &Tree, places: &mut List<u32>) -> Result<(), NoMemory>
    requires { length (types_in scope.now) < 2 ^ 32 }
    ensures { OnOk result (places.new ≡ places.old
        ++ map (scopes.column_at scope.now) (columns_in tree.now)) }
{
    match tree {
        Tree::Column { name, .. } => add_column(scope, name, places),
        Tree::Literal { .. } => Ok(()),
        Tree::Negate { operand, .. } => add_tree(scope, operand.get(), places),
        Tree::Binary { left, right, .. } => {
            add_tree(scope, left.get(), places)?;
            add_tree(scope, right.get(), places)
        }
        Tree::Not { operand, .. } => add_tree(scope, operand.get(), places),
        Tree::IsNull { operand, .. } => add_tree(scope, operand.get(), places),
        Tree::Aggregate { argument, .. } => match argument {
            Some(argument) => add_tree(scope, argument.get(), places),
            None => Ok(()),
        },
    }
}

fn add_items(scope: &[Entry<'_>], items: &[Item], places: &mut List<u32>) -> Result<(), NoMemory>
    requires { length (types_in scope.now) < 2 ^ 32 }
    ensures { OnOk result (places.new ≡ places.old
        ++ map (scopes.column_at scope.now) (flat_map (λ item. columns_in item.tree) items.now)) }
{
    for item in items {
        add_tree(scope, &item.tree, places)?;
    }
    Ok(())
}

#[tactic(auto, using(crate::proofs::Mentioned::mention_rules))]
fn add_listed(scope: &[Entry<'_>], items: &Items, places: &mut List<u32>) -> Result<(), NoMemory>
    requires { length (types_in scope.now) < 2 ^ 32 }
    ensures { OnOk result (places.new ≡ places.old
        ++ map (scopes.column_at scope.now) (flat_map columns_in (item_trees items.now))) }
{
    match items {
        Items::Star => Ok(()),
        Items::Listed(items) => add_items(scope, items.as_slice(), places),
    }
}

#[tactic(auto, using(crate::proofs::Mentioned::mention_rules))]
fn add_condition(
    scope: &[Entry<'_>],
    condition: &Option<Tree>,
    places: &mut List<u32>,
) -> Result<(), NoMemory>
    requires { length (types_in scope.now) < 2 ^ 32 }
    ensures { OnOk result (places.new ≡ places.old
        ++ map (scopes.column_at scope.now) (flat_map columns_in (listed condition.now))) }
{
    match condition {
        Some(tree) => add_tree(scope, tree, places),
        None => Ok(()),
    }
}

fn add_cond(scope: &[Entry<'_>], cond: &Cond, places: &mut List<u32>) -> Result<(), NoMemory>
    requires { length (types_in scope.now) < 2 ^ 32 }
    ensures { OnOk result (places.new ≡ places.old
        ++ map (scopes.column_at scope.now) (spec.cond_columns cond.now)) }
{
    match cond {
        Cond::On(tree) => add_tree(scope, tree, places),
        Cond::Using(_) => Ok(()),
    }
}

fn add_how(scope: &[Entry<'_>], how: &How, places: &mut List<u32>) -> Result<(), NoMemory>
    requires { length (types_in scope.now) < 2 ^ 32 }
    ensures { OnOk result (places.new ≡ places.old
        ++ map (scopes.column_at scope.now) (spec.how_columns how.now)) }
{
    match how {
        How::First => Ok(()),
        How::Cross => Ok(()),
        How::Inner(cond) => add_cond(scope, cond, places),
        How::Left(cond) => add_cond(scope, cond, places),
    }
}

fn add_joins(
    scope: &[Entry<'_>],
    from: &[FromEntry],
    places: &mut List<u32>,
) -> Result<(), NoMemory>
    requires { length (types_in scope.now) < 2 ^ 32 }
    ensures { OnOk result (places.new ≡ places.old ++ map (scopes.column_at scope.now)
        (flat_map (λ entry. spec.how_columns entry.how) from.now)) }
{
    for entry in from {
        add_how(scope, &entry.how, places)?;
    }
    Ok(())
}

fn add_columns(
    scope: &[Entry<'_>],
    columns: &[ColumnName],
    places: &mut List<u32>,
) -> Result<(), NoMemory>
    requires { length (types_in scope.now) < 2 ^ 32 }
    ensures { OnOk result (places.new ≡ places.old
        ++ map (scopes.column_at scope.now) columns.now) }
{
    for column in columns {
        add_column(scope, column, places)?;
    }
    Ok(())
}

fn add_key(scope: &[Entry<'_>], by: &KeyBy, places: &mut List<u32>) -> Result<(), NoMemory>
    requires { length (types_in scope.now) < 2 ^ 32 }
    ensures { OnOk result (places.new ≡ places.old
        ++ map (scopes.column_at scope.now) (spec.named_by by.now)) }
{
    match by {
        KeyBy::Place(_) => Ok(()),
        KeyBy::Column(column) => match &column.alias {
            Some(_) => add_column(scope, column, places),
            None => Ok(()),
        },
    }
}

fn add_keys(scope: &[Entry<'_>], keys: &[OrderKey], places: &mut List<u32>) -> Result<(), NoMemory>
    requires { length (types_in scope.now) < 2 ^ 32 }
    ensures { OnOk result (places.new ≡ places.old
        ++ map (scopes.column_at scope.now) (spec.key_names keys.now)) }
{
    for key in keys {
        add_key(scope, &key.by, places)?;
    }
    Ok(())
}

/// The place of each column that the SELECT refers to, counted from 0 among the columns of all entries, in the order of the
/// tokens. The place past the end stands for a column that no entry has. The places fit 32 bits.
#[tactic(auto, using(crate::proofs::Mentioned::mention_rules))]
pub fn column_places(
    alloc: Global,
    select: &Select,
    scope: &[Entry<'_>],
) -> Result<List<u32>, NoMemory>
    requires { length (types_in scope.now) < 2 ^ 32 }
    ensures { IfOk result (λ places.
        places ≡ map (scopes.column_at scope.now) (spec.references select.now)) }
{
    let mut places = List::new(alloc);
    add_listed(scope, &select.items, &mut places)?;
    add_joins(scope, select.from.as_slice(), &mut places)?;
    add_condition(scope, &select.filter, &mut places)?;
    add_columns(scope, select.groups.as_slice(), &mut places)?;
    add_condition(scope, &select.having, &mut places)?;
    add_keys(scope, select.order.as_slice(), &mut places)?;
    Ok(places)
}
