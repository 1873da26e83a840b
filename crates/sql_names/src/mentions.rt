//! The names of columns and aliases in a SELECT, each with how many entries of FROM it may stand for.
ghost use Rattle.std.specs.Prelude.{◌≡◌, ◌==◌, ◌++◌, ◌∷◌, [], nat_lt, map, count_by, find, if◌then◌else◌, IfOk, OnOk};
ghost use Rattle.std.specs.List.{flat_map};
ghost use Rattle.std.specs.Option.{option_copied};
ghost use Rattle.cal_schema.specs.Lookup.{is_same_name};
ghost use Rattle.sql_meaning.specs.Mentions as spec;
ghost use Rattle.sql_meaning.specs.Parts.{item_trees, listed};
ghost use Rattle.sql_meaning.specs.Scope as scopes;

use cal_schema::WrittenName;
use cal_value::{Duplicate, List, NoMemory, SqlText};
use sql_meaning::{Entry, Mention};
use sql_tree::{ColumnName, Cond, How, Item, Items, KeyBy, OrderKey, Select, Tree, UsingName};
use std::alloc::Global;

fn homes(scope: &[Entry<'_>], name: &ColumnName) -> usize
    ensures { result ≡ scopes.homes scope.now name.now }
{
    scope
        .iter()
        .filter(|entry| entry.place(name).is_some())
        .count()
}

fn column_mention(
    alloc: Global,
    scope: &[Entry<'_>],
    column: &ColumnName,
) -> Result<Mention, NoMemory>
    ensures { IfOk result (λ mention. mention ≡ spec.column_mention scope.now column.now) }
{
    let qualifier = column.alias.copy(alloc)?;
    let name = column.name.copy(alloc)?;
    let name = WrittenName { qualifier, name };
    let homes = homes(scope, column);
    Ok(Mention { name, homes })
}

fn alias_homes(seen: &[Entry<'_>], alias: &SqlText) -> usize
    ensures { result ≡ count_by (λ b. is_same_name b.entry.alias alias.now) seen.now }
{
    seen.iter()
        .filter(|entry| entry.from().alias == *alias)
        .count()
}

// The alias of the last of the entries.
fn alias_mention(
    alloc: Global,
    before: &[Entry<'_>],
    entry: &Entry<'_>,
    seen: &[Entry<'_>],
) -> Result<Mention, NoMemory>
    requires { seen.now ≡ before.now ++ entry.now ∷ [] }
    ensures { IfOk result (λ mention. mention ≡ spec.alias_mention before.now entry.now) }
{
    let alias = &entry.from().alias;
    let name = WrittenName {
        qualifier: None,
        name: alias.copy(alloc)?,
    };
    let homes = alias_homes(seen, alias);
    Ok(Mention { name, homes })
}

fn using_homes(before: &[Entry<'_>], entry: &Entry<'_>, column: &ColumnName) -> usize
    ensures { result ≡ (if spec.has_column entry.now column.now.name
        then scopes.homes before.now column.now else 0) }
{
    if entry.has(&column.name) {
        homes(before, column)
    } else {
        0
    }
}

fn using_mention(
    alloc: Global,
    before: &[Entry<'_>],
    entry: &Entry<'_>,
    name: &SqlText,
) -> Result<Mention, NoMemory>
    ensures { IfOk result (λ mention.
        mention ≡ spec.using_mention before.now entry.now name.now) }
{
    let column = ColumnName {
        alias: None,
        name: name.copy(alloc)?,
    };
    let homes = using_homes(before, entry, &column);
    let name = WrittenName {
        qualifier: None,
        name: column.name,
    };
    Ok(Mention { name, homes })
}

fn add_column(
    alloc: Global,
    scope: &[Entry<'_>],
    column: &ColumnName,
    all: &mut List<Mention>,
) -> Result<(), NoMemory>
    ensures { OnOk result (all.new ≡ all.old ++ spec.column_mention scope.now column.now ∷ []) }
{
    let mention = column_mention(alloc, scope, column)?;
    all.push(mention)
}

fn add_tree(
    alloc: Global,
    scope: &[Entry<'_>],
    tree: &Tree,
    all: &mut List<Mention>,
) -> Result<(), NoMemory>
    ensures { OnOk result (all.new ≡ all.old ++ spec.tree_mentions scope.now tree.now) }
{
    match tree {
        Tree::Column { name, .. } => add_column(alloc, scope, name, all),
        Tree::Literal { .. } => Ok(()),
        Tree::Negate { operand, .. } => add_tree(alloc, scope, operand.get(), all),
        Tree::Binary { left, right, .. } => {
            add_tree(alloc, scope, left.get(), all)?;
            add_tree(alloc, scope, right.get(), all)
        }
        Tree::Not { operand, .. } => add_tree(alloc, scope, operand.get(), all),
        Tree::IsNull { operand, .. } => add_tree(alloc, scope, operand.get(), all),
        Tree::Aggregate { argument, .. } => match argument {
            Some(argument) => add_tree(alloc, scope, argument.get(), all),
            None => Ok(()),
        },
    }
}

fn add_items(
    alloc: Global,
    scope: &[Entry<'_>],
    items: &[Item],
    all: &mut List<Mention>,
) -> Result<(), NoMemory>
    ensures { OnOk result (all.new ≡ all.old
        ++ flat_map (λ item. spec.tree_mentions scope.now item.tree) items.now) }
{
    for item in items {
        add_tree(alloc, scope, &item.tree, all)?;
    }
    Ok(())
}

#[tactic(auto, using(crate::proofs::Mentioned::mention_rules))]
fn add_listed(
    alloc: Global,
    scope: &[Entry<'_>],
    items: &Items,
    all: &mut List<Mention>,
) -> Result<(), NoMemory>
    ensures { OnOk result (all.new ≡ all.old
        ++ flat_map (spec.tree_mentions scope.now) (item_trees items.now)) }
{
    match items {
        Items::Star => Ok(()),
        Items::Listed(items) => add_items(alloc, scope, items.as_slice(), all),
    }
}

#[tactic(auto, using(crate::proofs::Mentioned::mention_rules))]
fn add_condition(
    alloc: Global,
    scope: &[Entry<'_>],
    condition: &Option<Tree>,
    all: &mut List<Mention>,
) -> Result<(), NoMemory>
    ensures { OnOk result (all.new ≡ all.old
        ++ flat_map (spec.tree_mentions scope.now) (listed condition.now)) }
{
    match condition {
        Some(tree) => add_tree(alloc, scope, tree, all),
        None => Ok(()),
    }
}

fn add_using(
    alloc: Global,
    before: &[Entry<'_>],
    entry: &Entry<'_>,
    names: &[UsingName],
    all: &mut List<Mention>,
) -> Result<(), NoMemory>
    ensures { OnOk result (all.new ≡ all.old
        ++ map (λ n. spec.using_mention before.now entry.now n.name) names.now) }
{
    for used in names {
        let mention = using_mention(alloc, before, entry, &used.name)?;
        all.push(mention)?;
    }
    Ok(())
}

fn add_cond(
    alloc: Global,
    before: &[Entry<'_>],
    entry: &Entry<'_>,
    seen: &[Entry<'_>],
    cond: &Cond,
    all: &mut List<Mention>,
) -> Result<(), NoMemory>
    requires { seen.now ≡ before.now ++ entry.now ∷ [] }
    ensures { OnOk result (all.new ≡ all.old
        ++ spec.cond_mentions before.now entry.now cond.now) }
{
    match cond {
        Cond::On(tree) => add_tree(alloc, seen, tree, all),
        Cond::Using(names) => add_using(alloc, before, entry, names.as_slice(), all),
    }
}

fn add_how(
    alloc: Global,
    before: &[Entry<'_>],
    entry: &Entry<'_>,
    seen: &[Entry<'_>],
    all: &mut List<Mention>,
) -> Result<(), NoMemory>
    requires { seen.now ≡ before.now ++ entry.now ∷ [] }
    ensures { OnOk result (all.new ≡ all.old
        ++ spec.how_mentions before.now entry.now entry.now.entry.how) }
{
    match &entry.from().how {
        How::First => Ok(()),
        How::Cross => Ok(()),
        How::Inner(cond) => add_cond(alloc, before, entry, seen, cond, all),
        How::Left(cond) => add_cond(alloc, before, entry, seen, cond, all),
    }
}

fn add_entry(
    alloc: Global,
    before: &[Entry<'_>],
    entry: &Entry<'_>,
    seen: &[Entry<'_>],
    all: &mut List<Mention>,
) -> Result<(), NoMemory>
    requires { seen.now ≡ before.now ++ entry.now ∷ [] }
    ensures { OnOk result (all.new ≡ all.old ++ spec.entry_mentions before.now entry.now) }
{
    let mention = alias_mention(alloc, before, entry, seen)?;
    all.push(mention)?;
    add_how(alloc, before, entry, seen, all)
}

fn add_from(alloc: Global, scope: &[Entry<'_>], all: &mut List<Mention>) -> Result<(), NoMemory>
    ensures { OnOk result (all.new ≡ all.old ++ spec.from_mentions [] scope.now) }
{
    for (at, entry) in scope.iter().enumerate() {
        add_entry(alloc, &scope[..at], entry, &scope[..at + 1], all)?;
    }
    Ok(())
}

fn add_columns(
    alloc: Global,
    scope: &[Entry<'_>],
    columns: &[ColumnName],
    all: &mut List<Mention>,
) -> Result<(), NoMemory>
    ensures { OnOk result (all.new ≡ all.old
        ++ map (spec.column_mention scope.now) columns.now) }
{
    for column in columns {
        add_column(alloc, scope, column, all)?;
    }
    Ok(())
}

fn add_key(
    alloc: Global,
    scope: &[Entry<'_>],
    by: &KeyBy,
    all: &mut List<Mention>,
) -> Result<(), NoMemory>
    ensures { OnOk result (all.new ≡ all.old
        ++ map (spec.column_mention scope.now) (spec.named_by by.now)) }
{
    match by {
        KeyBy::Place(_) => Ok(()),
        KeyBy::Column(column) => match &column.alias {
            Some(_) => add_column(alloc, scope, column, all),
            None => Ok(()),
        },
    }
}

fn add_keys(
    alloc: Global,
    scope: &[Entry<'_>],
    keys: &[OrderKey],
    all: &mut List<Mention>,
) -> Result<(), NoMemory>
    ensures { OnOk result (all.new ≡ all.old
        ++ map (spec.column_mention scope.now) (spec.key_names keys.now)) }
{
    for key in keys {
        add_key(alloc, scope, &key.by, all)?;
    }
    Ok(())
}

/// The names of columns and aliases in the SELECT over these entries, in the order of their tokens.
pub fn mentions_of(
    alloc: Global,
    select: &Select,
    scope: &[Entry<'_>],
) -> Result<List<Mention>, NoMemory>
    ensures { IfOk result (λ all. all ≡ spec.mentions scope.now select.now) }
{
    let mut all = List::new(alloc);
    add_listed(alloc, scope, &select.items, &mut all)?;
    add_from(alloc, scope, &mut all)?;
    add_condition(alloc, scope, &select.filter, &mut all)?;
    add_columns(alloc, scope, select.groups.as_slice(), &mut all)?;
    add_condition(alloc, scope, &select.having, &mut all)?;
    add_keys(alloc, scope, select.order.as_slice(), &mut all)?;
    Ok(all)
}
