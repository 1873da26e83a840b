//! The expressions of a SELECT.
ghost use Rattle.std.specs.Prelude.{◌≡◌, ◌++◌, map, IfOk, OnOk};
ghost use Rattle.sql_meaning.specs.Parts as spec;

use cal_value::{Duplicate, List, NoMemory, Op, SqlText};
use sql_tree::{ColumnName, Cond, FromEntry, How, Item, Items, Select, Tree, UsingName};
use sqlite_items::Boxed;
use std::alloc::Global;

/// Where in a SELECT an expression stands: as an item, as the condition of a join, in WHERE or in HAVING.
#[derive(Clone, Copy, Debug, PartialEq, Eq)]
pub enum Role {
    Item,
    Join,
    Where,
    Having,
}

/// An expression of a SELECT, which sees the first so many entries of FROM.
#[derive(Debug, Drop)]
pub struct SelectPart {
    pub entries: usize,
    pub role: Role,
    pub tree: Tree,
}

fn column(
    alloc: Global,
    place: u64,
    alias: Option<SqlText>,
    name: &SqlText,
) -> Result<Boxed<Tree>, NoMemory>
    ensures { IfOk result (λ tree.
        tree ≡ spec.column_tree place alias name.now) }
{
    let name = name.copy(alloc)?;
    let name = ColumnName { alias, name };
    Ok(Boxed::new(alloc, Tree::Column { place, name })?)
}

fn equal_columns(alloc: Global, alias: &SqlText, used: &UsingName) -> Result<Tree, NoMemory>
    ensures { IfOk result (λ tree. tree ≡ spec.equal_columns alias.now used.now) }
{
    let alias = alias.copy(alloc)?;
    let left = column(alloc, used.place, None, &used.name)?;
    let right = column(alloc, used.place, Some(alias), &used.name)?;
    Ok(Tree::Binary {
        place: used.place,
        op: Op::Equal,
        left,
        right,
    })
}

fn equalities(alloc: Global, alias: &SqlText, names: &[UsingName]) -> Result<List<Tree>, NoMemory>
    ensures { IfOk result (λ trees. trees ≡ map (spec.equal_columns alias.now) names.now) }
{
    let mut trees = List::new(alloc);
    for used in names {
        let tree = equal_columns(alloc, alias, used)?;
        trees.push(tree)?;
    }
    Ok(trees)
}

fn conditions_in(alloc: Global, alias: &SqlText, cond: &Cond) -> Result<List<Tree>, NoMemory>
    ensures { IfOk result (λ trees. trees ≡ spec.conditions_in alias.now cond.now) }
{
    match cond {
        Cond::On(tree) => {
            let mut trees = List::new(alloc);
            trees.push(tree.copy(alloc)?)?;
            Ok(trees)
        }
        Cond::Using(names) => equalities(alloc, alias, names.as_slice()),
    }
}

/// The conditions of the join by which the entry is joined with those before it: the expression of ON, or for each name
/// of USING that the two columns are equal.
pub fn conditions(alloc: Global, entry: &FromEntry) -> Result<List<Tree>, NoMemory>
    ensures { IfOk result (λ trees. trees ≡ spec.conditions entry.now) }
{
    match &entry.how {
        How::First => Ok(List::new(alloc)),
        How::Cross => Ok(List::new(alloc)),
        How::Inner(cond) => conditions_in(alloc, &entry.alias, cond),
        How::Left(cond) => conditions_in(alloc, &entry.alias, cond),
    }
}

// Puts the trees behind the parts.
fn add_trees(
    entries: usize,
    role: Role,
    trees: List<Tree>,
    parts: &mut List<SelectPart>,
) -> Result<(), NoMemory>
    ensures { OnOk result (parts.new ≡ parts.old ++ map (spec.part entries role) trees) }
{
    for tree in trees.into_vec() {
        parts.push(SelectPart {
            entries,
            role,
            tree,
        })?;
    }
    Ok(())
}

fn add_items(
    alloc: Global,
    entries: usize,
    items: &[Item],
    parts: &mut List<SelectPart>,
) -> Result<(), NoMemory>
    ensures { OnOk result (parts.new ≡ parts.old
        ++ map (spec.part entries Role.Item) (map (λ item. item.tree) items.now)) }
{
    for item in items {
        let tree = item.tree.copy(alloc)?;
        parts.push(SelectPart {
            entries,
            role: Role::Item,
            tree,
        })?;
    }
    Ok(())
}

fn add_listed(
    alloc: Global,
    entries: usize,
    items: &Items,
    parts: &mut List<SelectPart>,
) -> Result<(), NoMemory>
    ensures { OnOk result (parts.new ≡ parts.old
        ++ map (spec.part entries Role.Item) (spec.item_trees items.now)) }
{
    match items {
        Items::Star => Ok(()),
        Items::Listed(items) => add_items(alloc, entries, items.as_slice(), parts),
    }
}

fn add_joins(
    alloc: Global,
    from: &[FromEntry],
    parts: &mut List<SelectPart>,
) -> Result<(), NoMemory>
    ensures { OnOk result (parts.new ≡ parts.old ++ spec.join_parts 0 from.now) }
{
    for (before, entry) in from.iter().enumerate() {
        let trees = conditions(alloc, entry)?;
        add_trees(before + 1, Role::Join, trees, parts)?;
    }
    Ok(())
}

fn add_condition(
    alloc: Global,
    entries: usize,
    role: Role,
    condition: &Option<Tree>,
    parts: &mut List<SelectPart>,
) -> Result<(), NoMemory>
    ensures { OnOk result (parts.new ≡ parts.old
        ++ map (spec.part entries role) (spec.listed condition.now)) }
{
    match condition {
        Some(tree) => {
            let tree = tree.copy(alloc)?;
            parts.push(SelectPart {
                entries,
                role,
                tree,
            })
        }
        None => Ok(()),
    }
}

/// The expressions of the SELECT in the order of their tokens.
pub fn parts_of(alloc: Global, select: &Select) -> Result<List<SelectPart>, NoMemory>
    ensures { IfOk result (λ parts. parts ≡ spec.parts_of select.now) }
{
    let all = select.from.len();
    let mut parts = List::new(alloc);
    add_listed(alloc, all, &select.items, &mut parts)?;
    add_joins(alloc, select.from.as_slice(), &mut parts)?;
    add_condition(alloc, all, Role::Where, &select.filter, &mut parts)?;
    add_condition(alloc, all, Role::Having, &select.having, &mut parts)?;
    Ok(parts)
}
