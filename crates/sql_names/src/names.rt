//! The names of the columns of an answer.
ghost use Rattle.std.specs.Prelude.{◌≡◌, ◌++◌, ◌∷◌, [], IfOk, OnOk, if◌then◌else◌};
ghost use Rattle.sql_tree.specs.declared.tree.Tree.TheViews.{out-Tree};
ghost use Rattle.sql_meaning.specs.Names as spec;
ghost use Rattle.sql_meaning.specs.Names.{shown_names};
ghost use Rattle.sql_meaning.specs.Scope.{hidden_by, is_among};

use cal_schema::ColumnDef;
use cal_value::{Duplicate, List, NoMemory, SqlText};
use itoa::Buffer;
use sql_meaning::Entry;
use sql_tree::{Item, Items, Tree};
use std::alloc::Global;

fn made_bytes(alloc: Global, place: usize) -> Result<Vec<u8>, NoMemory>
    ensures { IfOk result (λ name. name.items ≡ spec.made_name place) }
{
    let mut buffer = Buffer::new();
    let mut name = Vec::from_slice(alloc, b"EXPR$")?;
    name.extend_from_slice(buffer.format(place).as_bytes())?;
    Ok(name)
}

#[tactic(auto, using(crate::proofs::Named::name_rules))]
fn made_name(alloc: Global, place: usize) -> Result<SqlText, NoMemory>
    ensures { IfOk result (λ name. name ≡ spec.made_name place) }
{
    let bytes = made_bytes(alloc, place)?;
    let characters: Vec<char> = bytes
        .as_slice()
        .iter()
        .map(|byte| char::from(*byte))
        .collect(alloc)?;
    Ok(SqlText::from_characters(characters))
}

fn name_of_tree(alloc: Global, place: usize, tree: &Tree) -> Result<SqlText, NoMemory>
    ensures { IfOk result (λ name. name ≡ spec.name_of_node place (out-Tree tree.now)) }
{
    match tree {
        Tree::Column { name, .. } => name.name.copy(alloc),
        _ => made_name(alloc, place),
    }
}

fn item_name(alloc: Global, place: usize, item: &Item) -> Result<SqlText, NoMemory>
    ensures { IfOk result (λ name. name ≡ spec.item_name place item.now) }
{
    match &item.alias {
        Some(alias) => alias.copy(alloc),
        None => name_of_tree(alloc, place, &item.tree),
    }
}

fn item_names(alloc: Global, items: &[Item]) -> Result<List<SqlText>, NoMemory>
    ensures { IfOk result (λ names. names ≡ spec.item_names 0 items.now) }
{
    let mut names = List::new(alloc);
    for (place, item) in items.iter().enumerate() {
        let name = item_name(alloc, place, item)?;
        names.push(name)?;
    }
    Ok(names)
}

fn add_name(
    alloc: Global,
    entry: &Entry<'_>,
    column: &ColumnDef,
    names: &mut List<SqlText>,
) -> Result<(), NoMemory>
    ensures { OnOk result (names.new ≡ names.old ++
        (if is_among column.now.name (hidden_by entry.now.entry.how) then [] else column.now.name ∷ [])) }
{
    if entry.hides(&column.name) {
        return Ok(());
    }
    names.push(column.name.copy(alloc)?)
}

fn add_shown(alloc: Global, entry: &Entry<'_>, names: &mut List<SqlText>) -> Result<(), NoMemory>
    ensures { OnOk result (names.new ≡ names.old ++ shown_names entry.now) }
{
    let columns = entry.columns();
    for column in columns {
        add_name(alloc, entry, column, names)?;
    }
    Ok(())
}

fn star_names(alloc: Global, scope: &[Entry<'_>]) -> Result<List<SqlText>, NoMemory>
    ensures { IfOk result (λ names. names ≡ spec.star_names scope.now) }
{
    let mut names = List::new(alloc);
    for entry in scope {
        add_shown(alloc, entry, &mut names)?;
    }
    Ok(names)
}

/// The names of the columns of the answer.
pub fn output_names(
    alloc: Global,
    items: &Items,
    scope: &[Entry<'_>],
) -> Result<List<SqlText>, NoMemory>
    ensures { IfOk result (λ names. names ≡ spec.output_names scope.now items.now) }
{
    match items {
        Items::Star => star_names(alloc, scope),
        Items::Listed(items) => item_names(alloc, items.as_slice()),
    }
}
