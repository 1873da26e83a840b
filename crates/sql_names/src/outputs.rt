//! Which columns of FROM the columns of an answer are, and their types.
ghost use Rattle.std.specs.Prelude.{◌≡◌, ◌+◌, ◌<◌, ◌^◌, ◌++◌, ◌∷◌, [], filter_map, length, map, Some, IfOk, OnOk, if◌then◌else◌};
ghost use Rattle.std.specs.List.{flat_map};
ghost use Rattle.sql_tree.specs.declared.tree.Tree.TheViews.{out-Tree};
ghost use Rattle.sql_meaning.specs.Direct.{shown};
ghost use Rattle.sql_meaning.specs.Names as spec;
ghost use Rattle.sql_meaning.specs.Names.{places_from};
ghost use Rattle.sql_meaning.specs.Scope.{hidden_by, is_among, type_of_column, types_in};
ghost use Rattle.sql_meaning.specs.Sizes as sizes;
ghost use Rattle.sql_meaning.specs.Sizes.{shown_types};

use cal_schema::ColumnDef;
use cal_value::{List, NoMemory, SqlType};
use sql_meaning::{Entry, column_place};
use sql_tree::{Item, Items, Tree};
use sql_types::tree_type;
use std::alloc::Global;

fn add_place(
    entry: &Entry<'_>,
    column: &ColumnDef,
    at: usize,
    places: &mut List<usize>,
) -> Result<(), NoMemory>
    ensures { OnOk result (places.new ≡ places.old ++
        (if is_among column.now.name (hidden_by entry.now.entry.how) then [] else at ∷ [])) }
{
    if entry.hides(&column.name) {
        return Ok(());
    }
    places.push(at)
}

// Adds the places of the entry's columns, of which so many stand before.
fn add_places(entry: &Entry<'_>, before: usize, places: &mut List<usize>) -> Result<(), NoMemory>
    requires { before + length entry.now.table.columns < 2 ^ 32 }
    ensures { OnOk result (places.new ≡ places.old ++ shown (hidden_by entry.now.entry.how)
        entry.now.table.columns (places_from before entry.now.table.columns)) }
{
    let columns = entry.columns();
    for (at, column) in columns.iter().enumerate() {
        add_place(entry, column, before + at, places)?;
    }
    Ok(())
}

/// The places of the columns of `*` among those of all entries.
#[tactic(auto, using(crate::proofs::Placed::star_rules))]
pub fn star_places(alloc: Global, scope: &[Entry<'_>]) -> Result<List<usize>, NoMemory>
    requires { length (types_in scope.now) < 2 ^ 32 }
    ensures { IfOk result (λ places. places ≡ spec.star_places 0 scope.now) }
{
    let mut places = List::new(alloc);
    let mut before = 0;
    for entry in scope {
        add_places(entry, before, &mut places)?;
        before += entry.columns().len();
    }
    Ok(places)
}

fn each_there(alloc: Global, places: &[usize]) -> Result<List<Option<usize>>, NoMemory>
    ensures { IfOk result (λ all. all ≡ map Some places.now) }
{
    let mut all = List::new(alloc);
    for at in places {
        all.push(Some(*at))?;
    }
    Ok(all)
}

fn place_of_tree(scope: &[Entry<'_>], tree: &Tree) -> Option<usize>
    requires { length (types_in scope.now) < 2 ^ 32 }
    ensures { result ≡ spec.place_of_node scope.now (out-Tree tree.now) }
{
    match tree {
        Tree::Column { name, .. } => column_place(scope, name),
        _ => None,
    }
}

fn item_places(
    alloc: Global,
    items: &[Item],
    scope: &[Entry<'_>],
) -> Result<List<Option<usize>>, NoMemory>
    requires { length (types_in scope.now) < 2 ^ 32 }
    ensures { IfOk result (λ places.
        places ≡ map (λ item. spec.place_of_node scope.now (out-Tree item.tree)) items.now) }
{
    let mut places = List::new(alloc);
    for item in items {
        places.push(place_of_tree(scope, &item.tree))?;
    }
    Ok(places)
}

/// Of each column of the answer the place of the column of FROM that it is, where it is one.
pub fn output_places(
    alloc: Global,
    items: &Items,
    scope: &[Entry<'_>],
) -> Result<List<Option<usize>>, NoMemory>
    requires { length (types_in scope.now) < 2 ^ 32 }
    ensures { IfOk result (λ places. places ≡ spec.output_places scope.now items.now) }
{
    match items {
        Items::Star => {
            let places = star_places(alloc, scope)?;
            each_there(alloc, places.as_slice())
        }
        Items::Listed(items) => item_places(alloc, items.as_slice(), scope),
    }
}

// ---- types

fn add_type(
    entry: &Entry<'_>,
    column: &ColumnDef,
    types: &mut List<SqlType>,
) -> Result<(), NoMemory>
    ensures { OnOk result (types.new ≡ types.old ++
        (if is_among column.now.name (hidden_by entry.now.entry.how) then []
        else type_of_column entry.now column.now ∷ [])) }
{
    if entry.hides(&column.name) {
        return Ok(());
    }
    types.push(entry.type_of(column))
}

fn add_types(entry: &Entry<'_>, types: &mut List<SqlType>) -> Result<(), NoMemory>
    ensures { OnOk result (types.new ≡ types.old ++ shown_types entry.now) }
{
    let columns = entry.columns();
    for column in columns {
        add_type(entry, column, types)?;
    }
    Ok(())
}

/// The types of the columns of `*`.
fn star_types(alloc: Global, scope: &[Entry<'_>]) -> Result<List<SqlType>, NoMemory>
    ensures { IfOk result (λ types. types ≡ flat_map shown_types scope.now) }
{
    let mut types = List::new(alloc);
    for entry in scope {
        add_types(entry, &mut types)?;
    }
    Ok(types)
}

fn item_types(
    alloc: Global,
    rows: u128,
    items: &[Item],
    scope: &[Entry<'_>],
) -> Result<List<SqlType>, NoMemory>
    ensures { IfOk result (λ types.
        types ≡ filter_map (λ item. sizes.tree_type rows scope.now item.tree) items.now) }
{
    let mut types = List::new(alloc);
    for item in items {
        if let Some(t) = tree_type(rows, &item.tree, scope) {
            types.push(t)?;
        }
    }
    Ok(types)
}

/// The types of the columns of the answer, over at most so many rows. An item without a type has none.
pub fn output_types(
    alloc: Global,
    rows: u128,
    items: &Items,
    scope: &[Entry<'_>],
) -> Result<List<SqlType>, NoMemory>
    ensures { IfOk result (λ types. types ≡ sizes.output_types rows scope.now items.now) }
{
    match items {
        Items::Star => star_types(alloc, scope),
        Items::Listed(items) => item_types(alloc, rows, items.as_slice(), scope),
    }
}
