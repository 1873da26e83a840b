//! Rules over trees of three tables and two sets.
use crate::tests::words::read;
use cal_rel::{PlanInfo, Rel, RelType};
use cal_schema::{AdapterKind, ColumnDef, Schema, TableDef};
use cal_value::{Interval, List, NoMemory, SqlText, SqlType};
use rule_hep::Rule;
use std::alloc::Global;

fn no_name(alloc: Global) -> SqlText {
    SqlText::from_characters(Vec::new(alloc))
}

fn columns(alloc: Global, kinds: [SqlType; 2]) -> Result<List<ColumnDef>, NoMemory> {
    let mut columns = List::new(alloc);
    for kind in kinds {
        let name = no_name(alloc);
        columns.push(ColumnDef { name, kind })?;
    }
    Ok(columns)
}

fn key(alloc: Global, columns: &[u32]) -> Result<List<u32>, NoMemory> {
    let mut key = List::new(alloc);
    for column in columns {
        key.push(*column)?;
    }
    Ok(key)
}

fn table(alloc: Global, kinds: [SqlType; 2], primary_key: &[u32]) -> Result<TableDef, NoMemory> {
    let columns = columns(alloc, kinds)?;
    let primary_key = key(alloc, primary_key)?;
    Ok(TableDef {
        schema: no_name(alloc),
        name: no_name(alloc),
        columns,
        adapter: AdapterKind::Mem,
        file: no_name(alloc),
        max_rows: 9,
        primary_key,
    })
}

fn digits(nullable: bool) -> SqlType {
    SqlType::integer(nullable, Interval::Range { lo: 0, hi: 9 })
}

// Two tables of two whole numbers, of which the first is the key and the second may be NULL, one of a text and a truth value, and one of two
// whole numbers that are the key.
pub(crate) fn schema(alloc: Global) -> Result<Schema, NoMemory> {
    let numbers = [digits(false), digits(true)];
    let others = [SqlType::text(false), SqlType::boolean(true)];
    let mut tables = List::new(alloc);
    tables.push(table(alloc, numbers, &[0])?)?;
    tables.push(table(alloc, numbers, &[0])?)?;
    tables.push(table(alloc, others, &[])?)?;
    tables.push(table(alloc, [digits(false), digits(false)], &[0, 1])?)?;
    Ok(Schema {
        default_schema: None,
        tables,
    })
}

fn rows_of<const N: usize>(
    alloc: Global,
    kinds: [SqlType; N],
) -> Result<Option<RelType>, NoMemory> {
    let columns = List::from_vec(Vec::from_array(alloc, kinds)?);
    Ok(Some(RelType { columns, bound: 9 }))
}

// Sets of three whole numbers, of a text and a truth value, and one that is gone.
fn sets(alloc: Global) -> Result<List<Option<RelType>>, NoMemory> {
    let mut sets = List::new(alloc);
    sets.push(rows_of(alloc, [digits(false), digits(true), digits(true)])?)?;
    sets.push(rows_of(alloc, [SqlType::text(false), SqlType::boolean(true)])?)?;
    sets.push(None)?;
    Ok(sets)
}

fn is_same(image: &Rel, wanted: Rel) -> bool {
    let is_same = *image == wanted;
    drop(wanted);
    is_same
}

fn is_read(alloc: Global, image: &Rel, text: &str) -> Result<bool, NoMemory> {
    match read(alloc, text)? {
        Some(wanted) => Ok(is_same(image, wanted)),
        None => Ok(false),
    }
}

fn is_image(alloc: Global, image: Rel, text: &str) -> Result<bool, NoMemory> {
    let is_read = is_read(alloc, &image, text);
    drop(image);
    is_read
}

fn is_told(alloc: Global, image: Option<Rel>, text: &str) -> Result<bool, NoMemory> {
    match image {
        Some(image) => is_image(alloc, image, text),
        None => Ok(text == "none"),
    }
}

fn has_no_second<R: Rule>(
    alloc: Global,
    rule: &R,
    info: &PlanInfo,
    tree: &Rel,
) -> Result<bool, NoMemory> {
    Ok(rule.apply(alloc, info, tree, 1)?.is_none())
}

fn makes<R: Rule>(
    alloc: Global,
    rule: &R,
    info: &PlanInfo,
    tree: &Rel,
    text: &str,
) -> Result<bool, NoMemory> {
    let image = rule.apply(alloc, info, tree, 0)?;
    is_told(alloc, image, text)
}

// Whether the rule makes this of the tree, or none where the text says so, and no second image.
fn is_right<R: Rule>(
    alloc: Global,
    rule: &R,
    info: &PlanInfo,
    tree: &Rel,
    text: &str,
) -> Result<bool, NoMemory> {
    if has_no_second(alloc, rule, info, tree)? {
        makes(alloc, rule, info, tree, text)
    } else {
        Ok(false)
    }
}

fn of_tree<R: Rule>(
    alloc: Global,
    rule: &R,
    info: &PlanInfo,
    tree: Rel,
    text: &str,
) -> Result<bool, NoMemory> {
    let is_right = is_right(alloc, rule, info, &tree, text);
    drop(tree);
    is_right
}

fn of_texts<R: Rule>(
    alloc: Global,
    rule: &R,
    info: &PlanInfo,
    tree: &str,
    text: &str,
) -> Result<bool, NoMemory> {
    match read(alloc, tree)? {
        Some(tree) => of_tree(alloc, rule, info, tree, text),
        None => Ok(false),
    }
}

fn holds<R: Rule>(alloc: Global, rule: &R, info: &PlanInfo, row: &str) -> Result<bool, NoMemory> {
    match row.split_once(" => ") {
        Some((tree, text)) => of_texts(alloc, rule, info, tree, text),
        None => Ok(false),
    }
}

fn first_wrong_over<R: Rule>(
    alloc: Global,
    rule: &R,
    schema: &Schema,
    sets: &List<Option<RelType>>,
    table: &'static str,
) -> Result<&'static str, NoMemory> {
    let tiles = List::new(alloc);
    let info = PlanInfo::new(schema, &tiles, sets);
    for row in table.lines() {
        if !holds(alloc, rule, &info, row)? {
            return Ok(row);
        }
    }
    Ok("")
}

fn first_wrong_over_sets<R: Rule>(
    alloc: Global,
    rule: &R,
    schema: &Schema,
    table: &'static str,
) -> Result<&'static str, NoMemory> {
    let sets = sets(alloc)?;
    let wrong = first_wrong_over(alloc, rule, schema, &sets, table);
    drop(sets);
    wrong
}

/// The first row `TREE => IMAGE` or `TREE => none` that doesn't hold; empty where there is none.
pub(crate) fn first_wrong<R: Rule>(
    alloc: Global,
    rule: &R,
    table: &'static str,
) -> Result<&'static str, NoMemory> {
    let schema = schema(alloc)?;
    let wrong = first_wrong_over_sets(alloc, rule, &schema, table);
    drop(schema);
    wrong
}
