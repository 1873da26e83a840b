//! What the rules of aggregates make, and the unique keys of trees.
use crate::tests::run::{first_wrong, schema};
use crate::tests::words::read;
use cal_rel::{PlanInfo, Rel};
use cal_schema::Schema;
use cal_value::{List, NoMemory};
use rel_meta::unique_keys;
use rules_agg::{AggregateProjectMerge, AggregateRemove};
use std::alloc::Global;
use std::test::Fail;

const AGGREGATE_PROJECT_MERGE: &str = "T0 $1 $0 project #0 COUNT aggregate => T0 #1 COUNT aggregate
T0 $1 $0 project #1 #0 SUM:0 MAX:1 aggregate => T0 #0 #1 SUM:1 MAX:0 aggregate
T0 $1 $1 project #1 #0 COUNT:1 aggregate => T0 #1 #1 COUNT:1 aggregate
T2 $1 $0 project #1 COUNT:0 aggregate => T2 #0 COUNT:1 aggregate
T0 $1 $0 1 + project #0 COUNT aggregate => T0 #1 COUNT aggregate
T0 $1 $0 1 + project #0 SUM:1 aggregate => none
T0 $1 $0 1 + project #1 COUNT aggregate => none
T0 $1 7 project COUNT aggregate => T0 COUNT aggregate
T0 $1 7 project SUM:1 aggregate => none
T0 $1 project SUM:0 SUM0:0 MIN:0 aggregate => T0 SUM:1 SUM0:1 MIN:1 aggregate
T0 $1 3 > filter $1 project #0 aggregate => T0 $1 3 > filter #1 aggregate
T0 $1 project $0 project #0 aggregate => T0 $1 project #0 aggregate
T0 $1 project #1 COUNT aggregate => none
T0 $0 1 > filter #0 COUNT aggregate => none
T0 $1 project #0 COUNT aggregate $0 project => none
T0 #0 COUNT aggregate => none";

const AGGREGATE_REMOVE: &str = "T0 #0 COUNT aggregate => T0 $0 1 project
T0 #0 aggregate => T0 $0 project
T0 #0 SUM:1 MIN:1 MAX:1 aggregate => T0 $0 $1 $1 $1 project
T0 #0 SUM0:0 COUNT:0 aggregate => T0 $0 $0 1 project
T0 #0 SUM0:1 aggregate => none
T0 #0 COUNT:1 aggregate => none
T0 #0 COUNT COUNT:1 aggregate => none
T0 #1 #0 COUNT aggregate => T0 $1 $0 1 project
T0 #1 COUNT aggregate => none
T0 COUNT aggregate => none
T3 #0 COUNT aggregate => none
T3 #1 #0 COUNT aggregate => T3 $1 $0 1 project
T2 #0 COUNT aggregate => none
T2 #0 #1 COUNT aggregate => none
T0 $1 3 > filter #0 SUM:1 aggregate => T0 $1 3 > filter $0 $1 project
T0 $1 $0 project #1 SUM:0 aggregate => T0 $1 $0 project $1 $0 project
T0 $1 $0 project #0 COUNT aggregate => none
T0 $0 1 + project #0 COUNT aggregate => none
T0 $0 $0 project #0 COUNT aggregate => T0 $0 $0 project $0 1 project
T0 $0 $0 project #1 COUNT aggregate => none
T0 #1 COUNT aggregate #0 MAX:1 aggregate => T0 #1 COUNT aggregate $0 $1 project
T0 #1 COUNT aggregate #1 COUNT aggregate => none
T0 COUNT aggregate #0 COUNT aggregate => T0 COUNT aggregate $0 1 project
integer empty #0 COUNT aggregate => integer empty $0 1 project
T0 T1 $0 $2 = inner #0 COUNT aggregate => T0 T1 $0 $2 = inner $0 1 project
T0 T1 $0 $2 = inner #2 COUNT:2 aggregate => T0 T1 $0 $2 = inner $2 1 project
T0 T1 $0 $2 = left #0 COUNT aggregate => T0 T1 $0 $2 = left $0 1 project
T0 T1 $0 $2 = left #2 COUNT aggregate => none
T0 T1 $0 $2 = left #0 COUNT:2 aggregate => none
T0 T1 $1 $2 = inner #0 COUNT aggregate => T0 T1 $1 $2 = inner $0 1 project
T0 T1 $1 $2 = inner #2 COUNT aggregate => none
T0 T1 $1 $3 = inner #0 COUNT aggregate => none
T0 T1 $1 $3 = inner #2 #0 SUM0:2 aggregate => T0 T1 $1 $3 = inner $2 $0 $2 project
T0 T1 $1 $3 = left #0 #2 COUNT:0 aggregate => T0 T1 $1 $3 = left $0 $2 1 project
T0 T3 $0 $2 = inner #0 COUNT aggregate => none
T0 T3 $0 $2 = $1 $3 = AND inner #0 COUNT aggregate => T0 T3 $0 $2 = $1 $3 = AND inner $0 1 project
T0 #0 COUNT aggregate $0 project => none
T0 #2 #0 COUNT aggregate => none";

const UNIQUE_KEYS: &str = "T0 => 0
T3 => 0 1
T2 => none
T7 => none
T3 $1 3 > filter => 0 1
T3 $1 $0 $1 project => 1 0
T3 $1 project => none
T0 $0 1 + $0 project => 1
T0 #1 #0 COUNT aggregate => 0 1
T0 COUNT aggregate => empty
text empty => empty
T0 T1 TRUE inner => 0 2
T0 T2 TRUE inner => none
T0 T1 $0 $2 = inner => 0, 2, 0 2
T0 T1 $2 $0 = inner => 0, 2, 0 2
T0 T1 $1 $2 = inner => 0, 0 2
T0 T1 $0 $3 = inner => 2, 0 2
T0 T1 $0 $2 > inner => 0 2
T0 T1 $0 $2 = left => 0, 0 2
T0 T1 $0 $3 = left => 0 2
T0 T3 $0 $2 = inner => 2 3, 0 2 3
T0 T3 $0 $2 = $1 $3 = AND left => 0, 0 2 3
T0 COUNT aggregate T1 TRUE inner => 1, 1
T0 T1 $0 $2 = inner T0 $2 $4 = inner => 0, 2, 0 2, 4, 0 4, 2 4, 0 2 4";

#[test]
fn aggregates_of_projects(rt: HostRuntime) -> Result<(), Fail> {
    let rule = AggregateProjectMerge::new();
    let wrong = first_wrong(rt.alloc(), &rule, AGGREGATE_PROJECT_MERGE)?;
    assert_eq!(rt; wrong, "");
    Ok(())
}

#[test]
fn aggregates_of_single_rows(rt: HostRuntime) -> Result<(), Fail> {
    let wrong = first_wrong(rt.alloc(), &AggregateRemove::new(), AGGREGATE_REMOVE)?;
    assert_eq!(rt; wrong, "");
    Ok(())
}

// ---- unique keys

fn read_key(alloc: Global, text: &str) -> Result<List<u32>, NoMemory> {
    let mut key = List::new(alloc);
    for word in text.split(' ') {
        if let Ok(column) = word.parse::<u32>() {
            key.push(column)?;
        }
    }
    Ok(key)
}

// Columns of a key stand between blanks, keys between commas. Without a column a key is empty.
fn read_keys(alloc: Global, text: &str) -> Result<List<List<u32>>, NoMemory> {
    let mut keys = List::new(alloc);
    if text == "none" {
        return Ok(keys);
    }
    for key in text.split(", ") {
        keys.push(read_key(alloc, key)?)?;
    }
    Ok(keys)
}

fn has_keys(alloc: Global, info: &PlanInfo, tree: &Rel, text: &str) -> Result<bool, NoMemory> {
    let keys = unique_keys(alloc, tree, info)?;
    let wanted = read_keys(alloc, text)?;
    Ok(keys == wanted)
}

fn of_tree(alloc: Global, info: &PlanInfo, tree: Rel, text: &str) -> Result<bool, NoMemory> {
    let has = has_keys(alloc, info, &tree, text);
    drop(tree);
    has
}

fn of_texts(alloc: Global, info: &PlanInfo, tree: &str, text: &str) -> Result<bool, NoMemory> {
    match read(alloc, tree)? {
        Some(tree) => of_tree(alloc, info, tree, text),
        None => Ok(false),
    }
}

fn holds(alloc: Global, info: &PlanInfo, row: &str) -> Result<bool, NoMemory> {
    match row.split_once(" => ") {
        Some((tree, text)) => of_texts(alloc, info, tree, text),
        None => Ok(false),
    }
}

fn first_wrong_keys(
    alloc: Global,
    schema: &Schema,
    table: &'static str,
) -> Result<&'static str, NoMemory> {
    let tiles = List::new(alloc);
    let sets = List::new(alloc);
    let info = PlanInfo::new(schema, &tiles, &sets);
    for row in table.lines() {
        if !holds(alloc, &info, row)? {
            return Ok(row);
        }
    }
    Ok("")
}

#[test]
fn unique_keys_of_trees(rt: HostRuntime) -> Result<(), Fail> {
    let schema = schema(rt.alloc())?;
    let wrong = first_wrong_keys(rt.alloc(), &schema, UNIQUE_KEYS);
    drop(schema);
    assert_eq!(rt; wrong?, "");
    Ok(())
}
