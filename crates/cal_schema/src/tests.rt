ghost use Rattle.std.specs.Prelude.{◌≡◌, IfOk, length};

use crate::{
    AdapterKind, ColumnDef, ColumnFault, Db, Measure, RelType, Schema, TableDef, TileInfo, TileKey,
    is_compressed,
};
use cal_value::{Agg, Duplicate, Interval, Kind, List, NoMemory, SqlText, SqlType, Value};
use std::alloc::Global;
use std::test::Fail;

#[test]
fn a_column_is_a_name_and_a_word(rt: HostRuntime) -> Result<(), Fail> {
    let alloc = rt.alloc();
    let long = (i128::from(i64::MIN), i128::from(i64::MAX));
    for (text, name, kind, ends) in [
        ("A", "A", Kind::Text, (0, 0)),
        ("A:string", "A", Kind::Text, (0, 0)),
        ("a b:boolean", "a b", Kind::Boolean, (0, 0)),
        ("A:short", "A", Kind::Integer, (-32768, 32767)),
        (
            "x:int:int",
            "x:int",
            Kind::Integer,
            (-2147483648, 2147483647),
        ),
        ("ß:long", "ß", Kind::Integer, long),
    ] {
        let column = ColumnDef::parse(alloc, text)?;
        let (lo, hi) = ends;
        assert!(rt; column.name == SqlText::of(alloc, name)?, "{text}");
        assert!(rt;
            column.kind
                == SqlType {
                    kind,
                    nullable: true,
                    interval: Interval::Range { lo, hi }
                },
            "{text}"
        );
    }
    for text in ["", ":int", "A:", "A:byte", "A:INT", "A:int ", "A: int"] {
        assert!(rt;
            ColumnDef::parse(alloc, text).err() == Some(ColumnFault::BadColumn),
            "{text}"
        );
    }
    Ok(())
}

#[test]
fn compressed_files(rt: HostRuntime) -> Result<(), Fail> {
    for (name, found) in [
        ("a.gz", true),
        (".gZ", true),
        ("ß.GZ", true),
        ("gz", false),
        ("a.gz ", false),
        ("", false),
    ] {
        let name = SqlText::of(rt.alloc(), name)?;
        assert_eq!(rt; is_compressed(name.as_slice()), found);
    }
    Ok(())
}

fn repeated(alloc: Global, count: usize, end: &str) -> Result<String, NoMemory> {
    let mut text = String::new(alloc);
    for _ in 0..count {
        text.push('ß')?;
    }
    text.push_str(end)?;
    Ok(text)
}

#[test]
fn the_longest_name(rt: HostRuntime) -> Result<(), Fail> {
    let alloc = rt.alloc();
    let most = ColumnDef::parse(alloc, repeated(alloc, 128, ":int")?.as_str())?;
    assert_eq!(rt; most.name.as_slice().len(), 128);
    for end in ["", ":int", ":byte"] {
        let text = repeated(alloc, 129, end)?;
        assert!(rt;
            ColumnDef::parse(alloc, text.as_str()).err()
                == Some(ColumnFault::NameTooLong { limit: 128 })
        );
    }
    Ok(())
}

fn one_table(alloc: Global, schema: &str, name: &str) -> Result<TableDef, Fail> {
    let schema = SqlText::of(alloc, schema)?;
    let name = SqlText::of(alloc, name)?;
    let file = SqlText::of(alloc, "rows.csv")?;
    let column = ColumnDef::parse(alloc, "K:int")?;
    let mut columns = List::new(alloc);
    columns.push(column)?;
    let mut primary_key = List::new(alloc);
    primary_key.push(0u32)?;
    Ok(TableDef {
        schema,
        name,
        columns,
        adapter: AdapterKind::Csv,
        file,
        max_rows: 10,
        primary_key,
    })
}

fn three_tables(alloc: Global) -> Result<List<TableDef>, Fail>
    ensures { IfOk result (λ tables. length tables ≡ 3) }
{
    let mut tables = List::new(alloc);
    let first = one_table(alloc, "S", "T")?;
    tables.push(first)?;
    let second = one_table(alloc, "S", "U")?;
    tables.push(second)?;
    let third = one_table(alloc, "R", "T")?;
    tables.push(third)?;
    Ok(tables)
}

#[test]
fn tables_are_found_by_their_names(rt: HostRuntime) -> Result<(), Fail> {
    let alloc = rt.alloc();
    let tables = three_tables(alloc)?;
    let mut schema = Schema {
        default_schema: None,
        tables,
    };
    assert_eq!(rt; schema.table(None, "T"), None);
    schema.default_schema = Some(SqlText::of(alloc, "R")?);
    for (written, name, found) in [
        (Some("S"), "T", Some(0)),
        (Some("S"), "U", Some(1)),
        (Some("R"), "T", Some(2)),
        (Some("R"), "U", None),
        (Some("S"), "t", None),
        (Some("S"), "TT", None),
        (Some("S"), "", None),
        (None, "T", Some(2)),
        (None, "U", None),
    ] {
        assert_eq!(rt; schema.table(written, name), found, "{name}");
        let schema_name = match written {
            Some(text) => Some(SqlText::of(alloc, text)?),
            None => None,
        };
        let name = SqlText::of(alloc, name)?;
        assert_eq!(rt; schema.table_of(&schema_name, &name), found);
    }
    Ok(())
}

#[test]
fn copies_are_equal(rt: HostRuntime) -> Result<(), Fail> {
    let alloc = rt.alloc();
    let table = one_table(alloc, "S", "T")?.copy(alloc)?;
    assert!(rt; table.name == SqlText::of(alloc, "T")?);
    assert_eq!(rt; table.primary_key.as_slice(), [0u32].as_slice());
    assert_eq!(rt; table.columns.len(), 1);
    let key = TileKey {
        lattice: 1,
        dims: 5,
        measures: [
            Some(Measure {
                agg: Agg::Count,
                column: None,
            }),
            None,
            None,
            None,
            None,
            None,
            None,
            None,
        ],
    };
    let mut versions = List::new(alloc);
    versions.push(7u64)?;
    let info = TileInfo {
        instance: 3,
        key: key.copy(alloc)?,
        rows: 2,
        versions,
    };
    let copy = info.copy(alloc)?;
    assert!(rt;
        copy.key == key && copy.versions == info.versions && copy.instance == 3 && copy.rows == 2
    );
    Ok(())
}

#[test]
fn a_database_is_copied(rt: HostRuntime) -> Result<(), Fail> {
    let alloc = rt.alloc();
    let mut row = List::new(alloc);
    row.push(Value::Int(5))?;
    let mut rows = List::new(alloc);
    rows.push(row)?;
    let mut tables = List::new(alloc);
    tables.push(rows)?;
    let db = Db { tables };
    assert!(rt; db.copy(alloc)?.tables == db.tables);
    let schema = Schema {
        default_schema: Some(SqlText::of(alloc, "S")?),
        tables: three_tables(alloc)?,
    };
    assert_eq!(rt; schema.copy(alloc)?.table(None, "U"), Some(1));
    Ok(())
}

fn number(nullable: bool, lo: i128, hi: i128) -> SqlType {
    SqlType::integer(nullable, Interval::Range { lo, hi })
}

fn rows_of(alloc: Global, first: SqlType, bound: u128) -> Result<RelType, NoMemory> {
    let mut columns = List::new(alloc);
    columns.push(first)?;
    columns.push(SqlType::text(true))?;
    Ok(RelType { columns, bound })
}

#[test]
fn what_two_types_of_rows_say(rt: HostRuntime) -> Result<(), NoMemory> {
    let alloc = rt.alloc();
    let wide = rows_of(alloc, number(true, -5, 9), 7)?;
    let other = rows_of(alloc, number(false, 0, 20), 12)?;
    let both = rows_of(alloc, number(false, 0, 9), 7)?;
    assert!(rt; wide.meet(alloc, &other)? == both);
    assert!(rt; other.meet(alloc, &wide)? == both);
    Ok(())
}
