ghost use Rattle.std.specs.Prelude.{◌≤◌, IfOk, length};

use crate::{CsvCause, CsvFault, decode, header};
use cal_schema::{AdapterKind, ColumnDef, TableDef};
use cal_value::{COLUMN_LIMIT, List, Row, SqlText, Value};
use std::alloc::Global;
use std::test::Fail;

// A table of at most three rows of these columns, whose first column is its key where there is one.
fn a_table(alloc: Global, columns: List<ColumnDef>, keyed: bool) -> Result<TableDef, CsvFault>
    requires { length columns ≤ COLUMN_LIMIT }
    ensures columns { IfOk result (λ table. length table.columns ≤ COLUMN_LIMIT) }
    ensures rows { IfOk result (λ table. table.max_rows ≤ 3) }
{
    let mut primary_key = List::new(alloc);
    if keyed && primary_key.push(0u32).is_err() {
        return Err(CsvFault::NoMemory);
    }
    Ok(TableDef {
        schema: SqlText::from_characters(Vec::new(alloc)),
        name: SqlText::from_characters(Vec::new(alloc)),
        columns,
        adapter: AdapterKind::Csv,
        file: SqlText::from_characters(Vec::new(alloc)),
        max_rows: 3,
        primary_key,
    })
}

// Takes NULL from the first column.
fn without_null(columns: List<ColumnDef>) -> List<ColumnDef>
    requires { length columns ≤ COLUMN_LIMIT }
    ensures { length result ≤ COLUMN_LIMIT }
{
    let mut columns = columns.into_vec();
    if columns.len() > 0 {
        columns[0].kind.nullable = false;
    }
    List::from_vec(columns)
}

fn rows_of(alloc: Global, bytes: &[u8], keyed: bool) -> Result<List<Row>, CsvFault> {
    let columns = header(alloc, bytes)?;
    let columns = if keyed {
        without_null(columns)
    } else {
        columns
    };
    let table = a_table(alloc, columns, keyed)?;
    decode(alloc, bytes, &table)
}

fn bad(at_record: u64, column: u32, cause: CsvCause) -> Option<CsvFault> {
    Some(CsvFault::CsvBad {
        at_record,
        column,
        cause,
    })
}

// Whether this fault of the bytes of a file is told.
fn tells(
    alloc: Global,
    bytes: &[u8],
    keyed: bool,
    at_record: u64,
    column: u32,
    cause: CsvCause,
) -> bool {
    rows_of(alloc, bytes, keyed).err() == bad(at_record, column, cause)
}

// The text of a file, the record, the column, and the cause.
const FAULTS: &[(&str, u64, u32, CsvCause)] = &[
    ("", 1, 0, CsvCause::NoHeader),
    ("\n\r\n", 1, 0, CsvCause::NoHeader),
    ("A:byte", 1, 1, CsvCause::BadHeader),
    ("A,:int", 1, 2, CsvCause::BadHeader),
    ("A:int,A:string", 1, 2, CsvCause::Repeated),
    (
        "A,B,C,D,E,F,G,H,I,J,K,L,M,N,O,P,Q,R,S,T,U,V,W,X,Y,Z,a,b,c,d,e,f,g",
        1,
        33,
        CsvCause::TooManyColumns,
    ),
    (
        "A,A:byte,C,D,E,F,G,H,I,J,K,L,M,N,O,P,Q,R,S,T,U,V,W,X,Y,Z,a,b,c,d,e,f,g",
        1,
        2,
        CsvCause::BadHeader,
    ),
    ("A:short\n32767\n32768\n", 3, 1, CsvCause::BadInteger),
    ("A:short\n-32769\n", 2, 1, CsvCause::BadInteger),
    ("A:int\n 7\n", 2, 1, CsvCause::BadInteger),
    ("A:int\n+\n", 2, 1, CsvCause::BadInteger),
    ("A:long\n9223372036854775808\n", 2, 1, CsvCause::BadInteger),
    (
        "A:int,B:boolean\n1,true\n2,yes\n",
        3,
        2,
        CsvCause::BadBoolean,
    ),
    ("A:int,B\n1,x\n2\n", 3, 0, CsvCause::WrongCount),
    ("A:int\n1,2\n", 2, 0, CsvCause::WrongCount),
    ("A,B,C:\u{e4}\n", 1, 3, CsvCause::BadHeader),
];

#[test]
fn the_first_fault_is_told(rt: HostRuntime) {
    for (text, at_record, column, cause) in FAULTS {
        let told = tells(
            rt.alloc(),
            text.as_bytes(),
            false,
            *at_record,
            *column,
            *cause,
        );
        assert!(rt; told, "{text}");
    }
}

// Of a table whose first column is its key.
const KEYED: &[(&str, u64, u32, CsvCause)] = &[
    ("A:int,B\n1,x\n2,y\n1,z\n", 4, 0, CsvCause::KeyTaken),
    ("A:int,B\n1,x\n,y\n", 3, 1, CsvCause::NullValue),
    ("A:string,B\n,x\n,y\n", 3, 0, CsvCause::KeyTaken),
    ("A:int,B:int\n1,1\n1,x\n", 3, 2, CsvCause::BadInteger),
];

#[test]
fn keys_are_kept(rt: HostRuntime) {
    for (text, at_record, column, cause) in KEYED {
        let told = tells(
            rt.alloc(),
            text.as_bytes(),
            true,
            *at_record,
            *column,
            *cause,
        );
        assert!(rt; told, "{text}");
    }
}

#[test]
fn limits_are_kept(rt: HostRuntime) {
    let alloc = rt.alloc();
    let full = rows_of(alloc, b"A:int\n1\n2\n3\nx\n", false).err();
    assert!(rt; full == Some(CsvFault::TableFull { limit: 3 }));
    assert!(rt; tells(alloc, b"\xff", false, 1, 1, CsvCause::NotUtf8));
    assert!(rt; tells(alloc, b"A,B\nx,\xff\n", false, 2, 2, CsvCause::NotUtf8));
}

fn a_table_of_a_and_b(alloc: Global) -> Result<TableDef, CsvFault>
    ensures columns { IfOk result (λ table. length table.columns ≤ COLUMN_LIMIT) }
    ensures rows { IfOk result (λ table. table.max_rows ≤ 3) }
{
    let columns = header(alloc, b"A:int,B:string\n")?;
    a_table(alloc, columns, false)
}

const CHANGED: &[&str] = &[
    "A:long,B:string\n",
    "A:int\n",
    "A:int,C\n",
    "B:string,A:int\n",
];

#[test]
fn a_changed_header_is_told(rt: HostRuntime) -> Result<(), Fail> {
    let alloc = rt.alloc();
    let table = a_table_of_a_and_b(alloc)?;
    for text in CHANGED {
        let told = decode(alloc, text.as_bytes(), &table).err();
        assert!(rt; told == bad(1, 0, CsvCause::HeaderChanged), "{text}");
    }
    let rows = decode(alloc, b"A:int,B\n", &table)?;
    assert!(rt; rows.is_empty());
    Ok(())
}

fn is_null(rows: &List<Row>, at: usize, column: usize) -> bool {
    match rows.get(at) {
        Some(row) => match row.get(column) {
            Some(Value::Null) => true,
            _ => false,
        },
        None => false,
    }
}

fn number_at(rows: &List<Row>, at: usize, column: usize) -> Option<i128> {
    match rows.get(at)?.get(column)? {
        Value::Int(number) => Some(*number),
        Value::Bool(true) => Some(1),
        Value::Bool(false) => Some(0),
        _ => None,
    }
}

fn is_text(alloc: Global, rows: &List<Row>, column: usize, text: &str) -> Result<bool, Fail> {
    let wanted = SqlText::of(alloc, text)?;
    match rows.get(0) {
        Some(row) => match row.get(column) {
            Some(Value::Text(found)) => Ok(*found == wanted),
            _ => Ok(false),
        },
        None => Ok(false),
    }
}

// The text of a file, and the number or truth value of its first field.
const NUMBERS: &[(&str, i128)] = &[
    ("A:int\n+7\n", 7),
    ("A:int\n-0\n", 0),
    ("A:int\n007\n", 7),
    ("A:short\n-32768\n", -32768),
    ("A:long\n-9223372036854775808\n", -9223372036854775808),
    ("x:y:int\n5\n", 5),
    ("\u{feff}A:int\n5\n", 5),
    ("A:int\r\n\r\n\n6\r\n", 6),
    ("A:boolean\nTRUE\n", 1),
    ("A:boolean\ntRuE", 1),
    ("A:boolean\nFALSE", 0),
];

fn has_number(alloc: Global, text: &str, number: i128) -> Result<bool, Fail> {
    let rows = rows_of(alloc, text.as_bytes(), false)?;
    Ok(number_at(&rows, 0, 0) == Some(number))
}

#[test]
fn numbers_and_truth_values_of_fields(rt: HostRuntime) -> Result<(), Fail> {
    for (text, number) in NUMBERS {
        let has = has_number(rt.alloc(), *text, *number)?;
        assert!(rt; has, "{text}");
    }
    Ok(())
}

#[test]
fn fields_without_text(rt: HostRuntime) -> Result<(), Fail> {
    let alloc = rt.alloc();
    let rows = rows_of(alloc, b"A:int,B:string\n1,x\n,\n", false)?;
    assert!(rt; number_at(&rows, 0, 0) == Some(1) && is_null(&rows, 1, 0) && !is_null(&rows, 1, 1));
    let alone = rows_of(alloc, b"A:int\n\"\"\n\n7\n", false)?;
    assert!(rt; alone.len() == 2 && is_null(&alone, 0, 0) && number_at(&alone, 1, 0) == Some(7));
    Ok(())
}

#[test]
fn texts_of_fields(rt: HostRuntime) -> Result<(), Fail> {
    let alloc = rt.alloc();
    let text = "A,B,C\n\"a,b\",\"c\"\"\nd\",\u{e4}\n";
    let texts = rows_of(alloc, text.as_bytes(), false)?;
    let first = is_text(alloc, &texts, 0, "a,b")?;
    let second = is_text(alloc, &texts, 1, "c\"\nd")?;
    let third = is_text(alloc, &texts, 2, "\u{e4}")?;
    assert!(rt; first && second && third);
    Ok(())
}

fn long_text(alloc: Global, count: usize) -> Result<Vec<u8>, Fail> {
    let mut text = Vec::new(alloc);
    text.extend_from_slice(b"A\n")?;
    for _ in 0..count {
        text.extend_from_slice("\u{e4}".as_bytes())?;
    }
    Ok(text)
}

#[test]
fn the_longest_text(rt: HostRuntime) -> Result<(), Fail> {
    let alloc = rt.alloc();
    let most = long_text(alloc, 4000)?;
    let rows = rows_of(alloc, most.as_slice(), false)?;
    let more = long_text(alloc, 4001)?;
    assert!(rt;
        rows.len() == 1 && tells(alloc, more.as_slice(), false, 2, 1, CsvCause::TextTooLong)
    );
    Ok(())
}
