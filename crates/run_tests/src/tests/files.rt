//! Models with tables in files.
use crate::tests::run::{File, SOUND, Told, ask, has_written, run};
use cal_value::NoMemory;
use std::alloc::Global;
use std::test::Fail;

const C: &str =
    r#"{"defaultSchema":"S","schemas":[{"name":"S","tables":[{"name":"C","factory":"org.apache.calcite.adapter.csv.CsvTableFactory","operand":{"file":"c.csv"}}]}]}"#;

// Five tables over one file.
const FIVE: &str = r#"{"defaultSchema":"S","schemas":[{"name":"S","tables":[
{"name":"A","factory":"org.apache.calcite.adapter.csv.CsvTableFactory","operand":{"file":"c.csv"}},
{"name":"B","factory":"org.apache.calcite.adapter.csv.CsvTableFactory","operand":{"file":"c.csv"}},
{"name":"C","factory":"org.apache.calcite.adapter.csv.CsvTableFactory","operand":{"file":"c.csv"}},
{"name":"D","factory":"org.apache.calcite.adapter.csv.CsvTableFactory","operand":{"file":"c.csv"}},
{"name":"E","factory":"org.apache.calcite.adapter.csv.CsvTableFactory","operand":{"file":"c.csv"}}]}]}"#;

// A schema and a table in small letters, and no default schema.
const SMALL: &str =
    r#"{"schemas":[{"name":"s","tables":[{"name":"t","factory":"cal.MemTableFactory","operand":{"columns":["x:int"],"rows":[[1]]}}]}]}"#;

// A run over a model with tables that are read from a file of these bytes.
fn ask_file(alloc: Global, model: &str, bytes: &[u8], sql: &str) -> Result<Told, NoMemory> {
    let model = File {
        name: "m",
        bytes: model.as_bytes(),
    };
    let table = File {
        name: "c.csv",
        bytes,
    };
    run(alloc, &["m", sql], &[model, table], SOUND)
}

const IN_FILE: &[(&str, &str, u8, &str)] = &[
    (
        "A:int,B:string\n1,x\n,\n",
        "SELECT A, B FROM C WHERE A IS NULL",
        0,
        "A, B\nNULL, ''\n",
    ),
    (
        "A:int,B:string\n1,x\n,\n",
        "SELECT * FROM S.C",
        0,
        "A, B\n1, 'x'\nNULL, ''\n",
    ),
    (
        "A:int,A\n",
        "SELECT * FROM C",
        3,
        "table S.C: CsvBad record 1 column 2 cause Repeated\n",
    ),
    (
        "A:byte",
        "SELECT 1 FROM U",
        3,
        "table S.C: CsvBad record 1 column 1 cause BadHeader\n",
    ),
    (
        "A:int\nx\n",
        "SELECT 1 FROM U",
        3,
        "table S.C: CsvBad record 2 column 1 cause BadInteger\n",
    ),
    (
        "",
        "SELECT 1 FROM U",
        3,
        "table S.C: CsvBad record 1 column 0 cause NoHeader\n",
    ),
];

fn tells_file(
    alloc: Global,
    bytes: &str,
    sql: &str,
    status: u8,
    text: &str,
) -> Result<bool, NoMemory> {
    let told = ask_file(alloc, C, bytes.as_bytes(), sql)?;
    Ok(has_written(&told, status, text) && told.files == 2)
}

#[test]
fn a_table_in_a_file(rt: HostRuntime) -> Result<(), Fail> {
    let alloc = rt.alloc();
    for (bytes, sql, status, text) in IN_FILE {
        let is_told = tells_file(alloc, *bytes, *sql, *status, *text)?;
        assert!(rt; is_told, "{bytes} {sql}");
    }
    Ok(())
}

const IN_QUOTES: &[(&str, u8, &str)] = &[
    ("SELECT \"x\" FROM \"s\".\"t\"", 0, "\"x\"\n1\n"),
    ("SELECT \"t\".\"x\" y FROM \"s\".\"t\"", 0, "Y\n1\n"),
    (
        "SELECT \"x\" FROM \"t\"",
        1,
        "refused UnknownTable name \"t\"\n",
    ),
    (
        "SELECT X FROM \"s\".\"t\"",
        1,
        "refused UnknownColumn name X\n",
    ),
];

#[test]
fn names_in_quotes_and_no_default_schema(rt: HostRuntime) -> Result<(), Fail> {
    let alloc = rt.alloc();
    for (sql, status, text) in IN_QUOTES {
        let told = ask(alloc, SMALL, *sql)?;
        assert!(rt; has_written(&told, *status, *text), "{sql}");
    }
    Ok(())
}

// Whether a run over files of so many line ends ends with status 3, this text and so many files read.
fn is_too_long(
    alloc: Global,
    model: &str,
    ends: usize,
    text: &str,
    read: usize,
) -> Result<bool, NoMemory> {
    let mut bytes = vec![in alloc; b'\n'; ends]?;
    bytes.extend_from_slice(b"A:int\n")?;
    let told = ask_file(alloc, model, bytes.as_slice(), "SELECT 1 FROM C")?;
    Ok(has_written(&told, 3, text) && told.files == read)
}

#[test]
fn a_file_that_is_too_long(rt: HostRuntime) -> Result<(), Fail> {
    let text = "table S.C: TooBig limit 8388608\n";
    let is_told = is_too_long(rt.alloc(), C, 8388603, text, 1)?;
    assert!(rt; is_told);
    Ok(())
}

#[test]
fn files_that_are_too_long_together(rt: HostRuntime) -> Result<(), Fail> {
    let text = "table S.E: TooBig limit 6710860\n";
    let is_told = is_too_long(rt.alloc(), FIVE, 6710887, text, 5)?;
    assert!(rt; is_told);
    Ok(())
}

#[test]
fn a_model_that_is_too_long(rt: HostRuntime) -> Result<(), Fail> {
    let alloc = rt.alloc();
    let spaces = vec![in alloc; b' '; 16777217]?;
    let whole = File {
        name: "m",
        bytes: spaces.as_slice(),
    };
    let told = run(alloc, &["m", "q"], &[whole], SOUND)?;
    assert!(rt; has_written(&told, 3, "model: TooBig limit 16777216\n") && told.files == 0);
    Ok(())
}
