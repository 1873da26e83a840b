//! Two faults in two phases of one run: the earlier one is told.
use crate::tests::run::{File, SOUND, ask_files, has_written, model_of, run};
use cal_value::NoMemory;
use std::alloc::Global;
use std::test::Fail;

const FIRST: &str =
    r#"{"name":"C","factory":"org.apache.calcite.adapter.csv.CsvTableFactory","operand":{"file":"C"}}"#;

const MISNAMED: &str =
    r#"{"name":"C","factory":"org.apache.calcite.adapter.csv.CsvTableFactory","operand":{"file":"C","primaryKey":["Z"]}}"#;

const SECOND: &str =
    r#"{"name":"D","factory":"org.apache.calcite.adapter.csv.CsvTableFactory","operand":{"file":"D"}}"#;

const KEYED: &str =
    r#"{"name":"D","factory":"org.apache.calcite.adapter.csv.CsvTableFactory","operand":{"file":"D","primaryKey":["B"]}}"#;

const GOOD: &[&str] = &[FIRST, KEYED];

const BAD_NAMES: &[&str] = &[MISNAMED, SECOND];

const BAD_MODEL: &[&str] = &[FIRST, FIRST, MISNAMED];

// The tables, the files C and D, the statement, the status, and the text.
const PHASES: &[(&[&str], &str, &str, &str, u8, &str)] = &[
    // the model before headers, names, rows and the statement
    (
        BAD_MODEL,
        "A:byte\n",
        "B:int\nx\n",
        "SELECT",
        3,
        "model: /schemas/0/tables/1/name: Repeated\n",
    ),
    // headers before names, rows and the statement
    (
        BAD_NAMES,
        "A:int\nx\n",
        "B:byte\n",
        "SELECT",
        3,
        "table S.D: CsvBad record 1 column 1 cause BadHeader\n",
    ),
    (
        GOOD,
        "A:int\nx\n",
        "B:byte\n",
        "SELECT",
        3,
        "table S.D: CsvBad record 1 column 1 cause BadHeader\n",
    ),
    // names before rows and the statement
    (
        BAD_NAMES,
        "A:int\nx\n",
        "B:int\n1\n",
        "SELECT",
        3,
        "model: /schemas/0/tables/0/operand/primaryKey/0: NoSuchName\n",
    ),
    (
        BAD_NAMES,
        "A:int\n1\n",
        "B:int\n1\n",
        "SELECT",
        3,
        "model: /schemas/0/tables/0/operand/primaryKey/0: NoSuchName\n",
    ),
    // rows in the order of the tables, before the statement
    (
        GOOD,
        "A:int\nx\n",
        "B:int\n1\n1\n",
        "SELECT",
        3,
        "table S.C: CsvBad record 2 column 1 cause BadInteger\n",
    ),
    (
        GOOD,
        "A:int\n1\n1\n",
        "B:int,A\n1,x\n1,y\n",
        "SELECT",
        3,
        "table S.D: CsvBad record 3 column 0 cause KeyTaken\n",
    ),
    (
        GOOD,
        "A:int\n1\n1\n",
        "B:int,A\n1,x\n2,y\n",
        "SELECT",
        1,
        "refused NotSql\n",
    ),
    // different headers, and the key of the second table alone
    (
        GOOD,
        "A:int\n1\n1\n",
        "B:int,A\n1,x\n2,y\n",
        "SELECT A FROM D",
        0,
        "A\n'x'\n'y'\n",
    ),
];

fn tells(
    alloc: Global,
    tables: &[&str],
    files: (&str, &str),
    sql: &str,
    status: u8,
    text: &str,
) -> Result<bool, NoMemory> {
    let model = model_of(alloc, tables)?;
    let told = ask_files(
        alloc,
        model.as_str(),
        files.0.as_bytes(),
        files.1.as_bytes(),
        sql,
    )?;
    Ok(has_written(&told, status, text))
}

#[test]
fn the_earlier_fault(rt: HostRuntime) -> Result<(), Fail> {
    let alloc = rt.alloc();
    for (tables, c, d, sql, status, text) in PHASES {
        let is_told = tells(alloc, *tables, (*c, *d), *sql, *status, *text)?;
        assert!(rt; is_told, "{c} {d} {sql}");
    }
    Ok(())
}

// The words, the file C, the status, the text, and how many files were read. The file D is missing.
const MISSING: &[(&[&str], &str, u8, &str, usize)] = &[
    (
        &["m", "SELECT", "x"],
        "A:byte\n",
        2,
        "usage: calq MODEL SQL [--budget N]\n",
        0,
    ),
    (
        &["m", "SELECT"],
        "A:byte\n",
        3,
        "table S.C: CsvBad record 1 column 1 cause BadHeader\n",
        2,
    ),
    (&["m", "SELECT"], "A:int\nx\n", 5, "read fault\n", 2),
    (&["n", "SELECT"], "A:byte\n", 5, "read fault\n", 0),
];

fn tells_missing(
    alloc: Global,
    words: &[&str],
    header: &str,
    status: u8,
    text: &str,
    read: usize,
) -> Result<bool, NoMemory> {
    let model = model_of(alloc, BAD_NAMES)?;
    let files = [
        File {
            name: "m",
            bytes: model.as_bytes(),
        },
        File {
            name: "C",
            bytes: header.as_bytes(),
        },
    ];
    let told = run(alloc, words, files.as_slice(), SOUND)?;
    Ok(has_written(&told, status, text) && told.files == read)
}

#[test]
fn faults_before_a_file_that_is_missing(rt: HostRuntime) -> Result<(), Fail> {
    let alloc = rt.alloc();
    for (words, header, status, text, read) in MISSING {
        let is_told = tells_missing(alloc, *words, *header, *status, *text, *read)?;
        assert!(rt; is_told, "{header}");
    }
    Ok(())
}
