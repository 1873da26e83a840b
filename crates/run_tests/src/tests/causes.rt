//! The printed causes of models and of tables' files.
use crate::tests::run::{Told, ask, ask_files, has_written, joined, model_of};
use cal_value::NoMemory;
use std::alloc::Global;
use std::test::Fail;

// What stands for the operand of the one table, and the cause.
const OPERANDS: &[(&str, &str)] = &[
    ("5", "operand: WrongKind"),
    ("{}", "operand/columns: Missing"),
    (
        r#"{"columns":["A:byte"],"rows":[]}"#,
        "operand/columns/0: BadValue",
    ),
    (
        r#"{"columns":["A","A"],"rows":[]}"#,
        "operand/columns/1: Repeated",
    ),
    (
        r#"{"columns":["A"],"rows":[["x"],["y"]],"maxRows":1}"#,
        "operand/rows: TooMany",
    ),
    (
        r#"{"columns":["A"],"rows":[],"primaryKey":["B"]}"#,
        "operand/primaryKey/0: NoSuchName",
    ),
    (
        r#"{"columns":["A:int"],"rows":[[null]],"primaryKey":["A"]}"#,
        "operand/rows/0: NullValue",
    ),
    (
        r#"{"columns":["A:int"],"rows":[[1],[1]],"primaryKey":["A"]}"#,
        "operand/rows/1: KeyTaken",
    ),
];

// A run over a model of the one table T with this operand.
fn ask_operand(alloc: Global, operand: &str) -> Result<Told, NoMemory> {
    let table = joined(
        alloc,
        &[
            r#"{"name":"T","factory":"cal.MemTableFactory","operand":"#,
            operand,
            "}",
        ],
    )?;
    let model = model_of(alloc, &[table.as_str()])?;
    ask(alloc, model.as_str(), "SELECT 1 FROM T")
}

fn tells_operand(alloc: Global, operand: &str, cause: &str) -> Result<bool, NoMemory> {
    let text = joined(alloc, &["model: /schemas/0/tables/0/", cause, "\n"])?;
    let told = ask_operand(alloc, operand)?;
    let is_bare = !told.has_tables && !told.has_reply;
    Ok(has_written(&told, 3, text.as_str()) && is_bare)
}

// These bytes, and a text of 4,001 letters behind them.
fn letters_behind(alloc: Global, head: &str) -> Result<String, NoMemory> {
    let mut text = String::new(alloc);
    text.push_str(head)?;
    for _ in 0..4001 {
        text.push('x')?;
    }
    Ok(text)
}

#[test]
fn causes_of_models(rt: HostRuntime) -> Result<(), Fail> {
    let alloc = rt.alloc();
    for (operand, cause) in OPERANDS {
        let is_told = tells_operand(alloc, *operand, *cause)?;
        assert!(rt; is_told, "{cause}");
    }
    Ok(())
}

#[test]
fn a_text_of_a_model_that_is_too_long(rt: HostRuntime) -> Result<(), Fail> {
    let alloc = rt.alloc();
    let mut operand = letters_behind(alloc, r#"{"columns":["A"],"rows":[[""#)?;
    operand.push_str("\"]]}")?;
    let is_told = tells_operand(alloc, operand.as_str(), "operand/rows/0/0: TextTooLong")?;
    assert!(rt; is_told);
    Ok(())
}

const MODELS: &[(&str, &str)] = &[
    ("[", "model: NotJson\n"),
    ("{}", "model: /schemas: Missing\n"),
    (
        r#"{"schemas":[],"defaultSchema":"S"}"#,
        "model: /defaultSchema: NoSuchName\n",
    ),
    (
        r#"{"schemas":[{"name":"S","tables":[{"name":"C","factory":"org.apache.calcite.adapter.csv.CsvTableFactory","operand":{"file":"c.csv.gz"}}]}]}"#,
        "model: /schemas/0/tables/0/operand/file: Compressed\n",
    ),
    (
        r#"{"schemas":[{"name":"S","lattices":[{}]}]}"#,
        "model: /schemas/0/lattices: NotYet\n",
    ),
];

fn tells_model(alloc: Global, model: &str, text: &str) -> Result<bool, NoMemory> {
    let told = ask(alloc, model, "SELECT 1 FROM T")?;
    Ok(has_written(&told, 3, text) && told.files == 1)
}

#[test]
fn causes_of_other_models(rt: HostRuntime) -> Result<(), Fail> {
    let alloc = rt.alloc();
    for (model, text) in MODELS {
        let is_told = tells_model(alloc, *model, *text)?;
        assert!(rt; is_told, "{text}");
    }
    Ok(())
}

const PLAIN: &str =
    r#"{"name":"C","factory":"org.apache.calcite.adapter.csv.CsvTableFactory","operand":{"file":"C"}}"#;

const KEYED: &str =
    r#"{"name":"C","factory":"org.apache.calcite.adapter.csv.CsvTableFactory","operand":{"file":"C","primaryKey":["A"],"maxRows":2}}"#;

// The table, the bytes of its file, and the cause.
const FILES: &[(&str, &[u8], &str)] = &[
    (PLAIN, b"", "CsvBad record 1 column 0 cause NoHeader\n"),
    (
        PLAIN,
        b"A,B,C,D,E,F,G,H,I,J,K,L,M,N,O,P,Q,R,S,T,U,V,W,X,Y,Z,a,b,c,d,e,f,g",
        "CsvBad record 1 column 33 cause TooManyColumns\n",
    ),
    (PLAIN, b"\xff", "CsvBad record 1 column 1 cause NotUtf8\n"),
    (
        PLAIN,
        b"A:byte",
        "CsvBad record 1 column 1 cause BadHeader\n",
    ),
    (PLAIN, b"A,A", "CsvBad record 1 column 2 cause Repeated\n"),
    (
        PLAIN,
        b"A,B\nx\n",
        "CsvBad record 2 column 0 cause WrongCount\n",
    ),
    (
        PLAIN,
        b"A\n\xff\n",
        "CsvBad record 2 column 1 cause NotUtf8\n",
    ),
    (
        PLAIN,
        b"A:boolean\nx\n",
        "CsvBad record 2 column 1 cause BadBoolean\n",
    ),
    (
        PLAIN,
        b"A:int\n1\n2x\n",
        "CsvBad record 3 column 1 cause BadInteger\n",
    ),
    (
        KEYED,
        b"A:int,B\n,x\n",
        "CsvBad record 2 column 1 cause NullValue\n",
    ),
    (
        KEYED,
        b"A:int\n1\n1\n",
        "CsvBad record 3 column 0 cause KeyTaken\n",
    ),
    (KEYED, b"A:int\n1\n2\n3\n", "TableFull limit 2\n"),
];

fn tells_file(alloc: Global, table: &str, bytes: &[u8], cause: &str) -> Result<bool, NoMemory> {
    let text = joined(alloc, &["table S.C: ", cause])?;
    let model = model_of(alloc, &[table])?;
    let told = ask_files(alloc, model.as_str(), bytes, b"", "SELECT 1 FROM C")?;
    Ok(has_written(&told, 3, text.as_str()))
}

#[test]
fn causes_of_files(rt: HostRuntime) -> Result<(), Fail> {
    let alloc = rt.alloc();
    for (table, bytes, cause) in FILES {
        let is_told = tells_file(alloc, *table, *bytes, *cause)?;
        assert!(rt; is_told, "{cause}");
    }
    let long = letters_behind(alloc, "A\n")?;
    let cause = "CsvBad record 2 column 1 cause TextTooLong\n";
    let is_told = tells_file(alloc, PLAIN, long.as_bytes(), cause)?;
    assert!(rt; is_told);
    Ok(())
}
