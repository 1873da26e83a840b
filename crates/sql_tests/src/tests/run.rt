//! Statements over one model, and what `validate` says of them as a text.
ghost use Rattle.std.specs.Prelude.{◌≡◌, IfOk};
ghost use Rattle.cal_schema.specs.Valid.{IsValidSchema};

use crate::tests::described::{described, push_numbers};
use cal_outside::{MemFile, MemStore, Word};
use cal_schema::{Refusal, Schema};
use cal_start::{StartFault, StartRecord, Started, start};
use cal_value::{List, NoMemory, Row};
use script_text::push_refusal;
use sql_parser::parse;
use sql_text::tokens;
use sql_tree::Statement;
use sql_validator::{Checked, CheckedSelect, validate};
use std::alloc::Global;
use std::test::Fail;

// T and U share B, V has another kind of it; P has one row, Q and R have two, and R a key; D has a key, and C is in a file.
const MODEL: &str = r#"{"defaultSchema":"S","schemas":[{"name":"S","tables":[
{"name":"T","factory":"cal.MemTableFactory","operand":{"columns":["A:int","B:int"],"rows":[]}},
{"name":"U","factory":"cal.MemTableFactory","operand":{"columns":["B:int","C:string"],"rows":[]}},
{"name":"V","factory":"cal.MemTableFactory","operand":{"columns":["B:string"],"rows":[]}},
{"name":"P","factory":"cal.MemTableFactory","operand":{"columns":["V:long"],"rows":[],"maxRows":1}},
{"name":"Q","factory":"cal.MemTableFactory","operand":{"columns":["K:int"],"rows":[],"maxRows":2}},
{"name":"R","factory":"cal.MemTableFactory","operand":{"columns":["K:int"],"rows":[],"maxRows":2,"primaryKey":["K"]}},
{"name":"D","factory":"cal.MemTableFactory","operand":{"columns":["A:int","B:string"],"rows":[],"primaryKey":["A"]}},
{"name":"C","factory":"org.apache.calcite.adapter.csv.CsvTableFactory","operand":{"file":"c"}}]}]}"#;

// The model and the file of C.
fn store(alloc: Global) -> Result<MemStore, NoMemory> {
    let mut files = List::new(alloc);
    for (name, text) in [("m", MODEL), ("c", "X\n")] {
        let mut bytes = List::new(alloc);
        bytes.extend(text.as_bytes())?;
        let name = Word::of(alloc, name)?;
        files.push(MemFile { name, bytes })?;
    }
    Ok(MemStore::new(files, List::new(alloc)))
}

fn outcome_of(run: StartRecord) -> Result<Started, StartFault>
    ensures { result ≡ run.outcome }
{
    let StartRecord { outcome, .. } = run;
    outcome
}

fn schema_of(started: Started) -> Schema
    ensures { result ≡ started.schema }
{
    let Started { schema, .. } = started;
    schema
}

pub(crate) fn schema(alloc: Global) -> Result<Schema, Fail>
    ensures { IfOk result IsValidSchema }
{
    let mut store = store(alloc)?;
    let name = Word::of(alloc, "m")?;
    match outcome_of(start(alloc, &name, &mut store)) {
        Ok(started) => Ok(schema_of(started)),
        Err(_) => Err(Fail::new("no start")),
    }
}

fn statement(alloc: Global, sql: &str) -> Result<Statement, Fail> {
    let tokens = tokens(alloc, sql)?;
    Ok(parse(alloc, &tokens)?)
}

// A large value is dropped by `drop`, which is proved once; at the end of a function its drop is written out in the code of
// that function, which is dear to prove.
fn told_select(alloc: Global, word: &str, made: CheckedSelect) -> Result<String, NoMemory> {
    let told = described(alloc, word, &made);
    drop(made);
    told
}

fn told_table(alloc: Global, word: &str, table: u32) -> Result<String, NoMemory> {
    let mut out = String::new(alloc);
    push_numbers(alloc, &mut out, word, &[table])?;
    Ok(out)
}

fn told_insert(alloc: Global, table: u32, rows: List<Row>) -> Result<String, NoMemory> {
    let _ = rows;
    told_table(alloc, "insert", table)
}

fn told_accepted(alloc: Global, made: Checked) -> Result<String, NoMemory> {
    match made {
        Checked::Select(made) => told_select(alloc, "select", made),
        Checked::ExplainPlan(made) => told_select(alloc, "plan", made),
        Checked::ExplainMemo(made) => told_select(alloc, "memo", made),
        Checked::Insert { table, rows } => told_insert(alloc, table, rows),
        Checked::Refresh { table } => told_table(alloc, "refresh", table),
    }
}

fn refusal_text(alloc: Global, refusal: &Refusal) -> Result<String, NoMemory> {
    let mut out = String::new(alloc);
    push_refusal(&mut out, refusal)?;
    Ok(out)
}

fn told_refused(alloc: Global, refusal: Refusal) -> Result<String, NoMemory> {
    let told = refusal_text(alloc, &refusal);
    drop(refusal);
    told
}

fn told_answer(alloc: Global, answer: Result<Checked, Refusal>) -> Result<String, NoMemory> {
    match answer {
        Ok(made) => told_accepted(alloc, made),
        Err(refusal) => told_refused(alloc, refusal),
    }
}

fn told_validated(alloc: Global, schema: &Schema, statement: Statement) -> Result<String, NoMemory>
    requires { IsValidSchema schema.now }
{
    told_answer(alloc, validate(alloc, statement, schema))
}

// The cause of a refusal, or what an accepted statement has.
fn told(alloc: Global, schema: &Schema, sql: &str) -> Result<String, Fail>
    requires { IsValidSchema schema.now }
{
    match statement(alloc, sql) {
        Ok(statement) => Ok(told_validated(alloc, schema, statement)?),
        Err(fail) => Err(fail),
    }
}

// What is told is this, or begins with this word and the tables of a SELECT.
fn is_told(told: &str, text: &str) -> bool {
    match told.split_once(" tables") {
        Some((word, _)) => word == text || told == text,
        None => told == text,
    }
}

// Whether of the statement before ` => ` is told what stands behind it.
fn holds(alloc: Global, schema: &Schema, row: &str) -> Result<bool, Fail>
    requires { IsValidSchema schema.now }
{
    match row.split_once(" => ") {
        Some((sql, text)) => {
            let told = told(alloc, schema, sql)?;
            Ok(is_told(told.as_str(), text))
        }
        None => Ok(false),
    }
}

// The first row that doesn't hold; empty where there is none.
pub(crate) fn first_wrong(alloc: Global, table: &'static str) -> Result<&'static str, Fail> {
    let schema = schema(alloc)?;
    for row in table.lines() {
        let holds = holds(alloc, &schema, row)?;
        if !holds {
            return Ok(row);
        }
    }
    Ok("")
}
