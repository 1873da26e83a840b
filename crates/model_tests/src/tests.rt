ghost use Rattle.std.specs.Prelude.{◌≤◌, [], ◌∷◌, length, IfOk};
ghost use Rattle.model_json.specs.ModelOf.{AreShort};

use cal_schema::{AdapterKind, ColumnDef};
use cal_value::{COLUMN_LIMIT, List, NoMemory, Row, SqlText, Value};
use model_json::{Model, ModelFault, TableSource, read_model, resolve, sources};
use std::alloc::Global;
use std::test::Fail;

// The columns of a file: A of whole numbers and B of texts.
fn header(alloc: Global) -> Result<List<ColumnDef>, Fail>
    ensures { IfOk result (λ columns. length columns ≤ COLUMN_LIMIT) }
{
    let mut columns = List::new(alloc);
    let column = ColumnDef::parse(alloc, "A:int")?;
    columns.push(column)?;
    let column = ColumnDef::parse(alloc, "B:string")?;
    columns.push(column)?;
    Ok(columns)
}

fn header_of(alloc: Global, name: &Option<SqlText>) -> Result<Option<List<ColumnDef>>, Fail>
    ensures { IfOk result (λ header. AreShort (header ∷ [])) }
{
    match name {
        Some(_) => Ok(Some(header(alloc)?)),
        None => Ok(None),
    }
}

fn headers_of(alloc: Global, tables: &[TableSource]) -> Result<List<Option<List<ColumnDef>>>, Fail>
    ensures { IfOk result AreShort }
{
    let mut headers = List::new(alloc);
    for table in tables {
        headers.push(header_of(alloc, &table.file)?)?;
    }
    Ok(headers)
}

// The model, where each file has that header.
fn model(alloc: Global, text: &str) -> Result<Result<Model, ModelFault>, Fail> {
    let doc = match read_model(alloc, text.as_bytes()) {
        Ok(doc) => doc,
        Err(fault) => return Ok(Err(fault)),
    };
    let tables = sources(alloc, &doc)?;
    let headers = headers_of(alloc, tables.as_slice())?;
    Ok(resolve(alloc, doc, &headers))
}

fn has_fault(alloc: Global, text: &str, path: &str, cause: &str) -> Result<bool, Fail> {
    match model(alloc, text)? {
        Err(
            ModelFault::BadModel {
                path: found,
                cause: why,
            },
        ) => {
            let why = format!(in alloc; "{why}")?;
            Ok(found.as_slice() == path.as_bytes() && why.as_str() == cause)
        }
        _ => Ok(false),
    }
}

// The first line whose model has another fault, and the empty text where there is none. A line is the path below `at`, the cause, and what
// stands in the model between `before` and `after`.
fn wrong_line<'a>(
    alloc: Global,
    at: &str,
    before: &str,
    lines: &'a str,
    after: &str,
) -> Result<&'a str, Fail> {
    for line in lines.lines() {
        if line.is_empty() {
            continue;
        }
        let (path, rest) = line.split_once(' ').ok_or("no cause")?;
        let (cause, text) = rest.split_once(' ').ok_or("no text")?;
        let path = format!(in alloc; "{at}{path}")?;
        let text = format!(in alloc; "{before}{text}{after}")?;
        if !has_fault(alloc, text.as_str(), path.as_str(), cause)? {
            return Ok(line);
        }
    }
    Ok("")
}

const DOCUMENTS: &str = r#"
/ WrongKind []
/version BadValue {"version":"1.1","schemas":[]}
/version WrongKind {"version":1,"schemas":{}}
/version WrongKind {"version":null,"schemas":[]}
/schemas Missing {}
/schemas WrongKind {"schemas":{},"defaultSchema":1}
/defaultSchema NoSuchName {"schemas":[1],"defaultSchema":"S"}
/defaultSchema NoSuchName {"schemas":[{"name":"s"}],"defaultSchema":"S"}
/defaultSchema WrongKind {"schemas":[1],"defaultSchema":2}
/schemas/0 WrongKind {"schemas":[1],"version":"1.0"}
/schemas/0/name Missing {"schemas":[{"type":1}]}
/schemas/2/name Repeated {"schemas":[{"name":"S"},{"name":"T"},{"tables":1,"name":"S"}]}
/schemas/0/type BadValue {"schemas":[{"name":"S","type":"jdbc","tables":1}]}
/schemas/0/tables WrongKind {"schemas":[{"name":"S","type":"map","tables":{}}]}
/schemas/1/lattices NotYet {"schemas":[{"name":"S","lattices":[]},{"name":"T","lattices":[{}]}]}
/schemas/0/lattices WrongKind {"schemas":[{"name":"S","lattices":{}}]}
/schemas/1/name Repeated {"schemas":[{"name":"S","lattices":[1]},{"name":"S"}]}
"#;

const TABLES: &str = r#"
0 WrongKind 1
0/name Missing {}
0/name WrongKind {"name":1,"type":1}
0/type BadValue {"name":"T","type":"view","factory":1}
0/factory Missing {"name":"T","type":"custom"}
0/factory BadValue {"name":"T","factory":"org"}
0/operand Missing {"name":"T","factory":"cal.MemTableFactory"}
0/operand WrongKind {"name":"T","factory":"cal.MemTableFactory","operand":[]}
1/name Repeated {"name":"T","factory":"cal.MemTableFactory","operand":{"columns":["A"],"rows":[]}},{"name":"T"}
"#;

const OPERANDS: &str = r#"
maxRows BadValue "maxRows":0
maxRows BadValue "maxRows":-1
maxRows BadValue "maxRows":1.0
maxRows BadValue "maxRows":1e3
maxRows BadValue "maxRows":1048577
maxRows WrongKind "maxRows":"1"
columns Missing "maxRows":1048576
columns WrongKind "columns":{}
columns BadValue "columns":[]
columns/0 WrongKind "columns":[1]
columns/1 BadValue "columns":["A:int","A:byte"]
columns/1 BadValue "columns":["A:int",":int"]
columns/2 Repeated "columns":["A:int","B","A"]
rows Missing "columns":["A:int"]
rows WrongKind "columns":["A:int"],"rows":null
rows TooMany "columns":["A:int"],"maxRows":1,"rows":[1,2]
"#;

const ROWS: &str = r#"
0 WrongKind 1
1 BadValue [1,true,"x",2],[1,true]
0 BadValue [1,true,"x",2,3]
0/0 BadValue [1.0,true,"x",2]
0/0 BadValue [1e3,true,"x",2]
0/0 BadValue [-0,true,"x",2]
0/0 BadValue [2147483648,true,"x",2]
0/0 BadValue [99999999999999999999,true,"x",2]
0/0 WrongKind [true,true,"x",2]
0/0 WrongKind [[true],true,"x",2]
0/0 WrongKind ["1",true,"x",2]
0/1 WrongKind [1,1,"x",2]
0/2 WrongKind [1,null,2,2]
0/3 BadValue [1,null,null,32768]
1/3 WrongKind [1,null,"x",-32768],[null,false,"",{}]
"#;

const KEYS: &str = r#"
primaryKey WrongKind "primaryKey":1,"rows":[]
primaryKey/0 WrongKind "primaryKey":[1],"rows":[]
primaryKey/1 NoSuchName "primaryKey":["A","C"],"rows":[]
primaryKey/0 NoSuchName "primaryKey":["a"],"rows":[]
primaryKey/2 Repeated "primaryKey":["A","B","A"],"rows":[[null,null]]
rows/2 NullValue "primaryKey":["A"],"rows":[[1,null],[2,null],[null,null],[1,null]]
rows/2 KeyTaken "primaryKey":["A"],"rows":[[1,"x"],[2,"x"],[1,"y"],[null,"x"]]
rows/3 KeyTaken "primaryKey":["B","A"],"rows":[[1,"x"],[2,"x"],[1,"y"],[2,"x"]]
rows/2/1 WrongKind "primaryKey":1,"rows":[[1,"x"],[2,"x"],[1,2]]
"#;

const FILES: &str = r#"
tables/0/operand/file Missing "maxRows":1
tables/0/operand/file WrongKind "file":1,"maxRows":0
tables/0/operand/file Compressed "file":"a.gz"
tables/0/operand/file Compressed "file":"a.Gz"
tables/0/operand/file Compressed "file":".gZ"
tables/0/operand/maxRows BadValue "file":"a.csv","maxRows":0,"primaryKey":1
tables/1/name Missing "file":"gz","primaryKey":1}},{"operand":{
tables/0/operand/primaryKey WrongKind "file":"agz","primaryKey":1
tables/0/operand/primaryKey/0 WrongKind "file":"a","primaryKey":[1,"C"]
tables/0/operand/primaryKey/1 NoSuchName "file":"a","primaryKey":["B","C"]
tables/0/operand/primaryKey/1 Repeated "file":"a","primaryKey":["B","B"]
tables/1/operand/primaryKey/0 NoSuchName "file":"a","primaryKey":["B"]}},{"name":"U","factory":"org.apache.calcite.adapter.csv.CsvTableFactory","operand":{"file":"b","primaryKey":["C"]
lattices NotYet "file":"a","primaryKey":["B","A"]
"#;

// A table in memory, up to its operand.
const MEMORY: &str =
    r#"{"schemas":[{"name":"S","tables":[{"name":"T","factory":"cal.MemTableFactory","operand":{"#;

// A table that is read from a file, up to its operand.
const FILE: &str =
    r#"{"schemas":[{"name":"S","lattices":[1],"tables":[{"name":"T","factory":"org.apache.calcite.adapter.csv.CsvTableFactory","operand":{"#;

#[test]
fn faults_with_their_paths(rt: HostRuntime) -> Result<(), Fail> {
    let alloc = rt.alloc();
    let schema = r#"{"schemas":[{"name":"S","tables":["#;
    let rows = format!(in alloc;
        "{MEMORY}\"columns\":[\"A:int\",\"B:boolean\",\"C\",\"D:short\"],\"rows\":["
    )?;
    let keys = format!(in alloc; "{MEMORY}\"columns\":[\"A:int\",\"B\"],")?;
    let operand = "/schemas/0/tables/0/operand/";
    let row = "/schemas/0/tables/0/operand/rows/";
    for (at, before, lines, after) in [
        ("", "", DOCUMENTS, ""),
        ("/schemas/0/tables/", schema, TABLES, "]}]}"),
        (operand, MEMORY, OPERANDS, "}}]}]}"),
        (row, rows.as_str(), ROWS, "]}}]}]}"),
        (operand, keys.as_str(), KEYS, "}}]}]}"),
        ("/schemas/0/", FILE, FILES, "}}]}]}"),
    ] {
        assert_eq!(rt; wrong_line(alloc, at, before, lines, after)?, "");
    }
    Ok(())
}

fn repeated(alloc: Global, text: &str, times: usize) -> Result<String, NoMemory> {
    let mut all = String::new(alloc);
    for _ in 0..times {
        all.push_str(text)?;
    }
    Ok(all)
}

// So many tables T1, T2 .. of a schema.
fn many_tables(alloc: Global, count: usize) -> Result<String, NoMemory> {
    let mut all = String::new(alloc);
    for number in 0..count {
        if number > 0 {
            all.push_str(",")?;
        }
        let table = format!(in alloc;
            "{{\"name\":\"T{number}\",\"factory\":\"cal.MemTableFactory\",\"operand\":{{\"columns\":[\"A\"],\"rows\":[]}}}}"
        )?;
        all.push_str(table.as_str())?;
    }
    Ok(all)
}

#[test]
fn counts_at_their_limits(rt: HostRuntime) -> Result<(), Fail> {
    let alloc = rt.alloc();
    let first = many_tables(alloc, 60)?;
    let before = format!(in alloc;
        "{{\"schemas\":[{{\"name\":\"S\",\"tables\":[{first}]}},{{\"name\":\"U\",\"tables\":["
    )?;
    for (count, fault) in [(4, "2 WrongKind"), (5, "1/tables TooMany")] {
        let second = many_tables(alloc, count)?;
        let line = format!(in alloc; "{fault} {second}")?;
        let wrong = wrong_line(alloc, "/schemas/", before.as_str(), line.as_str(), "]},1]}")?;
        assert_eq!(rt; wrong, "");
    }
    let before = format!(in alloc; "{MEMORY}\"columns\":[")?;
    for (count, fault) in [(31, "columns/0 WrongKind"), (32, "columns TooMany")] {
        let columns = repeated(alloc, "1,", count)?;
        let line = format!(in alloc; "{fault} {columns}")?;
        let at = "/schemas/0/tables/0/operand/";
        let wrong = wrong_line(alloc, at, before.as_str(), line.as_str(), "1]}}]}]}")?;
        assert_eq!(rt; wrong, "");
    }
    Ok(())
}

#[test]
fn names_and_texts_at_their_limits(rt: HostRuntime) -> Result<(), Fail> {
    let alloc = rt.alloc();
    for (count, fault) in [
        (128, "/schemas/0/type BadValue"),
        (129, "/schemas/0/name TextTooLong"),
    ] {
        let name = repeated(alloc, "a", count)?;
        let line = format!(in alloc; "{fault} {name}")?;
        let before = r#"{"schemas":[{"type":"x","name":""#;
        assert_eq!(rt;
            wrong_line(alloc, "", before, line.as_str(), r#""}]}"#)?,
            ""
        );
    }
    for (count, fault) in [(4000, "/version BadValue"), (4001, "/version TextTooLong")] {
        let text = repeated(alloc, "a", count)?;
        let line = format!(in alloc; "{fault} {text}")?;
        assert_eq!(rt;
            wrong_line(alloc, "", r#"{"version":""#, line.as_str(), r#""}"#)?,
            ""
        );
    }
    Ok(())
}

fn is_no_json(alloc: Global, bytes: &[u8]) -> bool {
    match read_model(alloc, bytes) {
        Err(ModelFault::NotJson) => true,
        _ => false,
    }
}

#[test]
fn bytes_that_are_no_json(rt: HostRuntime) -> Result<(), Fail> {
    let alloc = rt.alloc();
    for bytes in [
        b"".as_slice(),
        b"{".as_slice(),
        b"{\"schemas\":[]} x".as_slice(),
        b"{\"schemas\":[],\"x\":\"\xff\"}".as_slice(),
        b"\xef\xbb\xbf{\"schemas\":[]}".as_slice(),
        b"{\"schemas\":[],\"x\":1e999}".as_slice(),
    ] {
        assert!(rt; is_no_json(alloc, bytes));
    }
    for (levels, is_json) in [(126, true), (127, false)] {
        let open = repeated(alloc, "[", levels)?;
        let close = repeated(alloc, "]", levels)?;
        let text = format!(in alloc; "{{\"schemas\":[],\"x\":{open}{close}}}")?;
        assert!(rt; is_no_json(alloc, text.as_bytes()) != is_json);
        assert!(rt; read_model(alloc, text.as_bytes()).is_ok() == is_json);
    }
    Ok(())
}

const DOCUMENT: &str = r#"{"version":"0","version":"1.0","defaultSchema":"S","x":[{}],"schemas":[
 {"name":"E","y":1},
 {"name":"S","type":"map","lattices":[],"tables":[
  {"name":"C","type":"custom","factory":"org.apache.calcite.adapter.csv.CsvTableFactory","operand":{"file":"c.csv","maxRows":7,"primaryKey":["B"],"flavor":"scannable"}},
  {"name":"M","factory":"cal.MemTableFactory","operand":{"columns":["A:long","B:boolean","C"],"rows":[[-9223372036854775808,null,"ß"],[9223372036854775807,true,""]],"primaryKey":["C","A"]}}]},
 {"name":"U","tables":[{"name":"M","factory":"cal.MemTableFactory","operand":{"columns":["A:int"],"rows":[[null],[null]],"primaryKey":[]}}]}]}"#;

fn is_spelled(alloc: Global, text: &SqlText, name: &str) -> Result<bool, Fail> {
    let name = SqlText::of(alloc, name)?;
    Ok(*text == name)
}

fn has_row(alloc: Global, row: &Row, number: i128, truth: Value, text: &str) -> Result<bool, Fail> {
    let text = SqlText::of(alloc, text)?;
    let mut wanted = List::new(alloc);
    wanted.push(Value::Int(number))?;
    wanted.push(truth)?;
    wanted.push(Value::Text(text))?;
    Ok(*row == wanted)
}

fn is_source(
    alloc: Global,
    source: &TableSource,
    schema: &str,
    name: &str,
    file: &str,
) -> Result<bool, Fail> {
    let named = is_spelled(alloc, &source.schema, schema)?
        && is_spelled(alloc, &source.name, name)?;
    match &source.file {
        Some(found) => Ok(named && is_spelled(alloc, found, file)?),
        None => Ok(named && file.is_empty()),
    }
}

#[test]
fn tables_with_their_files(rt: HostRuntime) -> Result<(), Fail> {
    let alloc = rt.alloc();
    let Ok(doc) = read_model(alloc, DOCUMENT.as_bytes()) else {
        assert!(rt; false);
        return Ok(());
    };
    let found = sources(alloc, &doc)?;
    let wanted = [("S", "C", "c.csv"), ("S", "M", ""), ("U", "M", "")];
    assert_eq!(rt; found.len(), wanted.len());
    for (source, (schema, name, file)) in found.as_slice().iter().zip(wanted) {
        assert!(rt; is_source(alloc, source, schema, name, file)?, "{name}");
    }
    Ok(())
}

#[test]
fn a_model_of_files_and_rows(rt: HostRuntime) -> Result<(), Fail> {
    let alloc = rt.alloc();
    let found = model(alloc, DOCUMENT)?.ok().ok_or("a fault")?;
    let default = found.schema.default_schema.as_ref().ok_or("no default")?;
    assert!(rt; is_spelled(alloc, default, "S")?);
    assert_eq!(rt; found.inline.len(), 3);
    let tables = found.schema.tables.as_slice();
    assert_eq!(rt; tables.len(), 3);
    assert!(rt; is_spelled(alloc, &tables[0].schema, "S")?);
    assert!(rt; is_spelled(alloc, &tables[0].file, "c.csv")?);
    assert_eq!(rt; tables[0].adapter, AdapterKind::Csv);
    assert_eq!(rt; tables[0].max_rows, 7);
    assert_eq!(rt; tables[0].primary_key.as_slice(), [1].as_slice());
    assert_eq!(rt; tables[1].adapter, AdapterKind::Mem);
    assert_eq!(rt; tables[1].max_rows, 1048576);
    assert_eq!(rt; tables[1].primary_key.as_slice(), [2, 0].as_slice());
    assert!(rt; is_spelled(alloc, &tables[2].schema, "U")?);
    Ok(())
}

#[test]
fn columns_and_rows_of_a_model(rt: HostRuntime) -> Result<(), Fail> {
    let alloc = rt.alloc();
    let found = model(alloc, DOCUMENT)?.ok().ok_or("a fault")?;
    let table = found.schema.tables.get(1).ok_or("no table")?;
    let columns = table.columns.as_slice();
    assert_eq!(rt; columns.len(), 3);
    assert!(rt; !columns[0].kind.nullable);
    assert!(rt; columns[1].kind.nullable);
    assert!(rt; !columns[2].kind.nullable);
    let file = found.schema.tables.get(0).ok_or("no table")?;
    let columns = file.columns.as_slice();
    assert_eq!(rt; columns.len(), 2);
    assert!(rt; columns[0].kind.nullable);
    assert!(rt; !columns[1].kind.nullable);
    let [None, Some(rows), Some(_)] = found.inline.as_slice() else {
        panic!(rt; "other rows");
    };
    let [first, second] = rows.as_slice() else {
        panic!(rt; "other rows");
    };
    assert!(rt; has_row(alloc, first, -9223372036854775808, Value::Null, "ß")?);
    assert!(rt; has_row(alloc, second, 9223372036854775807, Value::Bool(true), "")?);
    Ok(())
}
