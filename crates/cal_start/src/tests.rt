use crate::{StartRecord, start};
use cal_outside::{MemFile, MemStore, Word};
use cal_value::{List, NoMemory};
use std::alloc::Global;
use std::test::Fail;

// One table with its rows, and one in the file `b`.
const MODEL: &str =
    r#"{"schemas":[{"name":"S","tables":[{"name":"A","factory":"cal.MemTableFactory","operand":{"columns":["N:int"],"rows":[[7]]}},{"name":"B","factory":"org.apache.calcite.adapter.csv.CsvTableFactory","operand":{"file":"b"}}]}]}"#;

// The start over the model and a file `b`, where the read of this number fails.
fn started(alloc: Global, text: &str, failing: u64) -> Result<StartRecord, NoMemory> {
    let mut files = List::new(alloc);
    for (name, text) in [("m", MODEL), ("b", text)] {
        let mut bytes = List::new(alloc);
        bytes.extend(text.as_bytes())?;
        let name = Word::of(alloc, name)?;
        files.push(MemFile { name, bytes })?;
    }
    let mut numbers = List::new(alloc);
    numbers.push(failing)?;
    let mut store = MemStore::new(files, numbers);
    let name = Word::of(alloc, "m")?;
    Ok(start(alloc, &name, &mut store))
}

// How many rows each table has, where the run has its tables.
fn row_counts(record: &StartRecord) -> Option<(usize, usize)> {
    match &record.outcome {
        Ok(started) => match started.db.tables.as_slice() {
            [a, b] => Some((a.len(), b.len())),
            _ => None,
        },
        Err(_) => None,
    }
}

#[test]
fn each_end(rt: HostRuntime) -> Result<(), Fail> {
    let alloc = rt.alloc();
    for (text, failing, counts, files) in [
        ("N:int\n1\n2\n", 0, Some((1, 2)), 2usize),
        ("N:byte\n", 0, None, 2),
        ("N:int\n1\n", 3, None, 1),
    ] {
        let record = started(alloc, text, failing)?;
        assert_eq!(rt; row_counts(&record), counts, "{text}");
        assert_eq!(rt; record.files.len(), files, "{text}");
    }
    Ok(())
}
