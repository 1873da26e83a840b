//! Runs over one model, a file of a table, and a sink in memory.
use cal_outside::{MemFile, MemSink, MemStore, Word};
use cal_top::run_query;
use cal_value::{List, NoMemory};
use rule_hep::Rule;
use std::alloc::Global;

const MODEL: &str = r#"{"defaultSchema":"S","schemas":[{"name":"S","tables":[
{"name":"T","factory":"cal.MemTableFactory","operand":{"columns":["A:int"],"rows":[[1],[2]]}},
{"name":"U","factory":"cal.MemTableFactory","operand":{"columns":["B:int"],"rows":[[2],[3]]}},
{"name":"M","factory":"cal.MemTableFactory","operand":{"columns":["K:int"],"rows":[[10],[9],[8],[7],[6],[5],[4],[3],[2],[1]]}},
{"name":"P","factory":"cal.MemTableFactory","operand":{"columns":["A:int"],"rows":[[5]]}},
{"name":"W","factory":"cal.MemTableFactory","operand":{"columns":["A:int","B:int"],"rows":[[1,2],[3,4]]}},
{"name":"F","factory":"org.apache.calcite.adapter.csv.CsvTableFactory","operand":{"file":"f"}}]}]}"#;

const FILE: &str = "X:int,Y:int\n1,10\n2,20\n";

fn words_of(alloc: Global, before: &str, select: &str) -> Result<List<Word>, NoMemory> {
    let mut sql = String::new(alloc);
    sql.push_str(before)?;
    sql.push_str(select)?;
    let mut words = List::new(alloc);
    for text in ["m", sql.as_str()] {
        let word = Word::of(alloc, text)?;
        words.push(word)?;
    }
    Ok(words)
}

fn store(alloc: Global) -> Result<MemStore, NoMemory> {
    let mut files = List::new(alloc);
    for (name, text) in [("m", MODEL), ("f", FILE)] {
        let mut bytes = List::new(alloc);
        bytes.extend(text.as_bytes())?;
        let name = Word::of(alloc, name)?;
        files.push(MemFile { name, bytes })?;
    }
    Ok(MemStore::new(files, List::new(alloc)))
}

// The status of a run.
fn status(
    alloc: Global,
    words: &List<Word>,
    store: &mut MemStore,
    sink: &mut MemSink,
    rules: &[Box<dyn Rule>],
) -> u8 {
    let record = run_query(alloc, words.as_slice(), store, sink, rules);
    let status = record.status;
    drop(record);
    status
}

// Whether the SELECT behind these words is answered by this text.
pub(crate) fn is_answered(
    alloc: Global,
    before: &str,
    select: &str,
    text: &str,
    rules: &[Box<dyn Rule>],
) -> Result<bool, NoMemory> {
    let words = words_of(alloc, before, select)?;
    let mut store = store(alloc)?;
    let mut sink = MemSink::new(alloc, 1000, List::new(alloc));
    let status = status(alloc, &words, &mut store, &mut sink, rules);
    Ok(status == 0 && sink.bytes().as_slice() == text.as_bytes())
}
