//! Runs over one model and a sink in memory.
use cal_outside::{MemFile, MemSink, MemStore, Word};
use cal_top::run_query;
use cal_value::{List, NoMemory};
use rule_hep::Rule;
use std::alloc::Global;

fn words_of(alloc: Global, sql: &str) -> Result<List<Word>, NoMemory> {
    let mut words = List::new(alloc);
    for text in ["m", sql] {
        let word = Word::of(alloc, text)?;
        words.push(word)?;
    }
    Ok(words)
}

fn store_of(alloc: Global, model: &str) -> Result<MemStore, NoMemory> {
    let mut bytes = List::new(alloc);
    bytes.extend(model.as_bytes())?;
    let name = Word::of(alloc, "m")?;
    let mut files = List::new(alloc);
    files.push(MemFile { name, bytes })?;
    Ok(MemStore::new(files, List::new(alloc)))
}

// The status of a run.
fn status(
    alloc: Global,
    words: &List<Word>,
    store: &mut MemStore,
    sink: &mut MemSink,
    rules: &[Box<dyn Rule>],
) -> u8 {
    let record = run_query(alloc, words.as_slice(), store, sink, rules);
    let status = record.status;
    drop(record);
    status
}

// Whether the statement is answered by this text.
pub(crate) fn is_answered(
    alloc: Global,
    model: &str,
    sql: &str,
    text: &str,
    rules: &[Box<dyn Rule>],
) -> Result<bool, NoMemory> {
    let words = words_of(alloc, sql)?;
    let mut store = store_of(alloc, model)?;
    let mut sink = MemSink::new(alloc, 1000, List::new(alloc));
    let status = status(alloc, &words, &mut store, &mut sink, rules);
    Ok(status == 0 && sink.bytes().as_slice() == text.as_bytes())
}
