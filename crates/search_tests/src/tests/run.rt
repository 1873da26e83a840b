//! Runs over one model and a sink in memory.
use cal_outside::{MemFile, MemSink, MemStore, Word};
use cal_top::run_query;
use cal_value::{List, NoMemory};
use rule_hep::Rule;
use select_planning::Planning;
use session_lane::Reply;
use std::alloc::Global;

fn words_of(alloc: Global, sql: &str, budget: &str) -> Result<List<Word>, NoMemory> {
    let mut words = List::new(alloc);
    for text in ["m", sql, "--budget", budget] {
        let word = Word::of(alloc, text)?;
        words.push(word)?;
    }
    Ok(words)
}

fn store_of(alloc: Global, model: &str) -> Result<MemStore, NoMemory> {
    let mut bytes = List::new(alloc);
    bytes.extend(model.as_bytes())?;
    let name = Word::of(alloc, "m")?;
    let mut files = List::new(alloc);
    files.push(MemFile { name, bytes })?;
    Ok(MemStore::new(files, List::new(alloc)))
}

fn planning_in(reply: Option<Reply>) -> Option<Planning> {
    match reply {
        Some(Reply::Rows { answer, .. }) => Some(answer.planning),
        Some(Reply::Plan { planning, .. }) => Some(planning),
        Some(Reply::Memo { planning, .. }) => Some(planning),
        Some(Reply::Refused { .. }) => None,
        None => None,
    }
}

fn reply(
    alloc: Global,
    words: &List<Word>,
    store: &mut MemStore,
    sink: &mut MemSink,
    rules: &[Box<dyn Rule>],
) -> Option<Reply> {
    run_query(alloc, words.as_slice(), store, sink, rules).reply
}

// How the statement is planned, where it is answered.
pub(crate) fn planned(
    alloc: Global,
    model: &str,
    sql: &str,
    budget: &str,
    rules: &[Box<dyn Rule>],
) -> Result<Option<Planning>, NoMemory> {
    let words = words_of(alloc, sql, budget)?;
    let mut store = store_of(alloc, model)?;
    let mut sink = MemSink::new(alloc, 1000, List::new(alloc));
    let reply = reply(alloc, &words, &mut store, &mut sink, rules);
    Ok(planning_in(reply))
}

// Whether the statement is answered by this text.
pub(crate) fn is_answered(
    alloc: Global,
    model: &str,
    sql: &str,
    budget: &str,
    text: &str,
    rules: &[Box<dyn Rule>],
) -> Result<bool, NoMemory> {
    let words = words_of(alloc, sql, budget)?;
    let mut store = store_of(alloc, model)?;
    let mut sink = MemSink::new(alloc, 1000, List::new(alloc));
    let reply = reply(alloc, &words, &mut store, &mut sink, rules);
    drop(reply);
    Ok(sink.bytes().as_slice() == text.as_bytes())
}
