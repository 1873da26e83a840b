//! Runs over files and a sink in memory.
use cal_outside::{MemFile, MemSink, MemStore, Word};
use cal_top::{QueryRecord, TopFault, run_query};
use cal_value::{List, NoMemory};
use rule_hep::Rule;
use std::alloc::Global;

// What a run leaves.
#[derive(Drop)]
pub(crate) struct Ran {
    pub(crate) record: QueryRecord,
    sink: MemSink,
}

// What most tests ask of it: the status, the text, how many files were read, whether there are tables and a reply, and what was
// being told where the sink failed. A run is large: at the end of a function its drop would be written out in the code of that
// function, which is dear to prove, so it is dropped by `drop`, which is proved once.
#[derive(Drop)]
pub(crate) struct Told {
    pub(crate) status: u8,
    text: Vec<u8>,
    pub(crate) files: usize,
    pub(crate) has_tables: bool,
    pub(crate) has_reply: bool,
    pub(crate) is_sound: bool,
    pub(crate) sink_fault: Option<u8>,
}

// A file by name.
#[derive(Clone, Copy)]
pub(crate) struct File<'a> {
    pub(crate) name: &'a str,
    pub(crate) bytes: &'a [u8],
}

// Which reads and writes fail, and how many bytes a write takes.
#[derive(Clone, Copy)]
pub(crate) struct Device<'a> {
    pub(crate) failing_reads: &'a [u64],
    pub(crate) failing_writes: &'a [u64],
    pub(crate) most: u64,
}

pub(crate) const SOUND: Device<'static> = Device {
    failing_reads: &[],
    failing_writes: &[],
    most: 1000,
};

fn numbers(alloc: Global, all: &[u64]) -> Result<List<u64>, NoMemory> {
    let mut list = List::new(alloc);
    for number in all {
        list.push(*number)?;
    }
    Ok(list)
}

fn words_of(alloc: Global, words: &[&str]) -> Result<List<Word>, NoMemory> {
    let mut all = List::new(alloc);
    for word in words {
        let word = Word::of(alloc, *word)?;
        all.push(word)?;
    }
    Ok(all)
}

fn file_of(alloc: Global, file: &File<'_>) -> Result<MemFile, NoMemory> {
    let mut bytes = List::new(alloc);
    bytes.extend(file.bytes)?;
    let name = Word::of(alloc, file.name)?;
    Ok(MemFile { name, bytes })
}

pub(crate) fn store_of(
    alloc: Global,
    all: &[File<'_>],
    failing: &[u64],
) -> Result<MemStore, NoMemory> {
    let mut files = List::new(alloc);
    for file in all {
        let file = file_of(alloc, file)?;
        files.push(file)?;
    }
    let failing = numbers(alloc, failing)?;
    Ok(MemStore::new(files, failing))
}

pub(crate) fn run_whole(
    alloc: Global,
    words: &[&str],
    files: &[File<'_>],
    device: Device<'_>,
) -> Result<Ran, NoMemory> {
    let mut store = store_of(alloc, files, device.failing_reads)?;
    let failing = numbers(alloc, device.failing_writes)?;
    let mut sink = MemSink::new(alloc, device.most.max(1), failing);
    let words = words_of(alloc, words)?;
    let rules: Vec<Box<dyn Rule>> = Vec::new(alloc);
    let record = run_query(alloc, words.as_slice(), &mut store, &mut sink, &rules);
    Ok(Ran { record, sink })
}

fn sink_fault(fault: &Option<TopFault>) -> Option<u8> {
    match fault {
        Some(TopFault::SinkFault { of }) => Some(*of),
        _ => None,
    }
}

fn told_of(alloc: Global, ran: &Ran) -> Result<Told, NoMemory> {
    let mut text = Vec::new(alloc);
    text.extend_from_slice(ran.sink.bytes().as_slice())?;
    Ok(Told {
        status: ran.record.status,
        text,
        files: ran.record.files.len(),
        has_tables: ran.record.db.is_some(),
        has_reply: ran.record.reply.is_some(),
        is_sound: ran.record.fault.is_none(),
        sink_fault: sink_fault(&ran.record.fault),
    })
}

fn summary(alloc: Global, ran: Ran) -> Result<Told, NoMemory> {
    let told = told_of(alloc, &ran);
    drop(ran);
    told
}

pub(crate) fn run(
    alloc: Global,
    words: &[&str],
    files: &[File<'_>],
    device: Device<'_>,
) -> Result<Told, NoMemory> {
    match run_whole(alloc, words, files, device) {
        Ok(ran) => summary(alloc, ran),
        Err(fault) => Err(fault),
    }
}

// The parts, one behind the other.
pub(crate) fn joined(alloc: Global, parts: &[&str]) -> Result<String, NoMemory> {
    let mut text = String::new(alloc);
    for part in parts {
        text.push_str(*part)?;
    }
    Ok(text)
}

// A model of the schema S, which is the default one, with these tables.
pub(crate) fn model_of(alloc: Global, tables: &[&str]) -> Result<String, NoMemory> {
    let mut text = String::new(alloc);
    text.push_str(r#"{"defaultSchema":"S","schemas":[{"name":"S","tables":["#)?;
    let mut is_first = true;
    for table in tables {
        text.push_str(if is_first { "" } else { "," })?;
        text.push_str(*table)?;
        is_first = false;
    }
    text.push_str("]}]}")?;
    Ok(text)
}

// A run of one statement over one model.
pub(crate) fn ask(alloc: Global, model: &str, sql: &str) -> Result<Told, NoMemory> {
    let file = File {
        name: "m",
        bytes: model.as_bytes(),
    };
    run(alloc, &["m", sql], &[file], SOUND)
}

// Whether a run wrote exactly this text and ended with this status.
pub(crate) fn has_written(told: &Told, status: u8, text: &str) -> bool {
    told.status == status && told.text.as_slice() == text.as_bytes()
}

// A run of one statement over a model and the files C and D.
pub(crate) fn ask_files(
    alloc: Global,
    model: &str,
    first: &[u8],
    second: &[u8],
    sql: &str,
) -> Result<Told, NoMemory> {
    let files = [
        File {
            name: "m",
            bytes: model.as_bytes(),
        },
        File {
            name: "C",
            bytes: first,
        },
        File {
            name: "D",
            bytes: second,
        },
    ];
    run(alloc, &["m", sql], files.as_slice(), SOUND)
}
