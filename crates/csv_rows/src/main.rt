//! `csv_rows FILE` reads a table's file of comma-separated values and prints how many rows it has.
#![tactic(auto)]

use cal_outside::{FileStore, ReadAllFault, Sink, StdSink, Store, read_all, write_all_text};
use cal_schema::{AdapterKind, TableDef};
use cal_value::{FILE_LIMIT, List, ROW_LIMIT, SqlText};
use csv_tables::{CsvFault, decode, header};
use std::alloc::Global;
use std::env;
use std::process::ExitCode;
use std::rt::Env;

#[cfg(test)]
mod tests;

fn count_rows(alloc: Global, bytes: &[u8]) -> Result<usize, CsvFault> {
    let columns = header(alloc, bytes)?;
    let table = TableDef {
        schema: SqlText::from_characters(Vec::new(alloc)),
        name: SqlText::from_characters(Vec::new(alloc)),
        columns,
        adapter: AdapterKind::Csv,
        file: SqlText::from_characters(Vec::new(alloc)),
        max_rows: ROW_LIMIT,
        primary_key: List::new(alloc),
    };
    let rows = decode(alloc, bytes, &table)?;
    Ok(rows.len())
}

/// Writes the count on a line.
fn write_count<K: Sink>(alloc: Global, count: usize, out: &mut K) -> u8 {
    let Ok(text) = format!(in alloc; "rows {count}\n") else {
        return 7;
    };
    match write_all_text(out, text.as_bytes()) {
        Ok(()) => 0,
        Err(_) => 6,
    }
}

/// The run over a file of this name, by its status: 0 the count is written, 2 there is no name, 3 the file has a fault or is
/// too big, 5 a read failed, 6 the output failed, 7 no memory. Nothing is written but the count.
fn run<S: Store, K: Sink>(alloc: Global, name: Option<&str>, store: &mut S, out: &mut K) -> u8 {
    let Some(name) = name else {
        return 2;
    };
    let bytes = match read_all(alloc, store, name, FILE_LIMIT) {
        Ok(bytes) => bytes,
        Err(ReadAllFault::TooBig { limit: _ }) => return 3,
        Err(ReadAllFault::ReadFault) => return 5,
        Err(ReadAllFault::NoMemory) => return 7,
    };
    match count_rows(alloc, bytes.as_slice()) {
        Ok(count) => write_count(alloc, count, out),
        Err(CsvFault::NoMemory) => 7,
        Err(_) => 3,
    }
}

/// The first word after the program's name.
fn file_name<R: Env + AllocGlobal>(rt: &R) -> Option<String> {
    match env::args(rt) {
        Ok(args) => args.skip(1).next(),
        Err(_) => None,
    }
}

fn main(rt: HostRuntime) -> ExitCode {
    let name = file_name(&rt);
    let name = match &name {
        Some(name) => Some(name.as_str()),
        None => None,
    };
    let mut store = FileStore::new(&rt);
    let mut out = StdSink::new(&rt);
    ExitCode::from(run(rt.alloc(), name, &mut store, &mut out))
}
