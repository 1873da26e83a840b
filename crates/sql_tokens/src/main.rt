//! `sql_tokens FILE` reads a text and prints how many tokens it has.
#![tactic(auto)]

use cal_outside::{FileStore, ReadAllFault, Sink, StdSink, Store, read_all, write_all_text};
use cal_value::MODEL_LIMIT;
use sql_text::{TokenFault, tokens};
use std::alloc::Global;
use std::env;
use std::process::ExitCode;
use std::rt::Env;

#[cfg(test)]
mod tests;

/// Writes the count on a line.
fn write_count<K: Sink>(alloc: Global, count: usize, out: &mut K) -> u8 {
    let Ok(text) = format!(in alloc; "tokens {count}\n") else {
        return 7;
    };
    match write_all_text(out, text.as_bytes()) {
        Ok(()) => 0,
        Err(_) => 6,
    }
}

/// The run over these bytes, which are no text or have a place where no token begins at status 3.
fn count_tokens<K: Sink>(alloc: Global, bytes: &[u8], out: &mut K) -> u8 {
    let Ok(text) = str::from_utf8(bytes) else {
        return 3;
    };
    match tokens(alloc, text) {
        Ok(found) => write_count(alloc, found.len(), out),
        Err(TokenFault::NotToken { at: _ }) => 3,
        Err(TokenFault::NoMemory) => 7,
    }
}

/// The run over a file of this name, by its status: 0 the count is written, 2 there is no name, 3 the file is no text of tokens
/// or too big, 5 a read failed, 6 the output failed, 7 no memory. Nothing is written but the count.
fn run<S: Store, K: Sink>(alloc: Global, name: Option<&str>, store: &mut S, out: &mut K) -> u8 {
    let Some(name) = name else {
        return 2;
    };
    match read_all(alloc, store, name, MODEL_LIMIT) {
        Ok(bytes) => count_tokens(alloc, bytes.as_slice(), out),
        Err(ReadAllFault::TooBig { limit: _ }) => 3,
        Err(ReadAllFault::ReadFault) => 5,
        Err(ReadAllFault::NoMemory) => 7,
    }
}

/// The first word after the program's name.
fn file_name<R: Env + AllocGlobal>(rt: &R) -> Option<String> {
    match env::args(rt) {
        Ok(args) => args.skip(1).next(),
        Err(_) => None,
    }
}

fn main(rt: HostRuntime) -> ExitCode {
    let name = file_name(&rt);
    let name = match &name {
        Some(name) => Some(name.as_str()),
        None => None,
    };
    let mut store = FileStore::new(&rt);
    let mut out = StdSink::new(&rt);
    ExitCode::from(run(rt.alloc(), name, &mut store, &mut out))
}
