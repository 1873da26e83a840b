//! `plan_counts MODEL SQL [--budget N]` plans a statement as `calq` does and prints how many members its memo has, how many firings
//! there were, and whether nothing was left to fire.
#![tactic(auto)]

use cal_outside::{FileStore, MemSink, Sink, StdSink, Store, Word, write_all_text};
use cal_top::run_query;
use cal_value::{List, NoMemory};
use rule_hep::Rule;
use rules_agg::{AggregateProjectMerge, AggregateRemove};
use rules_filter::{FilterAggregateTranspose, FilterIntoJoin, FilterMerge, FilterProjectTranspose};
use rules_join::{JoinAssociate, JoinCommute};
use rules_project::{ProjectMerge, ProjectRemove, PruneEmpty, ReduceExpressions};
use select_planning::Planning;
use session_lane::Reply;
use std::alloc::Global;
use std::env;
use std::process::ExitCode;
use std::rt::Env;

/// The words after the program's name; none where one of them is no text.
fn words<R: Env + AllocGlobal>(rt: &R) -> Result<List<Word>, NoMemory> {
    let alloc: Global = rt.alloc();
    let mut words = List::new(alloc);
    if let Ok(args) = env::args(rt) {
        for arg in args.skip(1) {
            let word = Word::of(alloc, arg.as_str())?;
            words.push(word)?;
        }
    }
    Ok(words)
}

// How the statement is planned, where it is answered or explained.
fn planning_in(reply: Option<Reply>) -> Option<Planning> {
    match reply {
        Some(Reply::Rows { answer, .. }) => Some(answer.planning),
        Some(Reply::Plan { planning, .. }) => Some(planning),
        Some(Reply::Memo { planning, .. }) => Some(planning),
        Some(Reply::Refused { .. }) => None,
        None => None,
    }
}

/// Writes the counts on a line.
fn write_counts<K: Sink>(alloc: Global, planning: &Planning, out: &mut K) -> u8 {
    let members = planning.memo.members().len();
    let firings = planning.firings.len();
    let complete = planning.complete;
    let Ok(text) = format!(in alloc; "members {members} firings {firings} complete {complete}\n")
    else {
        return 7;
    };
    match write_all_text(out, text.as_bytes()) {
        Ok(()) => 0,
        Err(_) => 6,
    }
}

fn reply<S: Store>(
    alloc: Global,
    words: &List<Word>,
    store: &mut S,
    rows: &mut MemSink,
    rules: &[Box<dyn Rule>],
) -> Option<Reply> {
    run_query(alloc, words.as_slice(), store, rows, rules).reply
}

// The planning is large, and dropped by `drop`, which is proved once.
fn told(rt: &HostRuntime, planning: Planning) -> u8 {
    let mut out = StdSink::new(rt);
    let status = write_counts(rt.alloc(), &planning, &mut out);
    drop(planning);
    status
}

fn run_by(rt: &HostRuntime, rules: &[Box<dyn Rule>]) -> Result<u8, NoMemory> {
    let alloc = rt.alloc();
    let words = words(rt)?;
    let mut store = FileStore::new(rt);
    let mut rows = MemSink::new(alloc, 1000, List::new(alloc));
    let reply = reply(alloc, &words, &mut store, &mut rows, rules);
    match planning_in(reply) {
        Some(planning) => Ok(told(rt, planning)),
        None => Ok(1),
    }
}

/// The run, by its status: 0 the counts are written, 1 the statement isn't answered, 6 the output failed, 7 no memory.
fn run(rt: &HostRuntime) -> Result<u8, NoMemory> {
    let alloc = rt.alloc();
    let rules: [Box<dyn Rule>; 12] = [
        Box::new(alloc, ReduceExpressions::new())?,
        Box::new(alloc, PruneEmpty::new())?,
        Box::new(alloc, FilterMerge::new())?,
        Box::new(alloc, FilterProjectTranspose::new())?,
        Box::new(alloc, FilterIntoJoin::new())?,
        Box::new(alloc, FilterAggregateTranspose::new())?,
        Box::new(alloc, ProjectMerge::new())?,
        Box::new(alloc, ProjectRemove::new())?,
        Box::new(alloc, AggregateProjectMerge::new())?,
        Box::new(alloc, AggregateRemove::new())?,
        Box::new(alloc, JoinCommute::new())?,
        Box::new(alloc, JoinAssociate::new())?,
    ];
    run_by(rt, &rules)
}

fn main(rt: HostRuntime) -> ExitCode {
    match run(&rt) {
        Ok(status) => ExitCode::from(status),
        Err(_) => ExitCode::from(7),
    }
}
