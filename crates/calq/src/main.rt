//! `calq MODEL SQL` answers one SELECT over the tables of a model, or explains it.
#![tactic(auto)]

use cal_outside::{FileStore, StdSink, Word};
use cal_top::{QueryRecord, run_query};
use cal_value::{List, NoMemory};
use rule_hep::Rule;
use rules_agg::{AggregateProjectMerge, AggregateRemove};
use rules_filter::{FilterAggregateTranspose, FilterIntoJoin, FilterMerge, FilterProjectTranspose};
use rules_join::{JoinAssociate, JoinCommute};
use rules_project::{ProjectMerge, ProjectRemove, PruneEmpty, ReduceExpressions};
use std::alloc::Global;
use std::env;
use std::io::ErrorKind;
use std::process::ExitCode;
use std::rt::Env;

/// The words after the program's name. There are none where one of them is no text, so that they have no reading.
fn words<R: Env + AllocGlobal>(rt: &R) -> Result<List<Word>, NoMemory> {
    let alloc: Global = rt.alloc();
    let mut words = List::new(alloc);
    match env::args(rt) {
        Ok(args) => {
            for arg in args.skip(1) {
                let word = Word::of(alloc, arg.as_str())?;
                words.push(word)?;
            }
        }
        Err(error) => {
            if error.kind() == ErrorKind::OutOfMemory {
                return Err(NoMemory);
            }
        }
    }
    Ok(words)
}

// The status. A record is large, and dropped by `drop`, which is proved once.
fn status_of(record: QueryRecord) -> u8 {
    let status = record.status;
    drop(record);
    status
}

fn run_by(rt: &HostRuntime, rules: &[Box<dyn Rule>]) -> Result<u8, NoMemory> {
    let words = words(rt)?;
    let mut store = FileStore::new(rt);
    let mut out = StdSink::new(rt);
    let record = run_query(rt.alloc(), words.as_slice(), &mut store, &mut out, rules);
    Ok(status_of(record))
}

// The status of the run, by the rules in this order.
fn run(rt: &HostRuntime) -> Result<u8, NoMemory> {
    let alloc = rt.alloc();
    let rules: [Box<dyn Rule>; 12] = [
        Box::new(alloc, ReduceExpressions::new())?,
        Box::new(alloc, PruneEmpty::new())?,
        Box::new(alloc, FilterMerge::new())?,
        Box::new(alloc, FilterProjectTranspose::new())?,
        Box::new(alloc, FilterIntoJoin::new())?,
        Box::new(alloc, FilterAggregateTranspose::new())?,
        Box::new(alloc, ProjectMerge::new())?,
        Box::new(alloc, ProjectRemove::new())?,
        Box::new(alloc, AggregateProjectMerge::new())?,
        Box::new(alloc, AggregateRemove::new())?,
        Box::new(alloc, JoinCommute::new())?,
        Box::new(alloc, JoinAssociate::new())?,
    ];
    run_by(rt, &rules)
}

fn main(rt: HostRuntime) -> ExitCode {
    match run(&rt) {
        Ok(status) => ExitCode::from(status),
        Err(_) => ExitCode::from(7),
    }
}
