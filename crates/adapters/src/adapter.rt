ghost use Rattle.std.specs.Prelude.{◌≡◌, ◌≤◌, ◌+◌, length, IfOk, OnOk, IsSome, ⊤};
ghost use Rattle.cal_snapshot.specs.Parts.{rows_of, rows_in};
ghost use Rattle.cal_snapshot.specs.declared.part.Part.TheVariants.{Table};

use crate::request::ScanRequest;
use crate::walk::walk;
use cal_snapshot::Snapshot;
use cal_value::{List, NoMemory, Row, Steps};
use std::alloc::Global;
use std::sync::ledger::Ledger;

/// How the rows of a table are reached. `takes` says which requests it answers.
pub trait Adapter {
    ghost use Rattle.adapters.specs.declared.request.ScanRequest.{ScanRequest};
    ghost use Rattle.adapters.specs.Scan.{scanned};

    ghost takes: { Self → ScanRequest → Type 0 };

    /// The request's columns of the table's rows that pass all its tests, in order. It makes one step for each row of
    /// the table; where there is no memory, at most so many.
    fn scan<L: Ledger>(
        &self,
        alloc: Global,
        snapshot: &Snapshot,
        table: u32,
        request: &ScanRequest,
        steps: &mut Steps<L>,
    ) -> Result<List<Row>, NoMemory>
        requires there { IsSome (rows_of snapshot.now (Table table)) }
        requires takes { takes self.now request.now }
        ensures rows { IfOk result (λ rows.
            rows ≡ scanned request.now (rows_in snapshot.now table)) }
        ensures all { OnOk result (steps.new ≡ steps.old + length (rows_in snapshot.now table)) }
        ensures some { steps.old ≤ steps.new }
        ensures most { steps.new ≤ steps.old + length (rows_in snapshot.now table) };
}

/// Reads tables of files. It takes no tests.
#[derive(Clone, Copy, Debug, PartialEq, Eq)]
pub struct CsvAdapter;

/// Reads tables in memory.
#[derive(Clone, Copy, Debug, PartialEq, Eq)]
pub struct MemAdapter;

/// The adapter of either kind of table.
#[derive(Clone, Copy, Debug, PartialEq, Eq)]
pub enum AnyAdapter {
    Csv(CsvAdapter),
    Mem(MemAdapter),
}

impl Adapter for CsvAdapter {
    ghost use Rattle.adapters.specs.Scan.{HasNoTests};

    ghost takes = { λ _ request. HasNoTests request };

    fn scan<L: Ledger>(
        &self,
        alloc: Global,
        snapshot: &Snapshot,
        table: u32,
        request: &ScanRequest,
        steps: &mut Steps<L>,
    ) -> Result<List<Row>, NoMemory> {
        walk(alloc, snapshot, table, request, steps)
    }
}

impl Adapter for MemAdapter {
    ghost takes = { λ _ _. ⊤ };

    fn scan<L: Ledger>(
        &self,
        alloc: Global,
        snapshot: &Snapshot,
        table: u32,
        request: &ScanRequest,
        steps: &mut Steps<L>,
    ) -> Result<List<Row>, NoMemory> {
        walk(alloc, snapshot, table, request, steps)
    }
}

impl Adapter for AnyAdapter {
    ghost use Rattle.adapters.specs.Scan.{TakesAny};

    ghost takes = { TakesAny };

    fn scan<L: Ledger>(
        &self,
        alloc: Global,
        snapshot: &Snapshot,
        table: u32,
        request: &ScanRequest,
        steps: &mut Steps<L>,
    ) -> Result<List<Row>, NoMemory> {
        match self {
            AnyAdapter::Csv(csv) => csv.scan(alloc, snapshot, table, request, steps),
            AnyAdapter::Mem(mem) => mem.scan(alloc, snapshot, table, request, steps),
        }
    }
}
