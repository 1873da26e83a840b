//! A sink in memory, for tests.
ghost use Rattle.std.specs.Prelude.{◌≡◌, ◌⊎◌, ◌<◌, ◌≤◌, [], Some, Contains, length, min};
ghost use Rattle.cal_outside.specs.Faults.{one_more};
ghost use Rattle.cal_outside.specs.Writes.{TookPart, after_write};

use crate::{Sink, Took};
use cal_value::List;
use std::alloc::Global;

/// It takes at most `most` bytes at a write. `failing` has the numbers, from 1, of the writes that fail.
/// A write for which no memory is left fails too.
#[derive(Debug, Drop)]
pub struct MemSink {
    most: u64,
    failing: List<u64>,
    writes: u64,
    bytes: List<u8>,
    faults: u64,
    ghost takes: { 1 ≤ most },
}

impl MemSink {
    ghost use Rattle.cal_outside.specs.Fakes.{writes_of, failing_writes, most_of};

    /// An empty sink. Takes no memory.
    pub fn new(alloc: Global, most: u64, failing: List<u64>) -> MemSink
        requires { 1 ≤ most }
        ensures state { ⟦<MemSink as Sink>⟧.state result ≡ record { bytes = Some []; faults = 0 } }
        ensures writes { writes_of result ≡ 0 }
        ensures failing { failing_writes result ≡ failing }
        ensures most { most_of result ≡ most }
    {
        MemSink {
            most,
            failing,
            writes: 0,
            bytes: List::new(alloc),
            faults: 0,
        }
    }

    /// The bytes so far.
    pub fn bytes(&self) -> &List<u8>
        ensures { Some result.now ≡ (⟦<MemSink as Sink>⟧.state self.now).bytes }
    {
        &self.bytes
    }

    /// How many writes failed.
    pub fn fault_count(&self) -> u64
        ensures { result ≡ (⟦<MemSink as Sink>⟧.state self.now).faults }
    {
        self.faults
    }
}

impl Sink for MemSink {
    ghost use Rattle.cal_outside.specs.Fakes.{writes_of, failing_writes, most_of};

    ghost state = { λ k. record { bytes = Some k.bytes; faults = k.faults } };

    fn write(&mut self, piece: &[u8]) -> Took
        requires { 0 < length piece.now }
        ensures later { (⟦<MemSink as Sink>⟧.state self.old).faults
            ≤ (⟦<MemSink as Sink>⟧.state self.new).faults }
        ensures part { TookPart piece.now result }
        ensures counts { ⟦<MemSink as Sink>⟧.state self.new
            ≡ after_write (⟦<MemSink as Sink>⟧.state self.old) piece.now result }
        ensures failing { Contains (failing_writes self.old) (one_more (writes_of self.old))
            → result ≡ Took.Failed }
        ensures takes { (result ≡ Took.Failed)
            ⊎ (result ≡ Took.Bytes (min (most_of self.old) (length piece.now))) }
        ensures writes { writes_of self.new ≡ one_more (writes_of self.old) }
        ensures same { (failing_writes self.new ≡ failing_writes self.old)
            × (most_of self.new ≡ most_of self.old) }
    {
        self.writes = self.writes.saturating_add(1);
        let count = self.most.min(piece.len() as u64);
        if self.failing.as_slice().contains(&self.writes)
            || self.bytes.extend(&piece[..count as usize]).is_err()
        {
            self.faults = self.faults.saturating_add(1);
            return Took::Failed;
        }
        Took::Bytes(count)
    }
}
