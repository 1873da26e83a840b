//! Files in memory, for tests.
ghost use Rattle.std.specs.Prelude.{◌≡◌, ◌↔◌, ◌+◌, ◌<◌, ◌≤◌, length, take, drop, Some};
ghost use Rattle.std.specs.Option.{option_copied};
ghost use Rattle.cal_outside.specs.Faults.{one_more};
ghost use Rattle.cal_outside.specs.Memory.{file_of};
ghost use Rattle.cal_outside.specs.Reads.{GotAgrees, after_read};
ghost use Rattle.cal_outside.specs.Store.{IsLater};

use crate::{Got, Store, Word};
use cal_value::List;

/// A file in memory.
#[derive(Debug, Drop)]
pub struct MemFile {
    pub name: Word,
    pub bytes: List<u8>,
}

/// Files in memory. `failing` has the numbers, from 1, of the reads that fail.
#[derive(Debug, Drop)]
pub struct MemStore {
    files: List<MemFile>,
    failing: List<u64>,
    reads: u64,
    faults: u64,
    broken: u64,
    ends: u64,
}

impl MemStore {
    ghost use Rattle.cal_outside.specs.Fakes.{reads_of, failing_reads};

    /// A store of these files; of two files of one name the first one counts. Takes no memory.
    pub fn new(files: List<MemFile>, failing: List<u64>) -> MemStore
        ensures state { ⟦<MemStore as Store>⟧.state result
            ≡ record { files = Some (file_of files); faults = 0; broken = 0; ends = 0 } }
        ensures reads { reads_of result ≡ 0 }
        ensures failing { failing_reads result ≡ failing }
    {
        MemStore {
            files,
            failing,
            reads: 0,
            faults: 0,
            broken: 0,
            ends: 0,
        }
    }
}

// The bytes of the file of this name.
fn find<'a>(files: &'a [MemFile], name: &str) -> Option<&'a [u8]>
    ensures { option_copied result ≡ file_of files.now name.now }
{
    for file in files {
        if file.name.as_str() == name {
            return Some(file.bytes.as_slice());
        }
    }
    None
}

// Copies bytes from a place on, as many as fit.
fn copy_part(bytes: &[u8], at: usize, into: &mut [u8]) -> usize
    requires place { at < length bytes.now }
    requires room { 0 < length into.old }
    ensures some { 1 ≤ result }
    ensures fits { result ≤ length into.old }
    ensures within { at + result ≤ length bytes.now }
    ensures copied { take result into.new ≡ take result (drop at bytes.now) }
{
    let rest = &bytes[at..];
    let count = rest.len().min(into.len());
    into[..count].copy_from_slice(&rest[..count]);
    count
}

impl Store for MemStore {
    ghost use Rattle.cal_outside.specs.Fakes.{reads_of, failing_reads, ReadFails};

    ghost state = { λ s. record {
      files = Some (file_of s.files);
      faults = s.faults;
      broken = s.broken;
      ends = s.ends;
    } };

    fn read(&mut self, name: &str, at: u64, into: &mut [u8]) -> Got
        requires { 0 < length into.old }
        ensures later { IsLater (⟦<MemStore as Store>⟧.state self.old)
            (⟦<MemStore as Store>⟧.state self.new) }
        ensures agrees { GotAgrees (⟦<MemStore as Store>⟧.state self.old) name.now at result into.new }
        ensures counts { ⟦<MemStore as Store>⟧.state self.new
            ≡ after_read (⟦<MemStore as Store>⟧.state self.old) name.now result }
        ensures fails { (result ≡ Got.Failed) ↔ ReadFails self.old name.now }
        ensures reads { reads_of self.new ≡ one_more (reads_of self.old) }
        ensures same { failing_reads self.new ≡ failing_reads self.old }
    {
        self.reads = self.reads.saturating_add(1);
        let fails = self.failing.as_slice().contains(&self.reads);
        let Some(bytes) = find(self.files.as_slice(), name) else {
            self.faults = self.faults.saturating_add(1);
            return Got::Failed;
        };
        if fails {
            self.faults = self.faults.saturating_add(1);
            self.broken = self.broken.saturating_add(1);
            return Got::Failed;
        }
        if at >= bytes.len() as u64 {
            self.ends = self.ends.saturating_add(1);
            return Got::End;
        }
        Got::Bytes(copy_part(bytes, at as usize, into) as u64)
    }

    fn fault_count(&self) -> u64 {
        self.faults
    }
}
