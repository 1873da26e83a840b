//! A machine with fields of its own, an invariant over them, and a method that adds an event.
ghost use Rattle.std.specs.Prelude.{◌≡◌, ◌∷◌, ◌++◌, [], MatchResult};

use crate::Machine;
use cal_value::NoMemory;
use std::alloc::Global;
use std::marker::Model;

/// Who made it, and the how-manieth of its maker it is.
#[derive(Clone, Copy, Debug, PartialEq, Eq)]
pub(super) struct Entry {
    pub(super) actor: u32,
    pub(super) number: u64,
}

/// A list of numbered entries, which begins from a name. It keeps the sum of the numbers, modulo 2^64.
#[derive(Drop)]
pub(super) struct Log {
    name: u32,
    entries: Vec<Entry>,
    sum: u64,
}

impl Model for Log {
    ghost use Rattle.std.specs.Prelude.{◌≡◌, ◌%◌, ◌^◌, ℕ, List};
    ghost use Rattle.std.specs.List.{sum_by};
    ghost use Rattle.turn_lock.specs.declared.tests.log.Entry.{Entry};

    ghost Value = { ℕ × List Entry };

    ghost view = { λ log. (log.name, log.entries.items) };

    ghost invariant = { λ log.
        log.sum ≡ sum_by (λ (entry : Entry). entry.number) log.entries.items % 2 ^ 64 };
}

impl Machine for Log {
    type Event = Entry;

    type Base = u32;

    ghost history = { λ log. log.1 };

    ghost actor = { λ entry. entry.actor };

    ghost base = { λ log. log.0 };

    fn count(&self) -> u64 {
        self.entries.len() as u64
    }
}

impl Log {
    pub(super) fn new(alloc: Global, name: u32) -> Log
        ensures { result ≡ (name, []) }
    {
        Log {
            name,
            entries: Vec::new(alloc),
            sum: 0,
        }
    }

    pub(super) fn add(&mut self, entry: Entry) -> Result<(), NoMemory>
        ensures { MatchResult result
            (λ _. self.new ≡ (self.old.0, self.old.1 ++ entry ∷ []))
            (λ _. self.new ≡ self.old) }
    {
        self.entries.push(entry)?;
        self.sum = self.sum.wrapping_add(entry.number);
        Ok(())
    }

    pub(super) fn name(&self) -> u32
        ensures { result ≡ self.now.0 }
    {
        self.name
    }

    pub(super) fn entries(&self) -> &[Entry]
        ensures { result.now ≡ self.now.1 }
    {
        &self.entries
    }

    pub(super) fn sum(&self) -> u64 {
        self.sum
    }
}
