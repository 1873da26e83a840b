//! The real files and the real standard output. What they hold isn't told.
ghost use Rattle.std.specs.Prelude.{◌≡◌, ◌≤◌, None, length, IfOk};

use crate::{Got, Sink, Store, Took};
use std::fs::File;
use std::io;
use std::io::{Read, Seek, SeekFrom};
use std::rt::Files;

/// Files of the system, by their paths.
#[derive(Drop)]
pub struct FileStore<R> {
    rt: R,
    faults: u64,
    ends: u64,
}

impl<R: Files> FileStore<R> {
    /// The files of this runtime.
    pub fn new(rt: R) -> FileStore<R>
        ensures { ⟦<FileStore<R> as Store>⟧.state result
            ≡ record { files = None; faults = 0; broken = 0; ends = 0 } }
    {
        FileStore {
            rt,
            faults: 0,
            ends: 0,
        }
    }
}

fn read_part<R: Files>(rt: &R, name: &str, at: u64, into: &mut [u8]) -> io::Result<usize>
    ensures { IfOk result (λ count. count ≤ length into.new) }
{
    let mut file = File::open(rt, name)?;
    file.seek(SeekFrom::Start(at))?;
    file.read(into)
}

impl<R: Files> Store for FileStore<R> {
    ghost state = { λ s. record { files = None; faults = s.faults; broken = 0; ends = s.ends } };

    fn read(&mut self, name: &str, at: u64, into: &mut [u8]) -> Got {
        match read_part(&self.rt, name, at, into) {
            Ok(0) => {
                self.ends = self.ends.saturating_add(1);
                Got::End
            }
            Ok(count) => Got::Bytes(count as u64),
            Err(_) => {
                self.faults = self.faults.saturating_add(1);
                Got::Failed
            }
        }
    }

    fn fault_count(&self) -> u64 {
        self.faults
    }
}

/// The standard output.
#[derive(Drop)]
pub struct StdSink<P> {
    to: P,
    faults: u64,
}

impl<P: Print> StdSink<P> {
    /// The standard output of this runtime.
    pub fn new(to: P) -> StdSink<P>
        ensures { ⟦<StdSink<P> as Sink>⟧.state result ≡ record { bytes = None; faults = 0 } }
    {
        StdSink { to, faults: 0 }
    }

    /// How many writes failed.
    pub fn fault_count(&self) -> u64
        ensures { result ≡ (⟦<StdSink<P> as Sink>⟧.state self.now).faults }
    {
        self.faults
    }
}

impl<P: Print> Sink for StdSink<P> {
    ghost state = { λ k. record { bytes = None; faults = k.faults } };

    fn write(&mut self, piece: &[u8]) -> Took {
        match self.to.write_some(piece) {
            Ok(count) if count > 0 => Took::Bytes(count as u64),
            _ => {
                self.faults = self.faults.saturating_add(1);
                Took::Failed
            }
        }
    }
}
