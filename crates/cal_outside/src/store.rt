ghost use Rattle.std.specs.Prelude.{◌≡◌, ◌<◌, length};
ghost use Rattle.cal_outside.specs.Store.{StoreState, IsLater};
ghost use Rattle.cal_outside.specs.Reads.{GotAgrees, after_read};

/// What a read answers: how many bytes, that the file ends there, or that it failed.
#[derive(Clone, Copy, Debug, PartialEq, Eq)]
pub enum Got {
    Bytes(u64),
    End,
    Failed,
}

/// Where files are read.
pub trait Store {
    /// The files, where they are told, and the counts of failed reads and of ends of files.
    ghost state: { Self → StoreState };

    /// Reads bytes of a file from a place on, at least one, into the start of `into`. `End` comes at or past the file's end.
    /// A file that is missing is a failure.
    fn read(&mut self, name: &str, at: u64, into: &mut [u8]) -> Got
        requires { 0 < length into.old }
        ensures later { IsLater (state self.old) (state self.new) }
        ensures agrees { GotAgrees (state self.old) name.now at result into.new }
        ensures counts { state self.new ≡ after_read (state self.old) name.now result };

    /// How often it has failed so far; the count stands still at 2^64-1. Takes no memory.
    fn fault_count(&self) -> u64
        ensures { result ≡ (state self.now).faults };
}

impl<S: Store> Store for &mut S {
    ghost state = { λ s. S.state s.now };

    fn read(&mut self, name: &str, at: u64, into: &mut [u8]) -> Got {
        Store::read(&mut **self, name, at, into)
    }

    fn fault_count(&self) -> u64 {
        Store::fault_count(&**self)
    }
}
