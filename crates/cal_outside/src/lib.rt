//! The outside of a program: where its bytes come from, and where they go.
#![tactic(auto)]

mod memory_sink;
mod memory_store;
mod sink;
mod store;
mod system;
mod whole;
mod word;

pub use memory_sink::MemSink;
pub use memory_store::{MemFile, MemStore};
pub use sink::{Sink, SinkFault, Took, write_all_text};
pub use store::{Got, Store};
pub use system::{FileStore, StdSink};
pub use whole::{ReadAllFault, read_all};
pub use word::Word;

#[cfg(test)]
mod tests;
