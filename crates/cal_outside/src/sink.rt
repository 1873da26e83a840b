ghost use Rattle.std.specs.Prelude.{◌≡◌, ◌<◌, ◌≤◌, length, OnOk, OnErr};
ghost use Rattle.cal_outside.specs.Sink.{SinkState, with_text, IsCut};
ghost use Rattle.cal_outside.specs.Writes.{TookPart, after_write};

use thiserror::Error;

/// What a write answers: how many bytes it took, or that it failed.
#[derive(Clone, Copy, Debug, PartialEq, Eq)]
pub enum Took {
    Bytes(u64),
    Failed,
}

/// The sink failed.
#[derive(Clone, Copy, Debug, PartialEq, Eq, Error)]
#[error("the output failed")]
pub struct SinkFault;

/// Where text is written.
pub trait Sink {
    /// The bytes so far, where they are told, and the count of failed writes.
    ghost state: { Self → SinkState };

    /// Takes bytes from the start of `piece`, at least one, or fails and takes none.
    fn write(&mut self, piece: &[u8]) -> Took
        requires { 0 < length piece.now }
        ensures later { (state self.old).faults ≤ (state self.new).faults }
        ensures part { TookPart piece.now result }
        ensures counts { state self.new ≡ after_write (state self.old) piece.now result };
}

impl<K: Sink> Sink for &mut K {
    ghost state = { λ k. K.state k.now };

    fn write(&mut self, piece: &[u8]) -> Took {
        Sink::write(&mut **self, piece)
    }
}

/// Writes the whole text. At a fault, what was written is a part of it from its start. Takes no memory.
#[tactic(auto, using(crate::proofs::Added::adds_part))]
pub fn write_all_text<K: Sink>(out: &mut K, text: &[u8]) -> Result<(), SinkFault>
    ensures later { (K.state out.old).faults ≤ (K.state out.new).faults }
    ensures ok { OnOk result (K.state out.new ≡ with_text (K.state out.old) text.now) }
    ensures fault { OnErr result (IsCut (K.state out.old) (K.state out.new) text.now) }
{
    let mut done = 0;
    while done < text.len() {
        match out.write(&text[done..]) {
            Took::Bytes(count) => done += count as usize,
            Took::Failed => return Err(SinkFault),
        }
    }
    Ok(())
}
