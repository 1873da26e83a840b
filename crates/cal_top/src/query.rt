//! The top call.
ghost use Rattle.std.specs.Prelude.{◌≡◌, ◌⊎◌, ◌≤◌, [], Option, map};
ghost use Rattle.cal_outside.specs.Faults.{Rose};
ghost use Rattle.cal_outside.specs.Store.{IsLater};
ghost use Rattle.cal_start.specs.Ends.{KeepsEach};
ghost use Rattle.cal_top.specs.declared.record.TopFault.{TopFault as Fault};
ghost use Rattle.cal_top.specs.Run.{HasCause, Ends, IsValid};
ghost use Rattle.cal_top.specs.Texts.{text_of, schema_of};

use crate::finish::finish;
use crate::look::{Outcome, look};
use crate::record::{QueryRecord, TopFault};
use cal_outside::{Sink, Store, Word};
use rule_hep::Rule;
use std::alloc::Global;

/// Answers one statement over the tables of the model that the words name, and writes the text of the answer: the rows of a SELECT, or the
/// plan or the memo of one that is explained. It never waits and always returns.
///
/// A SELECT's tree is rewritten by the rules, which come in the order of the list, and a memo is searched by them; its cheapest plan runs.
///
/// The words are `MODEL SQL [--budget N]`. Statuses: 0 header and rows, or a plan or a memo, 1 the statement is refused, 2 the words have no
/// reading, 3 a fault of the model or of a table's file, 5 a read failed, 6 the sink failed, 7 no memory.
pub fn run_query<S: Store, K: Sink>(
    alloc: Global,
    words: &[Word],
    store: &mut S,
    out: &mut K,
    rules: &[Box<dyn Rule>],
) -> QueryRecord
    ensures store_later { IsLater (S.state store.old) (S.state store.new) }
    ensures sink_later { (K.state out.old).faults ≤ (K.state out.new).faults }
    ensures each { KeepsEach (S.state store.old) (S.state store.new) [] result.files }

    // The fault that the run has before its text is written, its cause, and what was written.
    ensures run { (fault : Option Fault)
        × HasCause (map (λ b. meaning b) rules.now)
        (S.state store.old) (S.state store.new) words.now fault result.files result.db result.reply
        × Ends fault (text_of (schema_of words.now result.files) fault result.reply)
        (K.state out.old) (K.state out.new) result }

    // With valid input and no fault counted, it ends with an answer or what explains it, a refusal, or for want of memory.
    ensures complete { IsValid (S.state store.old) words.now
        → (Rose (S.state store.old).faults (S.state store.new).faults → ⊥)
        → (Rose (K.state out.old).faults (K.state out.new).faults → ⊥)
        → (result.status ≡ 0) ⊎ (result.status ≡ 1) ⊎ (result.status ≡ 7) }
{
    let Outcome {
        fault,
        files,
        db,
        reply,
        text,
    } = look(alloc, words, store, rules);
    match text {
        Some(text) => finish(out, fault, files, db, reply, text.as_slice()),
        None => finish(
            out,
            Some(TopFault::NoMemory),
            files,
            db,
            reply,
            b"no memory\n",
        ),
    }
}
