//! All of a run but the writing.
ghost use Rattle.std.specs.Prelude.{◌≡◌, [], IfOk, IfSome, Some, None, map};
ghost use Rattle.std.specs.Arc.{arc_value};
ghost use Rattle.cal_outside.specs.Store.{IsLater};
ghost use Rattle.cal_schema.specs.Fits.{Fits};
ghost use Rattle.cal_snapshot.specs.Parts.{start_of};
ghost use Rattle.cal_schema.specs.Valid.{IsValidSchema};
ghost use Rattle.cal_start.specs.Ends.{KeepsEach};
ghost use Rattle.session_lane.specs.Replies.{IsReplyTo};
ghost use Rattle.cal_top.specs.Run.{HasCause};
ghost use Rattle.cal_top.specs.Texts.{text_of, fault_text as fault_text_of, schema_of, IsSpelled};

use crate::record::{TopFault, of_start};
use crate::tables::{all_unshared, shared, shared_again};
use crate::texts::{fault_text, reply_text};
use cal_outside::{Store, Word};
use cal_schema::{Db, Schema};
use cal_snapshot::Snapshot;
use cal_start::{FileRead, StartRecord, Started, start};
use cal_value::{List, NoMemory, Row};
use command_line::read_words;
use rule_hep::Rule;
use session_lane::{Reply, reply_to};
use std::alloc::Global;
use std::sync::Arc;

/// A run before its text is written. The text is missing where no memory was left for it.
#[derive(Debug, Drop)]
pub struct Outcome {
    pub fault: Option<TopFault>,
    pub files: List<FileRead>,
    pub db: Option<Db>,
    pub reply: Option<Reply>,
    pub text: Option<Vec<u8>>,
}

// The tables, and the reply over them.
#[derive(Debug, Drop)]
struct Replied {
    db: Db,
    reply: Reply,
}

fn stopped(alloc: Global, fault: TopFault, files: List<FileRead>) -> Outcome
    ensures fault { result.fault ≡ Some fault }
    ensures files { result.files ≡ files }
    ensures db { result.db ≡ None }
    ensures reply { result.reply ≡ None }
    ensures text { IfSome result.text (λ text. text.items ≡ fault_text_of fault) }
{
    let text = fault_text(alloc, &fault).ok();
    Outcome {
        fault: Some(fault),
        files,
        db: None,
        reply: None,
        text,
    }
}

fn with_reply(alloc: Global, files: List<FileRead>, made: Replied, schema: &Schema) -> Outcome
    requires { IsSpelled made.reply }
    ensures fault { result.fault ≡ None }
    ensures files { result.files ≡ files }
    ensures db { result.db ≡ Some made.db }
    ensures reply { result.reply ≡ Some made.reply }
    ensures text { IfSome result.text (λ text. text.items
        ≡ text_of schema.now result.fault result.reply) }
{
    let Replied { db, reply } = made;
    let text = reply_text(alloc, &reply, schema).ok();
    Outcome {
        fault: None,
        files,
        db: Some(db),
        reply: Some(reply),
        text,
    }
}

// The reply to the statement over a snapshot of the tables.
fn reply_over_parts(
    alloc: Global,
    sql: &Word,
    schema: &Schema,
    parts: List<Arc<List<Row>>>,
    rules: &[Box<dyn Rule>],
    budget: u32,
) -> Result<Reply, NoMemory>
    requires valid { IsValidSchema schema.now }
    requires fits { Fits (record { tables = map arc_value parts }) schema.now }
    ensures { IfOk result (IsReplyTo (map (λ b. meaning b) rules.now) budget schema.now
        (start_of (map arc_value parts)) sql.now) }
{
    let snapshot = Snapshot::start(alloc, parts)?;
    reply_to(alloc, sql.as_str(), schema, &snapshot, rules, budget)
}

// The reply, with the tables over which it was made.
fn with_tables(
    alloc: Global,
    parts: List<Arc<List<Row>>>,
    reply: Reply,
) -> Result<Replied, NoMemory>
    ensures db { IfOk result (λ made. made.db ≡ record { tables = map arc_value parts }) }
    ensures reply { IfOk result (λ made. made.reply ≡ reply) }
{
    match all_unshared(alloc, parts) {
        Ok(tables) => Ok(Replied {
            db: Db { tables },
            reply,
        }),
        Err(no_memory) => {
            drop(reply);
            Err(no_memory)
        }
    }
}

// The reply to the statement over the tables, which are answered as they were.
fn reply_over(
    alloc: Global,
    sql: &Word,
    schema: &Schema,
    db: Db,
    rules: &[Box<dyn Rule>],
    budget: u32,
) -> Result<Replied, NoMemory>
    requires valid { IsValidSchema schema.now }
    requires fits { Fits db schema.now }
    ensures db { IfOk result (λ made. made.db ≡ db) }
    ensures reply { IfOk result (λ made. IsReplyTo (map (λ b. meaning b) rules.now) budget
        schema.now (start_of db.tables) sql.now made.reply) }
    ensures spelled { IfOk result (λ made. IsSpelled made.reply) }
{
    let parts = shared(alloc, db.tables)?;
    let again = shared_again(alloc, parts.as_slice())?;
    let reply = reply_over_parts(alloc, sql, schema, again, rules, budget)?;
    with_tables(alloc, parts, reply)
}

/// Reads the words, the model and the files of its tables, and answers the statement over them.
pub fn look<S: Store>(
    alloc: Global,
    words: &[Word],
    store: &mut S,
    rules: &[Box<dyn Rule>],
) -> Outcome
    ensures later { IsLater (S.state store.old) (S.state store.new) }
    ensures each { KeepsEach (S.state store.old) (S.state store.new) [] result.files }
    ensures cause { HasCause (map (λ b. meaning b) rules.now)
        (S.state store.old) (S.state store.new) words.now
        result.fault result.files result.db result.reply }
    ensures text { IfSome result.text (λ text. text.items
        ≡ text_of (schema_of words.now result.files) result.fault result.reply) }
{
    let asked = match read_words(alloc, words) {
        Ok(Some(asked)) => asked,
        Ok(None) => return stopped(alloc, TopFault::BadWords, List::new(alloc)),
        Err(_) => return stopped(alloc, TopFault::NoMemory, List::new(alloc)),
    };
    let StartRecord { files, outcome } = start(alloc, &asked.model, store);
    match outcome {
        Ok(Started { schema, db }) => match reply_over(
            alloc,
            &asked.sql,
            &schema,
            db,
            rules,
            asked.budget,
        ) {
            Ok(made) => with_reply(alloc, files, made, &schema),
            Err(_) => stopped(alloc, TopFault::NoMemory, files),
        },
        Err(fault) => stopped(alloc, of_start(fault), files),
    }
}
