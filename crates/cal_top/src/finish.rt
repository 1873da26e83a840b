//! The end of a run.
ghost use Rattle.std.specs.Prelude.{◌≡◌, ◌≤◌};
ghost use Rattle.cal_top.specs.Run.{Ends};
ghost use Rattle.cal_top.specs.Texts.{status_of, status_of_fault, status_of_reply};

use crate::record::{QueryRecord, TopFault};
use cal_outside::{Sink, write_all_text};
use cal_schema::Db;
use cal_start::FileRead;
use cal_value::List;
use session_lane::Reply;

fn fault_status(fault: &TopFault) -> u8
    ensures { result ≡ status_of_fault fault.now }
{
    match fault {
        TopFault::BadWords => 2,
        TopFault::NotJson => 3,
        TopFault::BadModel { path: _, cause: _ } => 3,
        TopFault::Table { table: _, fault: _ } => 3,
        TopFault::TooBig { limit: _ } => 3,
        TopFault::ReadFault => 5,
        TopFault::SinkFault { of: _ } => 6,
        TopFault::NoMemory => 7,
    }
}

fn reply_status(reply: &Option<Reply>) -> u8
    ensures { result ≡ status_of_reply reply.now }
{
    match reply {
        Some(Reply::Refused { at: _, cause: _ }) => 1,
        _ => 0,
    }
}

fn status(fault: &Option<TopFault>, reply: &Option<Reply>) -> u8
    ensures { result ≡ status_of fault.now reply.now }
{
    match fault {
        Some(fault) => fault_status(fault),
        None => reply_status(reply),
    }
}

/// Writes the text, and makes the record.
pub fn finish<K: Sink>(
    out: &mut K,
    fault: Option<TopFault>,
    files: List<FileRead>,
    db: Option<Db>,
    reply: Option<Reply>,
    text: &[u8],
) -> QueryRecord
    ensures later { (K.state out.old).faults ≤ (K.state out.new).faults }
    ensures files { result.files ≡ files }
    ensures db { result.db ≡ db }
    ensures reply { result.reply ≡ reply }
    ensures ends { Ends fault text.now (K.state out.old) (K.state out.new) result }
{
    let of = status(&fault, &reply);
    match write_all_text(out, text) {
        Ok(()) => QueryRecord {
            status: of,
            fault,
            files,
            db,
            reply,
        },
        Err(_) => QueryRecord {
            status: 6,
            fault: Some(TopFault::SinkFault { of }),
            files,
            db,
            reply,
        },
    }
}
