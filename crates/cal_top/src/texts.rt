//! The texts of faults and replies.
ghost use Rattle.std.specs.Prelude.{◌≡◌, ◌++◌, IfOk, OnOk, IsSome, string_bytes};
ghost use Rattle.plan_nodes.specs.Seen.{plan_tree};
ghost use Rattle.cal_top.specs.Texts as spec;

use crate::record::TopFault;
use cal_schema::Schema;
use cal_start::{TableFault, TableName};
use cal_value::NoMemory;
use explain_text::{Searched, push_memo, push_plan};
use itoa::Buffer;
use model_json::ModelCause;
use plan_nodes::Plan;
use script_text::{answer_text, push_csv_fault, push_refusal, push_table_name};
use select_planning::Planning;
use session_lane::{Cause, Reply};
use std::alloc::Global;

fn model_cause_name(cause: ModelCause) -> &'static str
    ensures { result.now ≡ spec.model_cause_text cause }
{
    match cause {
        ModelCause::Missing => "Missing",
        ModelCause::WrongKind => "WrongKind",
        ModelCause::BadValue => "BadValue",
        ModelCause::Repeated => "Repeated",
        ModelCause::TooMany => "TooMany",
        ModelCause::NoSuchName => "NoSuchName",
        ModelCause::Compressed => "Compressed",
        ModelCause::TextTooLong => "TextTooLong",
        ModelCause::NullValue => "NullValue",
        ModelCause::KeyTaken => "KeyTaken",
        ModelCause::NotYet => "NotYet",
    }
}

fn bad_model_text(alloc: Global, path: &[u8], cause: ModelCause) -> Result<Vec<u8>, NoMemory>
    ensures { IfOk result (λ text. text.items ≡ spec.bad_model_text path.now cause) }
{
    let mut text = Vec::from_slice(alloc, b"model: ")?;
    text.extend_from_slice(path)?;
    text.extend_from_slice(b": ")?;
    text.extend_from_slice(model_cause_name(cause).as_bytes())?;
    text.extend_from_slice(b"\n")?;
    Ok(text)
}

fn push_table_fault(out: &mut String, fault: &TableFault) -> Result<(), NoMemory>
    ensures { OnOk result (string_bytes out.new ≡ string_bytes out.old ++ spec.table_fault_text fault.now) }
{
    match fault {
        TableFault::Csv(fault) => push_csv_fault(out, fault),
        TableFault::TooBig { limit } => push_too_big(out, *limit),
    }
}

fn push_too_big(out: &mut String, limit: u64) -> Result<(), NoMemory>
    ensures { OnOk result (string_bytes out.new ≡ string_bytes out.old ++ spec.too_big_cause limit) }
{
    let mut buffer = Buffer::new();
    out.push_str("TooBig limit ")?;
    out.push_str(buffer.format(limit))?;
    Ok(())
}

fn bad_table_text(alloc: Global, table: &TableName, fault: &TableFault) -> Result<Vec<u8>, NoMemory>
    ensures { IfOk result (λ text. text.items ≡ spec.bad_table_text table.now fault.now) }
{
    let mut out = String::new(alloc);
    out.push_str("table ")?;
    push_table_name(&mut out, &table.schema, &table.name)?;
    out.push_str(": ")?;
    push_table_fault(&mut out, fault)?;
    out.push_str("\n")?;
    Ok(out.into_bytes())
}

fn too_big_text(alloc: Global, limit: u64) -> Result<Vec<u8>, NoMemory>
    ensures { IfOk result (λ text. text.items ≡ spec.too_big_text limit) }
{
    let text = format!(in alloc; "model: TooBig limit {limit}\n")?;
    Ok(text.into_bytes())
}

fn fixed_text(alloc: Global, text: &[u8]) -> Result<Vec<u8>, NoMemory>
    ensures { IfOk result (λ made. made.items ≡ text.now) }
{
    let made = Vec::from_slice(alloc, text)?;
    Ok(made)
}

/// The text of a fault.
pub fn fault_text(alloc: Global, fault: &TopFault) -> Result<Vec<u8>, NoMemory>
    ensures { IfOk result (λ text. text.items ≡ spec.fault_text fault.now) }
{
    match fault {
        TopFault::BadWords => fixed_text(alloc, b"usage: calq MODEL SQL [--budget N]\n"),
        TopFault::NotJson => fixed_text(alloc, b"model: NotJson\n"),
        TopFault::BadModel { path, cause } => bad_model_text(alloc, path.as_slice(), *cause),
        TopFault::Table { table, fault } => bad_table_text(alloc, table, fault),
        TopFault::TooBig { limit } => too_big_text(alloc, *limit),
        TopFault::ReadFault => fixed_text(alloc, b"read fault\n"),
        TopFault::SinkFault { of: _ } => fixed_text(alloc, b""),
        TopFault::NoMemory => fixed_text(alloc, b"no memory\n"),
    }
}

fn refused_text(alloc: Global, cause: &Cause) -> Result<Vec<u8>, NoMemory>
    ensures { IfOk result (λ text. text.items ≡ spec.refused_text cause.now) }
{
    let mut out = String::new(alloc);
    out.push_str("refused ")?;
    match cause {
        Cause::Text(refusal) => push_refusal(&mut out, refusal)?,
    }
    out.push_str("\n")?;
    Ok(out.into_bytes())
}

fn plan_text(alloc: Global, plan: &Plan, schema: &Schema) -> Result<Vec<u8>, NoMemory>
    requires { IsSome (plan_tree plan.now) }
    ensures { IfOk result (λ text. text.items ≡ spec.text_of_plan schema.now (plan_tree plan.now)) }
{
    let mut out = String::new(alloc);
    push_plan(alloc, &mut out, plan, schema)?;
    Ok(out.into_bytes())
}

fn memo_text(alloc: Global, planning: &Planning, schema: &Schema) -> Result<Vec<u8>, NoMemory>
    ensures { IfOk result (λ text. text.items ≡ spec.text_of_memo schema.now planning.now) }
{
    let searched = Searched {
        root: planning.root,
        firings: planning.firings.len(),
        complete: planning.complete,
    };
    let estimates = planning.estimates.as_slice();
    let tiles = planning.tiles.as_slice();
    let mut out = String::new(alloc);
    push_memo(
        alloc,
        &mut out,
        &planning.memo,
        searched,
        estimates,
        tiles,
        schema,
    )?;
    Ok(out.into_bytes())
}

/// The text of a reply over a schema.
pub fn reply_text(alloc: Global, reply: &Reply, schema: &Schema) -> Result<Vec<u8>, NoMemory>
    requires { spec.IsSpelled reply.now }
    ensures { IfOk result (λ text. text.items ≡ spec.reply_text schema.now reply.now) }
{
    match reply {
        Reply::Rows {
            at: _,
            names,
            answer,
        } => answer_text(alloc, names.as_slice(), answer.rows.as_slice()),
        Reply::Plan { at: _, planning } => plan_text(alloc, &planning.plan, schema),
        Reply::Memo { at: _, planning } => memo_text(alloc, planning, schema),
        Reply::Refused { at: _, cause } => refused_text(alloc, cause),
    }
}
