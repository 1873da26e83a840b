//! The printed text of causes.
ghost use Rattle.std.specs.Prelude.{◌≡◌, ◌++◌, OnOk, string_bytes, decimal, codes};
ghost use Rattle.script_text.specs.Causes as spec;
ghost use Rattle.script_text.specs.Values.{number_text};

use crate::values::{push_name, push_number};
use cal_schema::{Refusal, WrittenName};
use cal_value::{NoMemory, SqlText};
use csv_tables::{CsvCause, CsvFault};
use itoa::Buffer;

/// Adds a text.
pub fn push_text(out: &mut String, text: &str) -> Result<(), NoMemory>
    ensures { OnOk result (string_bytes out.new ≡ string_bytes out.old ++ text.now) }
{
    out.push_str(text)?;
    Ok(())
}

fn push_count(out: &mut String, count: u128) -> Result<(), NoMemory>
    ensures { OnOk result (string_bytes out.new ≡ string_bytes out.old ++ decimal count) }
{
    let mut buffer = Buffer::new();
    out.push_str(buffer.format(count))?;
    Ok(())
}

/// Adds a text and a number behind it.
pub fn push_counted(out: &mut String, text: &str, count: u128) -> Result<(), NoMemory>
    ensures { OnOk result (string_bytes out.new ≡ string_bytes out.old ++ (text.now ++ decimal count)) }
{
    push_text(out, text)?;
    push_count(out, count)
}

fn push_qualifier(out: &mut String, qualifier: &Option<SqlText>) -> Result<(), NoMemory>
    ensures { OnOk result (string_bytes out.new ≡ string_bytes out.old ++ spec.qualifier_text qualifier.now) }
{
    if let Some(name) = qualifier {
        push_name(out, name)?;
        push_text(out, ".")?;
    }
    Ok(())
}

fn push_written(out: &mut String, written: &WrittenName) -> Result<(), NoMemory>
    ensures { OnOk result (string_bytes out.new ≡ string_bytes out.old ++ spec.written_text written.now) }
{
    push_qualifier(out, &written.qualifier)?;
    push_name(out, &written.name)
}

// A word and a name behind it.
fn push_named(out: &mut String, text: &str, written: &WrittenName) -> Result<(), NoMemory>
    ensures { OnOk result (string_bytes out.new ≡ string_bytes out.old ++ (text.now ++ spec.written_text written.now)) }
{
    push_text(out, text)?;
    push_written(out, written)
}

// A word and a number with its sign behind it.
fn push_numbered(out: &mut String, text: &str, number: i128) -> Result<(), NoMemory>
    ensures { OnOk result (string_bytes out.new ≡ string_bytes out.old ++ (text.now ++ number_text number)) }
{
    push_text(out, text)?;
    push_number(out, number)
}

fn push_misfit(out: &mut String, place: u64, lo: i128, hi: i128) -> Result<(), NoMemory>
    ensures { OnOk result (string_bytes out.new ≡ string_bytes out.old ++ spec.misfit_text place lo hi) }
{
    push_counted(out, "MayNotFit place ", place as u128)?;
    push_numbered(out, " lo ", lo)?;
    push_numbered(out, " hi ", hi)
}

fn push_bad_row(out: &mut String, row: u64, column: u32) -> Result<(), NoMemory>
    ensures { OnOk result (string_bytes out.new ≡ string_bytes out.old ++ spec.bad_row_text row column) }
{
    push_counted(out, "BadRow row ", row as u128)?;
    push_counted(out, " column ", column as u128)
}

/// Adds the text of a cause: its name, then each field with its name and its value.
pub fn push_refusal(out: &mut String, refusal: &Refusal) -> Result<(), NoMemory>
    ensures { OnOk result (string_bytes out.new ≡ string_bytes out.old ++ spec.refusal_text refusal.now) }
{
    match refusal {
        Refusal::NotToken { at } => push_counted(out, "NotToken at ", *at as u128),
        Refusal::TooDeep { limit } => push_counted(out, "TooDeep limit ", *limit as u128),
        Refusal::TooManyOperators { limit } => {
            push_counted(out, "TooManyOperators limit ", *limit as u128)
        }
        Refusal::NotSql => push_text(out, "NotSql"),
        Refusal::NotAQuery => push_text(out, "NotAQuery"),
        Refusal::NotYet => push_text(out, "NotYet"),
        Refusal::UnknownTable { name } => push_named(out, "UnknownTable name ", name),
        Refusal::UnknownLattice { name } => push_named(out, "UnknownLattice name ", name),
        Refusal::TooManyTables { limit } => {
            push_counted(out, "TooManyTables limit ", *limit as u128)
        }
        Refusal::UnknownColumn { name } => push_named(out, "UnknownColumn name ", name),
        Refusal::Ambiguous { name } => push_named(out, "Ambiguous name ", name),
        Refusal::TypeClash { place } => push_counted(out, "TypeClash place ", *place as u128),
        Refusal::AggregateMisplaced { place } => {
            push_counted(out, "AggregateMisplaced place ", *place as u128)
        }
        Refusal::NotGrouped { place } => push_counted(out, "NotGrouped place ", *place as u128),
        Refusal::OrderKey { place } => push_counted(out, "OrderKey place ", *place as u128),
        Refusal::MayNotFit { place, lo, hi } => push_misfit(out, *place, *lo, *hi),
        Refusal::BadRow { row, column } => push_bad_row(out, *row, *column),
        Refusal::NotRefreshable => push_text(out, "NotRefreshable"),
        Refusal::NoMemory => push_text(out, "NoMemory"),
    }
}

fn csv_cause_name(cause: CsvCause) -> &'static str
    ensures { result.now ≡ spec.csv_cause_text cause }
{
    match cause {
        CsvCause::NoHeader => "NoHeader",
        CsvCause::TooManyColumns => "TooManyColumns",
        CsvCause::NotUtf8 => "NotUtf8",
        CsvCause::BadHeader => "BadHeader",
        CsvCause::Repeated => "Repeated",
        CsvCause::HeaderChanged => "HeaderChanged",
        CsvCause::WrongCount => "WrongCount",
        CsvCause::BadBoolean => "BadBoolean",
        CsvCause::BadInteger => "BadInteger",
        CsvCause::TextTooLong => "TextTooLong",
        CsvCause::NullValue => "NullValue",
        CsvCause::KeyTaken => "KeyTaken",
    }
}

fn push_cause(out: &mut String, cause: CsvCause) -> Result<(), NoMemory>
    ensures { OnOk result (string_bytes out.new ≡ string_bytes out.old ++ (codes " cause " ++ spec.csv_cause_text cause)) }
{
    push_text(out, " cause ")?;
    push_text(out, csv_cause_name(cause))
}

fn push_csv_bad(
    out: &mut String,
    at_record: u64,
    column: u32,
    cause: CsvCause,
) -> Result<(), NoMemory>
    ensures { OnOk result (string_bytes out.new ≡ string_bytes out.old ++ spec.csv_bad_text at_record column cause) }
{
    push_counted(out, "CsvBad record ", at_record as u128)?;
    push_counted(out, " column ", column as u128)?;
    push_cause(out, cause)
}

/// Adds the text of what is wrong with a file: its name, then each field with its name and its value.
pub fn push_csv_fault(out: &mut String, fault: &CsvFault) -> Result<(), NoMemory>
    ensures { OnOk result (string_bytes out.new ≡ string_bytes out.old ++ spec.csv_fault_text fault.now) }
{
    match fault {
        CsvFault::CsvBad {
            at_record,
            column,
            cause,
        } => push_csv_bad(out, *at_record, *column, *cause),
        CsvFault::TableFull { limit } => push_counted(out, "TableFull limit ", *limit as u128),
        CsvFault::NoMemory => push_text(out, "NoMemory"),
    }
}
