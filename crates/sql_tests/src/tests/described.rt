//! What an accepted SELECT has, as a text.
use cal_value::{Interval, Kind, NoMemory, SqlText, SqlType};
use script_text::push_name;
use sql_validator::CheckedSelect;
use std::alloc::Global;

// A word and numbers behind it.
pub(crate) fn push_numbers(
    alloc: Global,
    out: &mut String,
    word: &str,
    numbers: &[u32],
) -> Result<(), NoMemory> {
    out.push_str(word)?;
    for number in numbers {
        let text = format!(in alloc; " {number}")?;
        out.push_str(text.as_str())?;
    }
    Ok(())
}

fn push_interval(alloc: Global, out: &mut String, interval: Interval) -> Result<(), NoMemory> {
    match interval {
        Interval::Never => out.push_str(" never")?,
        Interval::Range { lo, hi } => {
            let text = format!(in alloc; " {lo} {hi}")?;
            out.push_str(text.as_str())?;
        }
    }
    Ok(())
}

fn push_type(alloc: Global, out: &mut String, of: &SqlType) -> Result<(), NoMemory> {
    match of.kind {
        Kind::Boolean => out.push_str(" boolean")?,
        Kind::Text => out.push_str(" text")?,
        Kind::Integer => {
            out.push_str(" integer")?;
            push_interval(alloc, out, of.interval)?;
        }
    }
    if of.nullable {
        out.push_str(" NULL")?;
    }
    Ok(())
}

fn push_columns(
    alloc: Global,
    out: &mut String,
    names: &[SqlText],
    types: &[SqlType],
) -> Result<(), NoMemory> {
    let mut is_first = true;
    for (name, of) in names.iter().zip(types.iter()) {
        out.push_str(if is_first { ": " } else { ", " })?;
        push_name(out, name)?;
        push_type(alloc, out, of)?;
        is_first = false;
    }
    Ok(())
}

// A word; the numbers of the tables; the places of the columns that the SELECT refers to; its columns with their types.
pub(crate) fn described(
    alloc: Global,
    word: &str,
    made: &CheckedSelect,
) -> Result<String, NoMemory> {
    let mut out = String::new(alloc);
    out.push_str(word)?;
    push_numbers(alloc, &mut out, " tables", made.tables.as_slice())?;
    push_numbers(alloc, &mut out, " columns", made.columns.as_slice())?;
    push_columns(
        alloc,
        &mut out,
        made.names.as_slice(),
        made.types.as_slice(),
    )?;
    Ok(out)
}
