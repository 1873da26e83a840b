ghost use Rattle.std.specs.Prelude.{◌≡◌, ◌∷◌, ◌+◌, ◌<◌, true, drop, length, IfOk};
ghost use Rattle.csv.specs.Reading.{default_config, records, strip_bom};
ghost use Rattle.csv.specs.Records.{fields_of};
ghost use Rattle.csv_tables.specs.Left.{IsNext, IsPlain, left_of};

use cal_value::NoMemory;
use csv::{ByteRecord, Reader, ReaderBuilder};
use std::alloc::Global;

/// A reader of all records of these bytes.
#[tactic(auto, unfolding(crate::specs::Left::left_of))]
pub(crate) fn open(alloc: Global, bytes: &[u8]) -> Reader<&[u8]>
    ensures plain { IsPlain result }
    ensures all { left_of result ≡ records default_config (strip_bom bytes.now) }
{
    ReaderBuilder::new()
        .has_headers(false)
        .flexible(true)
        .from_reader(alloc, bytes)
}

/// Reads the next record, and says whether there was one.
pub(crate) fn next(reader: &mut Reader<&[u8]>, into: &mut ByteRecord) -> Result<bool, NoMemory>
    requires { IsPlain reader.old }
    ensures plain { IfOk result (λ found. found ≡ true → IsPlain reader.new) }
    ensures next { IfOk result (λ found.
        IsNext (left_of reader.old) found (fields_of into.new) (left_of reader.new)) }
{
    let Ok(found) = reader.read_byte_record(into) else {
        return Err(NoMemory);
    };
    Ok(found)
}

/// The field at this place of a record, counted from 0.
pub(crate) fn field_at(raw: &ByteRecord, at: usize) -> &[u8]
    requires { at < length (fields_of raw.now) }
    ensures { drop at (fields_of raw.now) ≡ result.now ∷ drop (at + 1) (fields_of raw.now) }
{
    match raw.get(at) {
        Some(field) => field,
        None => unreachable!(),
    }
}
