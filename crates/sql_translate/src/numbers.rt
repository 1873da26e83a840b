ghost use Rattle.std.specs.Prelude.{◌≡◌, IfOk};

use cal_value::NoMemory;

/// The place as a column of a tree. A list of more than 2^32 expressions counts as want of memory.
pub(crate) fn column_number(at: usize) -> Result<u32, NoMemory>
    ensures { IfOk result (λ column. column ≡ at) }
{
    if at <= u32::MAX as usize {
        Ok(at as u32)
    } else {
        Err(NoMemory)
    }
}
