//! The types of sets.
ghost use Rattle.std.specs.Prelude.{◌≡◌, IfOk, slice_set};
ghost use Rattle.cal_rel.specs.Info.{set_at};
ghost use Rattle.memo_model.specs.Steps.{met};

use cal_schema::RelType;
use cal_value::{Duplicate, List, NoMemory};
use std::alloc::Global;

/// The type of a set.
pub fn type_at(
    alloc: Global,
    types: &List<Option<RelType>>,
    set: u32,
) -> Result<Option<RelType>, NoMemory>
    ensures { IfOk result (λ t. t ≡ set_at types.now set) }
{
    match types.get(set as usize) {
        Some(t) => t.copy(alloc),
        None => Ok(None),
    }
}

/// What both say, of a set that is there.
pub fn met(
    alloc: Global,
    first: Option<RelType>,
    second: &Option<RelType>,
) -> Result<Option<RelType>, NoMemory>
    ensures { IfOk result (λ t. t ≡ met first second.now) }
{
    match (first, second) {
        (None, _) => Ok(None),
        (Some(first), None) => Ok(Some(first)),
        (Some(first), Some(second)) => {
            let both = first.meet(alloc, second)?;
            Ok(Some(both))
        }
    }
}

/// Another type at a number; nothing changes at one that was never made.
pub fn put_type(
    types: List<Option<RelType>>,
    set: u32,
    new: Option<RelType>,
) -> List<Option<RelType>>
    ensures { result ≡ slice_set types set new }
{
    let mut items = types.into_vec();
    if (set as usize) < items.len() {
        items[set as usize] = new;
    }
    List::from_vec(items)
}

/// The set's type is also `own`.
pub fn narrow_type(
    alloc: Global,
    types: List<Option<RelType>>,
    set: u32,
    own: &Option<RelType>,
) -> Result<List<Option<RelType>>, NoMemory>
    ensures { IfOk result (λ all. all ≡ slice_set types set (met (set_at types set) own.now)) }
{
    let first = type_at(alloc, &types, set)?;
    let both = met(alloc, first, own)?;
    Ok(put_type(types, set, both))
}
