ghost use Rattle.std.specs.Prelude.{◌≡◌, IfOk};

use cal_value::{Agg, Duplicate, NoMemory};
use std::alloc::Global;

/// An aggregate over the rows of a group: of the values of a column, counted from 0, or, for `Count`, of the rows.
#[derive(Clone, Copy, Debug, PartialEq, Eq, Hash)]
pub struct AggCall {
    pub agg: Agg,
    pub argument: Option<u32>,
}

impl Duplicate for AggCall {
    fn copy(&self, _alloc: Global) -> Result<AggCall, NoMemory> {
        Ok(*self)
    }
}
