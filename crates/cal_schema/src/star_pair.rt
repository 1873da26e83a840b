ghost use Rattle.std.specs.Prelude.{◌≡◌, IfOk};

use cal_value::{Duplicate, NoMemory};
use std::alloc::Global;

/// A column of a join's left rows and one of its right rows, each counted from 0 in its own row.
#[derive(Clone, Copy, Debug, PartialEq, Eq, Hash)]
pub struct StarPair {
    pub left: u32,
    pub right: u32,
}

impl Duplicate for StarPair {
    fn copy(&self, _alloc: Global) -> Result<StarPair, NoMemory> {
        Ok(*self)
    }
}
