ghost use Rattle.std.specs.Prelude.{◌≡◌, IfOk, slice_get};
ghost use Rattle.std.specs.Option.{option_copied};
ghost use Rattle.cal_rel.specs.Info.{info_of, set_at};

use cal_schema::{RelType, Schema, TableDef, TileInfo};
use cal_value::{Duplicate, List, NoMemory};
use std::alloc::Global;
use std::marker::Model;

/// What a tree is read over: a schema, the tiles that can be read, and the type of each set, None where the set is gone.
#[derive(Drop)]
pub struct PlanInfo<'a> {
    pub schema: &'a Schema,
    pub tiles: &'a List<TileInfo>,
    pub sets: &'a List<Option<RelType>>,
}

impl<'a> Model for PlanInfo<'a> {
    ghost use Rattle.cal_rel.specs.Info.{Info, info_of};

    ghost Value = { Info };

    ghost view = { λ p. info_of p.schema.now p.tiles.now p.sets.now };
}

impl<'a> PlanInfo<'a> {
    /// Over these. Takes no memory.
    pub fn new(
        schema: &'a Schema,
        tiles: &'a List<TileInfo>,
        sets: &'a List<Option<RelType>>,
    ) -> PlanInfo<'a>
        ensures { result ≡ info_of schema.now tiles.now sets.now }
    {
        PlanInfo {
            schema,
            tiles,
            sets,
        }
    }

    /// The table of this number, where it is there.
    pub fn table(&self, table: u32) -> Option<&TableDef>
        ensures { option_copied result ≡ slice_get self.now.schema.tables table }
    {
        self.schema.tables.get(table as usize)
    }

    /// The type of a set, where it is there.
    pub fn set_type(&self, alloc: Global, set: u32) -> Result<Option<RelType>, NoMemory>
        ensures { IfOk result (λ t. t ≡ set_at self.now.sets set) }
    {
        match self.sets.get(set as usize) {
            Some(t) => t.copy(alloc),
            None => Ok(None),
        }
    }
}
