ghost use Rattle.std.specs.Prelude.{◌≡◌, IfOk};

use cal_value::{Agg, Duplicate, List, NoMemory};
use std::alloc::Global;

/// An aggregate of a column of a star, counted from 0, or of its rows.
#[derive(Clone, Copy, Debug, PartialEq, Eq, Hash)]
pub struct Measure {
    pub agg: Agg,
    pub column: Option<u32>,
}

/// Which rows a tile has: the lattice by its number, its dimensions as a set of bits, and its measures, followed by None.
#[derive(Clone, Copy, Debug, PartialEq, Eq, Hash)]
pub struct TileKey {
    pub lattice: u32,
    pub dims: u16,
    pub measures: [Option<Measure>; 8],
}

/// A tile that can be read: the number of its instance, its key, how many rows it has, and the versions of the tables
/// that it was made from.
#[derive(Debug, Drop)]
pub struct TileInfo {
    pub instance: u32,
    pub key: TileKey,
    pub rows: u64,
    pub versions: List<u64>,
}

impl Duplicate for Measure {
    fn copy(&self, _alloc: Global) -> Result<Measure, NoMemory> {
        Ok(*self)
    }
}

impl Duplicate for TileKey {
    fn copy(&self, _alloc: Global) -> Result<TileKey, NoMemory> {
        Ok(*self)
    }
}

impl Duplicate for TileInfo {
    fn copy(&self, alloc: Global) -> Result<TileInfo, NoMemory> {
        let versions = self.versions.copy(alloc)?;
        Ok(TileInfo {
            instance: self.instance,
            key: self.key,
            rows: self.rows,
            versions,
        })
    }
}
