ghost use Rattle.std.specs.Prelude.{◌≡◌, ◌+◌, length, map, IfOk, IsSome, Some, option_map, slice_get};
ghost use Rattle.std.specs.Arc.{arc_value};
ghost use Rattle.std.specs.Option.{option_copied};

use crate::part::Part;
use cal_schema::TileInfo;
use cal_value::{List, NoMemory, Row, Steps, copy_row};
use std::alloc::Global;
use std::marker::Model;
use std::sync::Arc;
use std::sync::ledger::Ledger;

/// The rows of tables and tiles at one moment. Its rows come out by `lend` and `take` alone.
#[derive(Drop)]
pub struct Snapshot {
    tables: List<Arc<List<Row>>>,
    versions: List<u64>,
    tiles: List<TileInfo>,
    tile_rows: List<Arc<List<Row>>>,
}

impl Model for Snapshot {
    ghost use Rattle.std.specs.Prelude.{map};
    ghost use Rattle.std.specs.Arc.{arc_value};
    ghost use Rattle.cal_snapshot.specs.Parts.{Parts, AreParts};

    ghost Value = { Parts };

    ghost view = { λ s. record {
      tables = map arc_value s.tables;
      versions = s.versions;
      tiles = s.tiles;
      tile_rows = map arc_value s.tile_rows;
    } };

    ghost invariant = { λ s. AreParts (record {
      tables = map arc_value s.tables;
      versions = s.versions;
      tiles = s.tiles;
      tile_rows = map arc_value s.tile_rows;
    }) };
}

fn rows_at(parts: &List<Arc<List<Row>>>, at: usize) -> Option<&List<Row>>
    ensures { option_copied result ≡ slice_get (map arc_value parts.now) at }
{
    match parts.get(at) {
        Some(rows) => Some(&**rows),
        None => None,
    }
}

impl Snapshot {
    ghost use Rattle.cal_snapshot.specs.Parts.{rows_of, rows_in, row_at, start_of, tile_place};

    /// A snapshot of these tables at version 1, without tiles.
    pub fn start(alloc: Global, tables: List<Arc<List<Row>>>) -> Result<Snapshot, NoMemory>
        ensures { IfOk result (λ snapshot. snapshot ≡ start_of (map arc_value tables)) }
    {
        let versions = vec![in alloc; 1u64; tables.len()]?;
        Ok(Snapshot {
            tables,
            versions: List::from_vec(versions),
            tiles: List::new(alloc),
            tile_rows: List::new(alloc),
        })
    }

    fn tile_place(&self, instance: u32) -> Option<usize>
        ensures { result ≡ tile_place self.now instance }
    {
        self.tiles
            .as_slice()
            .iter()
            .position(|tile| tile.instance == instance)
    }

    fn rows(&self, part: Part) -> Option<&List<Row>>
        ensures { option_copied result ≡ rows_of self.now part }
    {
        match part {
            Part::Table(table) => rows_at(&self.tables, table as usize),
            Part::Tile(instance) => match self.tile_place(instance) {
                Some(place) => rows_at(&self.tile_rows, place),
                None => None,
            },
        }
    }

    /// How many rows the part has. None comes exactly where it isn't there. Takes no memory.
    pub fn rows_len(&self, part: Part) -> Option<u64>
        ensures { result ≡ option_map length (rows_of self.now part) }
    {
        match self.rows(part) {
            Some(rows) => Some(rows.len() as u64),
            None => None,
        }
    }

    /// How many rows the table has, which is there. Takes no memory.
    pub fn table_len(&self, table: u32) -> u64
        requires { IsSome (rows_of self.now (Part.Table table)) }
        ensures { result ≡ length (rows_in self.now table) }
    {
        match self.rows_len(Part::Table(table)) {
            Some(count) => count,
            None => unreachable!(),
        }
    }

    /// The version of a table. None comes exactly where there is no such table. Takes no memory.
    pub fn version(&self, table: u32) -> Option<u64>
        ensures { result ≡ slice_get self.now.versions table }
    {
        self.versions.get(table as usize).copied()
    }

    /// The tiles that are there. Takes no memory.
    pub fn tiles(&self) -> &List<TileInfo>
        ensures { result.now ≡ self.now.tiles }
    {
        &self.tiles
    }

    /// The row of the part at this place, counted from 0, to look at. It makes one step and takes no memory.
    pub fn lend<L: Ledger>(&self, part: Part, at: u64, steps: &mut Steps<L>) -> &Row
        requires { IsSome (row_at self.now part at) }
        ensures row { row_at self.now part at ≡ Some result.now }
        ensures step { steps.new ≡ steps.old + 1 }
    {
        steps.tick();
        match self.row(part, at as usize) {
            Some(row) => row,
            None => unreachable!(),
        }
    }

    /// A copy of the row of the part at this place, counted from 0. It makes one step, also where there is no memory.
    pub fn take<L: Ledger>(
        &self,
        alloc: Global,
        part: Part,
        at: u64,
        steps: &mut Steps<L>,
    ) -> Result<Row, NoMemory>
        requires { IsSome (row_at self.now part at) }
        ensures row { IfOk result (λ row. row_at self.now part at ≡ Some row) }
        ensures step { steps.new ≡ steps.old + 1 }
    {
        copy_row(alloc, self.lend(part, at, steps))
    }

    fn row(&self, part: Part, at: usize) -> Option<&Row>
        ensures { option_copied result ≡ row_at self.now part at }
    {
        match self.rows(part) {
            Some(rows) => rows.get(at),
            None => None,
        }
    }
}
