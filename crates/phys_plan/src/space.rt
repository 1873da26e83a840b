ghost use Rattle.std.specs.Prelude.{◌≡◌, option_map, unwrap_or, slice_get};
ghost use Rattle.cal_rel.specs.Bag as bag;
ghost use Rattle.plan_nodes.specs.Orders.{tile_place};
ghost use Rattle.phys_plan.specs.Seen.{space_of};
ghost use Rattle.phys_plan.specs.Spaces as spec;

use cal_rel::PlanInfo;
use cal_schema::TileInfo;
use cal_value::List;
use memo_sets::Member;
use plan_nodes::PlanNode;

/// What plans are made of: the members of a memo's sets, the schema with its tiles and the types of sets, by the number of a
/// set how many rows it is thought to have, and by the number of a table how many rows it has.
#[derive(Drop)]
pub struct Space<'a> {
    pub members: &'a List<Member>,
    pub info: PlanInfo<'a>,
    pub estimates: List<u128>,
    pub tables: List<u64>,
}

fn tile_place(tiles: &[TileInfo], instance: u32) -> Option<usize>
    ensures { result ≡ tile_place tiles.now instance }
{
    tiles.iter().position(|tile| tile.instance == instance)
}

fn rows_at(tiles: &[TileInfo], at: usize) -> u64
    ensures { result ≡ unwrap_or (option_map (λ tile. tile.rows) (slice_get tiles.now at)) 0 }
{
    match tiles.get(at) {
        Some(tile) => tile.rows,
        None => 0,
    }
}

impl<'a> Space<'a> {
    /// How many rows the set is thought to have. Takes no memory.
    pub fn estimate(&self, set: u32) -> u128
        ensures { result ≡ spec.estimate (space_of self.now) set }
    {
        let rows = self.estimates.as_slice();
        if (set as usize) < rows.len() {
            rows[set as usize]
        } else {
            0
        }
    }

    /// How many columns the set has. Takes no memory.
    pub fn set_width(&self, set: u32) -> usize
        ensures { result ≡ bag.set_width (space_of self.now).info set }
    {
        match self.info.sets.get(set as usize) {
            Some(Some(t)) => t.columns.len(),
            _ => 0,
        }
    }

    fn table_len(&self, table: u32) -> u64
        ensures { result ≡ spec.table_len (space_of self.now) table }
    {
        let rows = self.tables.as_slice();
        if (table as usize) < rows.len() {
            rows[table as usize]
        } else {
            0
        }
    }

    fn tile_len(&self, instance: u32) -> u64
        ensures { result ≡ spec.tile_len (space_of self.now) instance }
    {
        let tiles = self.info.tiles.as_slice();
        match tile_place(tiles, instance) {
            Some(at) => rows_at(tiles, at),
            None => 0,
        }
    }

    /// How many rows the part has that a node reads, 0 where it reads none. Takes no memory.
    pub fn part_len(&self, node: &PlanNode) -> u64
        ensures { result ≡ spec.part_len (space_of self.now) node.now }
    {
        match node {
            PlanNode::MemScan { table } => self.table_len(*table),
            PlanNode::CsvScan { table } => self.table_len(*table),
            PlanNode::TileRead { tile } => self.tile_len(*tile),
            PlanNode::MemFilter { .. } => 0,
            PlanNode::MemProject { .. } => 0,
            PlanNode::CsvProject { .. } => 0,
            PlanNode::ToEnumerable => 0,
            PlanNode::Filter { .. } => 0,
            PlanNode::Project { .. } => 0,
            PlanNode::NestedLoopJoin { .. } => 0,
            PlanNode::HashJoin { .. } => 0,
            PlanNode::MergeJoin { .. } => 0,
            PlanNode::HashAggregate { .. } => 0,
            PlanNode::SortedAggregate { .. } => 0,
            PlanNode::EmptyRows { .. } => 0,
            PlanNode::Sort { .. } => 0,
        }
    }
}
