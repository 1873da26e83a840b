ghost use Rattle.std.specs.Prelude.{◌≡◌, [], length, IfOk};
ghost use Rattle.cal_rel.specs.Info.{info_of};
ghost use Rattle.memo_sets.specs.Seen.{sets_of};
ghost use Rattle.phys_plan.specs.Seen as seen;
ghost use Rattle.rel_meta.specs.Estimates.{table_counts, rows_of_table};
ghost use Rattle.plan_spaces.specs.Made as spec;

use cal_rel::PlanInfo;
use cal_schema::{Schema, TileInfo};
use cal_snapshot::{Part, Snapshot};
use cal_value::{List, NoMemory};
use memo_sets::Memo;
use phys_plan::Space;
use rel_meta::estimate;
use std::alloc::Global;

fn set_rows(memo: &Memo, set: u32, info: &PlanInfo, snapshot: &Snapshot) -> u128
    ensures { result
        ≡ spec.set_rows info.now (table_counts snapshot.now) (sets_of memo.now) set }
{
    match memo.seed_of(set) {
        Some(seed) => estimate(seed, info, snapshot),
        None => 0,
    }
}

#[tactic(auto, using(crate::proofs::RangeSteps::range_steps))]
fn rows_by_set(
    alloc: Global,
    memo: &Memo,
    info: &PlanInfo,
    snapshot: &Snapshot,
) -> Result<List<u128>, NoMemory>
    ensures { IfOk result (λ all. all
        ≡ spec.rows_by_set info.now (table_counts snapshot.now) (sets_of memo.now)) }
{
    let mut all = List::new(alloc);
    for k in 0..memo.types().len() {
        let Ok(set) = u32::try_from(k) else {
            return Err(NoMemory);
        };
        all.push(set_rows(memo, set, info, snapshot))?;
    }
    Ok(all)
}

#[tactic(auto, using(rel_meta::proofs::CountSteps::count_steps))]
fn table_rows(snapshot: &Snapshot, table: u32) -> u64
    ensures { result ≡ rows_of_table (table_counts snapshot.now) table }
{
    match snapshot.rows_len(Part::Table(table)) {
        Some(count) => count,
        None => 0,
    }
}

#[tactic(auto, using(crate::proofs::RangeSteps::range_steps))]
fn rows_by_table(alloc: Global, snapshot: &Snapshot, tables: usize) -> Result<List<u64>, NoMemory>
    ensures { IfOk result (λ all. all ≡ spec.rows_by_table (table_counts snapshot.now) tables) }
{
    let mut all = List::new(alloc);
    for k in 0..tables {
        let Ok(table) = u32::try_from(k) else {
            return Err(NoMemory);
        };
        all.push(table_rows(snapshot, table))?;
    }
    Ok(all)
}

/// What the plans of a memo are made of: its members, the schema with its tiles and the types of the memo's sets, the
/// estimate of each set's seed (0 of a number that is gone), and how many rows each table of the schema has in the snapshot (0 where
/// it isn't there). More than 2^32 sets or tables count as want of memory.
pub fn space_of<'a>(
    alloc: Global,
    memo: &'a Memo,
    schema: &'a Schema,
    tiles: &'a List<TileInfo>,
    snapshot: &Snapshot,
) -> Result<Space<'a>, NoMemory>
    ensures { IfOk result (λ space. seen.space_of space
        ≡ spec.made (info_of schema.now tiles.now []) (sets_of memo.now) snapshot.now) }
{
    let info = PlanInfo::new(schema, tiles, memo.types());
    let estimates = rows_by_set(alloc, memo, &info, snapshot)?;
    let tables = rows_by_table(alloc, snapshot, schema.tables.len())?;
    Ok(Space {
        members: memo.members(),
        info,
        estimates,
        tables,
    })
}
