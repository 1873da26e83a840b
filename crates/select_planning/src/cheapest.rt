//! The cheapest plan of a set.
ghost use Rattle.std.specs.Prelude.{◌≡◌, IfOk, map};
ghost use Rattle.memo_sets.specs.Seen.{sets_of};
ghost use Rattle.phys_plan.specs.Grounded.{HoldsTree};
ghost use Rattle.phys_plan.specs.Spaces.{HasWidths};
ghost use Rattle.plan_scans.specs.Scans.{info_over};
ghost use Rattle.plan_spaces.specs.Made.{made};
ghost use Rattle.volcano_best.specs.Solved.{IsCheapest};

use cal_schema::{Schema, TileInfo};
use cal_snapshot::Snapshot;
use cal_value::{Collation, List, NoMemory};
use memo_sets::Memo;
use plan_spaces::space_of;
use std::alloc::{AllocError, Global};
use volcano_best::{Planned, best};

/// The cheapest plan of the set in this order over the snapshot, and the estimate of each set.
pub(crate) fn cheapest_of(
    alloc: Global,
    memo: &Memo,
    root: u32,
    order: &Collation,
    schema: &Schema,
    snapshot: &Snapshot,
) -> Result<(Planned, List<u128>), NoMemory>
    requires widths { let info = info_over schema.now snapshot.now in
        HasWidths (made info (sets_of memo.now) snapshot.now) }
    requires tree { let info = info_over schema.now snapshot.now in
        HoldsTree (made info (sets_of memo.now) snapshot.now) root }
    ensures plan { let info = info_over schema.now snapshot.now in
        IfOk result (λ found.
        IsCheapest (made info (sets_of memo.now) snapshot.now) root order.now found.0) }
    ensures estimates { let info = info_over schema.now snapshot.now in
        IfOk result (λ found.
        found.1 ≡ (made info (sets_of memo.now) snapshot.now).estimates) }
{
    let space = space_of(alloc, memo, schema, snapshot.tiles(), snapshot)?;
    let plan = best(alloc, &space, root, order)?;
    Ok((plan, space.estimates))
}

fn numbers(alloc: Global, tiles: &[TileInfo]) -> Result<Vec<u32>, AllocError>
    ensures { IfOk result (λ all. all.items ≡ map (λ tile. tile.instance) tiles.now) }
{
    tiles.iter().map(|tile| tile.instance).collect(alloc)
}

/// The instances of the tiles.
pub(crate) fn instances(alloc: Global, tiles: &List<TileInfo>) -> Result<List<u32>, NoMemory>
    ensures { IfOk result (λ all. all ≡ map (λ tile. tile.instance) tiles.now) }
{
    Ok(List::from_vec(numbers(alloc, tiles.as_slice())?))
}
