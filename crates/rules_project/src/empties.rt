//! The empty tree that a rule puts in the place of another.
ghost use Rattle.std.specs.Prelude.{◌≡◌, IfOk, map};
ghost use Rattle.std.specs.Option.{option_map};
ghost use Rattle.cal_rel.specs.Tree.{tree_of};
ghost use Rattle.project_images.specs.Empties as spec;

use cal_rel::{PlanInfo, Rel, type_of};
use cal_value::{Interval, Kind, List, NoMemory, SqlType};
use std::alloc::Global;

fn no_interval(kind: Kind) -> Interval
    ensures { result ≡ spec.no_interval kind }
{
    match kind {
        Kind::Integer => Interval::Never,
        Kind::Boolean => Interval::Range { lo: 0, hi: 0 },
        Kind::Text => Interval::Range { lo: 0, hi: 0 },
    }
}

fn empty_column(column: SqlType) -> SqlType
    ensures { result ≡ spec.empty_column column }
{
    SqlType {
        kind: column.kind,
        nullable: false,
        interval: no_interval(column.kind),
    }
}

fn empty_columns(alloc: Global, columns: &List<SqlType>) -> Result<List<SqlType>, NoMemory>
    ensures { IfOk result (λ types. types ≡ map spec.empty_column columns.now) }
{
    let mut types = List::new(alloc);
    for column in columns.as_slice() {
        types.push(empty_column(*column))?;
    }
    Ok(types)
}

#[tactic(auto, using(cal_rel::proofs::TreeSteps::tree_steps))]
fn empty_with(alloc: Global, columns: &List<SqlType>) -> Result<Rel, NoMemory>
    ensures { IfOk result (λ t. tree_of t ≡ spec.empty_with columns.now) }
{
    let types = empty_columns(alloc, columns)?;
    Ok(Rel::Empty(types))
}

/// No rows, with columns of the kinds of this tree's, where the tree is well formed.
pub(crate) fn empty_for(alloc: Global, info: &PlanInfo, rel: &Rel) -> Result<Option<Rel>, NoMemory>
    ensures { IfOk result (λ made. option_map tree_of made
        ≡ spec.empty_for info.now (tree_of rel.now)) }
{
    match type_of(alloc, rel, info)? {
        Some(t) => {
            let empty = empty_with(alloc, &t.columns)?;
            Ok(Some(empty))
        }
        None => Ok(None),
    }
}
