ghost use Rattle.std.specs.Prelude.{◌≡◌, IfOk};
ghost use Rattle.cal_schema.specs.RelType.{met_columns};

use cal_value::{Duplicate, List, NoMemory, SqlType};
use std::alloc::Global;

/// The types of the columns of rows, and how many rows there are at most. A bound of 10^38 or more promises nothing.
#[derive(Debug, PartialEq, Eq, Drop)]
pub struct RelType {
    pub columns: List<SqlType>,
    pub bound: u128,
}

// Column by column, as far as both lists go.
#[tactic(auto, using(crate::proofs::MeetLemmas::met_steps))]
fn met_columns(
    alloc: Global,
    columns: &[SqlType],
    others: &[SqlType],
) -> Result<List<SqlType>, NoMemory>
    ensures { IfOk result (λ met. met ≡ met_columns columns.now others.now) }
{
    let mut met = List::new(alloc);
    for (at, column) in columns.iter().enumerate() {
        let Some(other) = others.get(at) else {
            return Ok(met);
        };
        met.push(SqlType {
            kind: column.kind,
            nullable: column.nullable && other.nullable,
            interval: column.interval.meet(other.interval),
        })?;
    }
    Ok(met)
}

impl RelType {
    ghost use Rattle.cal_schema.specs.RelType.{kinds_of, met_rel_type, IsRelTypeMeet};

    /// What both types say: each column is the meet of both, and the lesser bound holds. Of as many columns of the same
    /// kinds it is the greatest type at most as wide as both.
    pub fn meet(&self, alloc: Global, other: &RelType) -> Result<RelType, NoMemory>
        ensures value { IfOk result (λ met. met ≡ met_rel_type self.now other.now) }
        ensures greatest { IfOk result (λ met. kinds_of self.now.columns ≡ kinds_of other.now.columns
            → IsRelTypeMeet self.now other.now met) }
    {
        let columns = met_columns(alloc, self.columns.as_slice(), other.columns.as_slice())?;
        Ok(RelType {
            columns,
            bound: self.bound.min(other.bound),
        })
    }
}

impl Duplicate for RelType {
    fn copy(&self, alloc: Global) -> Result<RelType, NoMemory> {
        let columns = self.columns.copy(alloc)?;
        Ok(RelType {
            columns,
            bound: self.bound,
        })
    }
}
