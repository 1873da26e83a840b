//! The answer to a SELECT.
ghost use Rattle.std.specs.Prelude.{◌≡◌, IfOk, map, []};
ghost use Rattle.cal_schema.specs.Fits.{Fits};
ghost use Rattle.cal_schema.specs.Valid.{IsValidSchema};
ghost use Rattle.plan_scans.specs.Scans.{HoldsTiles, tables_of};
ghost use Rattle.row_exec.specs.Run.{CanRun, IsRun};
ghost use Rattle.sql_algebra.specs.Formed.{IsFormed};
ghost use Rattle.sql_meaning.specs.Answer.{IsAnswer};
ghost use Rattle.sql_translate.specs.Translated.{IsAccepted};
ghost use Rattle.select_planning.specs.Planned.{IsPlanned};

use cal_schema::Schema;
use cal_snapshot::Snapshot;
use cal_value::{List, NoMemory, Row, Steps};
use plan_nodes::Plan;
use row_exec::execute;
use rule_hep::Rule;
use select_planning::{Planning, plan_select};
use sql_validator::CheckedSelect;
use std::alloc::Global;
use std::marker::Brand;
use std::sync::ledger::{Blank, Ledger};

/// The rows of an answer, and how they were planned.
#[derive(Debug, Drop)]
pub struct Answer {
    pub rows: List<Row>,
    pub planning: Planning,
}

// The rows of the plan, whose steps nobody counts.
fn run<L: Ledger>(
    alloc: Global,
    blank: Blank,
    plan: &Plan,
    schema: &Schema,
    snapshot: &Snapshot,
) -> Result<List<Row>, NoMemory>
    requires name { blank.name ≡ L.name }
    requires parts { blank.parts ≡ L.parts }
    requires whole { L.parts ≡ 1 }
    requires tiles { HoldsTiles schema.now snapshot.now }
    requires plan { CanRun schema.now snapshot.now plan.now }
    ensures { IfOk result (IsRun schema.now snapshot.now plan.now) }
{
    let mut steps: Steps<L> = Steps::new(blank);
    execute(alloc, plan, schema, snapshot, &mut steps)
}

fn rows_of(
    alloc: Global,
    plan: &Plan,
    schema: &Schema,
    snapshot: &Snapshot,
) -> Result<List<Row>, NoMemory>
    requires tiles { HoldsTiles schema.now snapshot.now }
    requires plan { CanRun schema.now snapshot.now plan.now }
    ensures { IfOk result (IsRun schema.now snapshot.now plan.now) }
{
    run::<Brand>(alloc, Blank::new(1), plan, schema, snapshot)
}

/// The answer to the SELECT over the tables of the snapshot, which has no tiles: each row as often as the SELECT means it, in the order that
/// it asks for, as the cheapest plan that the rules find with at most `budget` firings gives them. The SELECT is one that a text spells
/// and that `validate` accepted over this schema, the schema is valid, and the tables fit it.
pub fn answer_select(
    alloc: Global,
    checked: &CheckedSelect,
    schema: &Schema,
    snapshot: &Snapshot,
    rules: &[Box<dyn Rule>],
    budget: u32,
) -> Result<Answer, NoMemory>
    requires valid { IsValidSchema schema.now }
    requires formed { IsFormed checked.now.select }
    requires accepted { IsAccepted schema.now checked.now }
    requires fits { Fits (tables_of snapshot.now) schema.now }
    requires tiles { snapshot.now.tiles ≡ [] }
    ensures rows { IfOk result (λ answer. IsAnswer checked.now.select schema.now
        (tables_of snapshot.now) answer.rows) }
    ensures planned { IfOk result (λ answer. IsPlanned (map (λ b. meaning b) rules.now) budget
        schema.now snapshot.now checked.now.select answer.planning) }
    ensures run { IfOk result (λ answer.
        IsRun schema.now snapshot.now answer.planning.plan answer.rows) }
{
    let planning = plan_select(alloc, checked, schema, snapshot, rules, budget)?;
    let rows = rows_of(alloc, &planning.plan, schema, snapshot)?;
    Ok(Answer { rows, planning })
}
