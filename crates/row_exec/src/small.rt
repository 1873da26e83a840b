//! For the tests: a small plan, run.
ghost use Rattle.std.specs.Prelude.{◌≡◌, [], ◌∷◌, IfOk, Some};
ghost use Rattle.plan_nodes.specs.Seen.{plan_tree};
ghost use Rattle.row_exec.specs.Examples.{count, counted, empty};

use crate::execute;
use cal_schema::{AggCall, Schema};
use cal_snapshot::Snapshot;
use cal_value::{Agg, List, NoMemory, Row, Steps};
use plan_nodes::{Plan, PlanNode};
use sqlite_items::Items;
use std::alloc::Global;
use std::marker::Brand;
use std::sync::ledger::{Blank, Ledger};

fn count_calls(alloc: Global) -> Result<List<AggCall>, NoMemory>
    ensures { IfOk result (λ calls. calls ≡ count ∷ []) }
{
    let call = AggCall {
        agg: Agg::Count,
        argument: None,
    };
    let mut calls = List::new(alloc);
    calls.push(call)?;
    Ok(calls)
}

fn no_rows(alloc: Global) -> Plan
    ensures { plan_tree result ≡ Some empty }
{
    let types = List::new(alloc);
    Plan {
        node: PlanNode::EmptyRows { types },
        inputs: Items::from_vec(Vec::new(alloc)),
        rows: 0,
        part_rows: 0,
    }
}

fn counted_rows(alloc: Global) -> Result<Plan, NoMemory>
    ensures { IfOk result (λ plan. plan_tree plan ≡ Some counted) }
{
    let calls = count_calls(alloc)?;
    let mut inputs = Vec::new(alloc);
    inputs.push(no_rows(alloc))?;
    let groups = List::new(alloc);
    Ok(Plan {
        node: PlanNode::HashAggregate { groups, calls },
        inputs: Items::from_vec(inputs),
        rows: 1,
        part_rows: 0,
    })
}

fn counted_run<L: Ledger>(alloc: Global, blank: Blank, plan: &Plan) -> Result<List<Row>, NoMemory>
    requires name { blank.name ≡ L.name }
    requires parts { blank.parts ≡ L.parts }
    requires whole { L.parts ≡ 1 }
    requires plan { plan_tree plan.now ≡ Some counted }
{
    let schema = Schema {
        default_schema: None,
        tables: List::new(alloc),
    };
    let snapshot = Snapshot::start(alloc, List::new(alloc))?;
    let mut steps: Steps<L> = Steps::new(blank);
    execute(alloc, plan, &schema, &snapshot, &mut steps)
}

/// What counting no rows makes.
pub(crate) fn counted_nothing(alloc: Global) -> Result<List<Row>, NoMemory> {
    let plan = counted_rows(alloc)?;
    counted_run::<Brand>(alloc, Blank::new(1), &plan)
}
