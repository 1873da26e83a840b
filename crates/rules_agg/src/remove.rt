ghost use Rattle.std.specs.Prelude.{◌≡◌, ◌++◌, IfOk, map};
ghost use Rattle.std.specs.Option.{option_map};
ghost use Rattle.agg_images.specs.AggregateRemove as spec;
ghost use Rattle.agg_images.specs.Meanings.{aggregate_remove};
ghost use Rattle.cal_rel.specs.Tree.{tree_of};
ghost use Rattle.rel_meta.specs.Keys.{each_of};

use cal_expr::Expr;
use cal_rel::{AggCall, PlanInfo, Rel, type_of};
use cal_value::{Agg, List, NoMemory, SqlType, Value};
use rel_meta::{holds_key, unique_keys};
use rule_hep::{Reach, Rule, kept};
use std::alloc::Global;

/// An aggregate with groups that hold a unique key of its input becomes a project of it: each group has one row.
#[derive(Debug, Drop)]
pub struct AggregateRemove;

impl AggregateRemove {
    /// The rule. Takes no memory.
    pub fn new() -> AggregateRemove
        ensures { ⟦<AggregateRemove as Rule>⟧.meaning result ≡ aggregate_remove }
    {
        AggregateRemove
    }
}

impl Rule for AggregateRemove {
    ghost meaning = { λ rule. aggregate_remove };

    fn name(&self) -> &str {
        "AggregateRemove"
    }

    fn in_hep(&self) -> bool {
        true
    }

    fn reach(&self) -> Reach {
        Reach::FirstChild
    }

    fn width(&self, _info: &PlanInfo) -> u32 {
        1
    }

    fn apply(
        &self,
        alloc: Global,
        info: &PlanInfo,
        rel: &Rel,
        nth: u32,
    ) -> Result<Option<Rel>, NoMemory> {
        if nth != 0 {
            return Ok(None);
        }
        match removed_aggregate(alloc, info, rel)? {
            Some(out) => kept(alloc, info, rel, out),
            None => Ok(None),
        }
    }
}

#[tactic(auto, using(cal_rel::proofs::TreeSteps::tree_steps))]
fn removed_aggregate(alloc: Global, info: &PlanInfo, rel: &Rel) -> Result<Option<Rel>, NoMemory>
    ensures { IfOk result (λ made. option_map tree_of made
        ≡ spec.removed_aggregate info.now (tree_of rel.now)) }
{
    match rel {
        Rel::Aggregate {
            input,
            groups,
            calls,
        } => match groups.as_slice() {
            [] => Ok(None),
            [_, ..] => over_keyed(alloc, info, groups, calls, input.get()),
        },
        Rel::Scan(_)
        | Rel::TileScan(_)
        | Rel::StarScan { .. }
        | Rel::Filter { .. }
        | Rel::Project { .. }
        | Rel::Join { .. }
        | Rel::Empty(_)
        | Rel::Hole(_) => Ok(None),
    }
}

// Where the groups hold a key of the input.
fn over_keyed(
    alloc: Global,
    info: &PlanInfo,
    groups: &List<u32>,
    calls: &List<AggCall>,
    input: &Rel,
) -> Result<Option<Rel>, NoMemory>
    ensures { IfOk result (λ made. option_map tree_of made
        ≡ spec.over_keyed info.now groups.now calls.now (tree_of input.now)) }
{
    let keys = unique_keys(alloc, input, info)?;
    if holds_key(groups, &keys) {
        over_input(alloc, info, groups, calls, input)
    } else {
        Ok(None)
    }
}

fn over_input(
    alloc: Global,
    info: &PlanInfo,
    groups: &List<u32>,
    calls: &List<AggCall>,
    input: &Rel,
) -> Result<Option<Rel>, NoMemory>
    ensures { IfOk result (λ made. option_map tree_of made
        ≡ spec.over_input info.now groups.now calls.now (tree_of input.now)) }
{
    match type_of(alloc, input, info)? {
        Some(t) => single_rows(alloc, &t.columns, groups, calls, input),
        None => Ok(None),
    }
}

#[tactic(auto, using(cal_rel::proofs::TreeSteps::tree_steps))]
fn single_rows(
    alloc: Global,
    columns: &List<SqlType>,
    groups: &List<u32>,
    calls: &List<AggCall>,
    input: &Rel,
) -> Result<Option<Rel>, NoMemory>
    ensures { IfOk result (λ made. option_map tree_of made
        ≡ spec.single_rows columns.now groups.now calls.now (tree_of input.now)) }
{
    let Some(values) = single_values(alloc, columns, calls)? else {
        return Ok(None);
    };
    let items = with_groups(alloc, groups, values)?;
    let input = input.copy(alloc)?;
    Ok(Some(Rel::project(alloc, input, items)?))
}

// The group columns and then these.
fn with_groups(
    alloc: Global,
    groups: &List<u32>,
    values: List<Expr>,
) -> Result<List<Expr>, NoMemory>
    ensures { IfOk result (λ items. items ≡ map Expr.Column groups.now ++ values) }
{
    let mut items = group_items(alloc, groups)?;
    for value in values.into_vec() {
        items.push(value)?;
    }
    Ok(items)
}

fn group_items(alloc: Global, groups: &List<u32>) -> Result<List<Expr>, NoMemory>
    ensures { IfOk result (λ items. items ≡ map Expr.Column groups.now) }
{
    let mut items = List::new(alloc);
    for group in groups.as_slice() {
        items.push(Expr::Column(*group))?;
    }
    Ok(items)
}

// ---- calls over a single row

fn is_known(columns: &List<SqlType>, at: u32) -> bool
    ensures { result ≡ spec.is_known columns.now at }
{
    match columns.get(at as usize) {
        Some(t) => !t.nullable,
        None => false,
    }
}

fn one() -> Expr
    ensures { result ≡ spec.one }
{
    Expr::Literal(Value::Int(1))
}

fn where_known(columns: &List<SqlType>, at: u32, item: Expr) -> Option<Expr>
    ensures { result ≡ spec.where_known columns.now at item }
{
    if is_known(columns, at) {
        Some(item)
    } else {
        None
    }
}

fn single_value(columns: &List<SqlType>, agg: Agg, argument: Option<u32>) -> Option<Expr>
    ensures { result ≡ spec.single_value columns.now agg argument }
{
    match argument {
        None => match agg {
            Agg::Count => Some(one()),
            Agg::Sum | Agg::Sum0 | Agg::Min | Agg::Max => None,
        },
        Some(at) => match agg {
            Agg::Count => where_known(columns, at, one()),
            Agg::Sum0 => where_known(columns, at, Expr::Column(at)),
            Agg::Sum | Agg::Min | Agg::Max => Some(Expr::Column(at)),
        },
    }
}

fn single_values(
    alloc: Global,
    columns: &List<SqlType>,
    calls: &List<AggCall>,
) -> Result<Option<List<Expr>>, NoMemory>
    ensures { IfOk result (λ values. values ≡ each_of (spec.single_call columns.now) calls.now) }
{
    let mut values = List::new(alloc);
    for call in calls.as_slice() {
        let Some(value) = single_value(columns, call.agg, call.argument) else {
            return Ok(None);
        };
        values.push(value)?;
    }
    Ok(Some(values))
}
