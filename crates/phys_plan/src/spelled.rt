//! The roots of plans: what makes rows of a set's other plans, and what spells its members.
ghost use Rattle.std.specs.Prelude.{◌≡◌, ◌++◌, ◌∷◌, [], List as ListOf, IfOk, OnOk};
ghost use Rattle.cal_expr.specs.declared.expr.Expr.{Expr as ExprOf};
ghost use Rattle.cal_rel.specs.Tree as t;
ghost use Rattle.cal_rel.specs.Typing.{pairs_of as t_pairs_of};
ghost use Rattle.memo_sets.specs.Seen.{member_of};
ghost use Rattle.phys_plan.specs.Seen as seen;
ghost use Rattle.phys_plan.specs.Seen.{space_of, hole_at, kept, over_one, over_two};
ghost use Rattle.phys_plan.specs.Ways as spec;
ghost use Rattle.phys_plan.specs.Ways.{asks, way};

use crate::forms::{are_different, is_tests};
use crate::space::Space;
use crate::ways::{Ask, Want, Way, fits};
use cal_expr::Expr;
use cal_rel::{Rel, pairs_of};
use cal_schema::{AdapterKind, AggCall, JoinKind};
use cal_value::{Collation, Duplicate, KeyOrder, List, NoMemory, SqlType};
use memo_sets::Member;
use plan_nodes::{PlanNode, ascending_by, left_order, right_order};
use std::alloc::Global;

fn asked(set: u32, want: Want, order: Collation) -> Option<Ask>
    ensures { result ≡ asks set want order }
{
    Some(Ask { set, want, order })
}

/// Rows of a set, in any order.
fn any_rows(alloc: Global, set: u32) -> Option<Ask>
    ensures { result ≡ asks set Want.Rows [] }
{
    asked(set, Want::Rows, List::new(alloc))
}

fn push_way(
    out: &mut List<Way>,
    node: PlanNode,
    first: Option<Ask>,
    second: Option<Ask>,
) -> Result<(), NoMemory>
    ensures { OnOk result (out.new ≡ out.old ++ way node first second ∷ []) }
{
    out.push(Way {
        node,
        first,
        second,
    })?;
    Ok(())
}

// ---- which nodes are asked for

fn takes(only: Option<Want>, node: &PlanNode) -> bool
    ensures { result ≡ seen.takes only node.now }
{
    match only {
        None => true,
        Some(want) => fits(want, node),
    }
}

#[tactic(auto, using(crate::proofs::KeptSteps::takes_steps))]
fn takes_rows(only: Option<Want>) -> bool
    ensures { seen.TakesRows only result }
{
    match only {
        None => true,
        Some(Want::Rows) => true,
        Some(Want::MemScanned) => false,
        Some(Want::MemFiltered) => false,
        Some(Want::MemKept) => false,
        Some(Want::CsvScanned) => false,
        Some(Want::CsvKept) => false,
        Some(Want::Tiled) => false,
    }
}

fn takes_mem_filter(only: Option<Want>) -> bool
    ensures { (p : ExprOf) → seen.takes only (PlanNode.MemFilter p) ≡ result }
{
    match only {
        None => true,
        Some(Want::Rows) => false,
        Some(Want::MemScanned) => false,
        Some(Want::MemFiltered) => true,
        Some(Want::MemKept) => true,
        Some(Want::CsvScanned) => false,
        Some(Want::CsvKept) => false,
        Some(Want::Tiled) => false,
    }
}

fn takes_mem_project(only: Option<Want>) -> bool
    ensures { (items : ListOf ExprOf) → seen.takes only (PlanNode.MemProject items) ≡ result }
{
    match only {
        None => true,
        Some(Want::Rows) => false,
        Some(Want::MemScanned) => false,
        Some(Want::MemFiltered) => false,
        Some(Want::MemKept) => true,
        Some(Want::CsvScanned) => false,
        Some(Want::CsvKept) => false,
        Some(Want::Tiled) => false,
    }
}

fn takes_csv_project(only: Option<Want>) -> bool
    ensures { (items : ListOf ExprOf) → seen.takes only (PlanNode.CsvProject items) ≡ result }
{
    match only {
        None => true,
        Some(Want::Rows) => false,
        Some(Want::MemScanned) => false,
        Some(Want::MemFiltered) => false,
        Some(Want::MemKept) => false,
        Some(Want::CsvScanned) => false,
        Some(Want::CsvKept) => true,
        Some(Want::Tiled) => false,
    }
}

// ---- leaves

#[tactic(auto, using(crate::proofs::KeptSteps::kept_steps))]
fn push_leaf(out: &mut List<Way>, only: Option<Want>, node: PlanNode) -> Result<(), NoMemory>
    ensures { OnOk result (out.new ≡ out.old ++ kept only (way node None None ∷ [])) }
{
    if takes(only, &node) {
        push_way(out, node, None, None)
    } else {
        Ok(())
    }
}

fn scan_node(kind: AdapterKind, table: u32) -> PlanNode
    ensures { result ≡ spec.scan_node kind table }
{
    match kind {
        AdapterKind::Csv => PlanNode::CsvScan { table },
        AdapterKind::Mem => PlanNode::MemScan { table },
    }
}

#[tactic(auto, using(crate::proofs::KeptSteps::kept_steps))]
fn push_scan(
    out: &mut List<Way>,
    space: &Space,
    only: Option<Want>,
    table: u32,
) -> Result<(), NoMemory>
    ensures { OnOk result (out.new ≡ out.old
        ++ kept only (spec.leaf_ways (space_of space.now).info (t.scan table))) }
{
    match space.info.table(table) {
        None => Ok(()),
        Some(def) => push_leaf(out, only, scan_node(def.adapter, table)),
    }
}

#[tactic(auto, using(crate::proofs::KeptSteps::kept_steps))]
fn push_tile(
    out: &mut List<Way>,
    space: &Space,
    only: Option<Want>,
    at: u32,
) -> Result<(), NoMemory>
    ensures { OnOk result (out.new ≡ out.old
        ++ kept only (spec.leaf_ways (space_of space.now).info (t.tile_scan at))) }
{
    match space.info.tiles.get(at as usize) {
        None => Ok(()),
        Some(tile) => {
            let tile = tile.instance;
            push_leaf(out, only, PlanNode::TileRead { tile })
        }
    }
}

#[tactic(auto, using(crate::proofs::KeptSteps::kept_steps))]
fn push_empty(
    alloc: Global,
    out: &mut List<Way>,
    only: Option<Want>,
    types: &List<SqlType>,
) -> Result<(), NoMemory>
    ensures { OnOk result (out.new ≡ out.old
        ++ kept only (way (PlanNode.EmptyRows types.now) None None ∷ [])) }
{
    if !takes_rows(only) {
        return Ok(());
    }
    let types = types.copy(alloc)?;
    push_way(out, PlanNode::EmptyRows { types }, None, None)
}

// ---- nodes over one set

#[tactic(auto, using(crate::proofs::KeptSteps::kept_steps))]
fn push_any_filter(
    alloc: Global,
    out: &mut List<Way>,
    only: Option<Want>,
    input: u32,
    predicate: &Expr,
) -> Result<(), NoMemory>
    ensures { OnOk result (out.new ≡ out.old
        ++ kept only (way (PlanNode.Filter predicate.now) (asks input Want.Rows []) None ∷ [])) }
{
    if !takes_rows(only) {
        return Ok(());
    }
    let predicate = predicate.copy(alloc)?;
    push_way(
        out,
        PlanNode::Filter { predicate },
        any_rows(alloc, input),
        None,
    )
}

#[tactic(auto, using(crate::proofs::KeptSteps::kept_steps))]
fn push_mem_filter(
    alloc: Global,
    out: &mut List<Way>,
    only: Option<Want>,
    input: u32,
    predicate: &Expr,
) -> Result<(), NoMemory>
    ensures { OnOk result (out.new ≡ out.old
        ++ kept only (way (PlanNode.MemFilter predicate.now) (asks input Want.MemScanned []) None ∷ [])) }
{
    if !takes_mem_filter(only) {
        return Ok(());
    }
    let ask = asked(input, Want::MemScanned, List::new(alloc));
    let predicate = predicate.copy(alloc)?;
    push_way(out, PlanNode::MemFilter { predicate }, ask, None)
}

#[tactic(auto, using(crate::proofs::KeptSteps::kept_steps))]
fn push_filter(
    alloc: Global,
    out: &mut List<Way>,
    only: Option<Want>,
    input: Option<u32>,
    predicate: &Expr,
) -> Result<(), NoMemory>
    ensures { OnOk result
        (out.new ≡ out.old ++ kept only (over_one (t.filter_by predicate.now) input)) }
{
    let Some(input) = input else {
        return Ok(());
    };
    push_any_filter(alloc, out, only, input, predicate)?;
    if is_tests(predicate) {
        push_mem_filter(alloc, out, only, input, predicate)
    } else {
        Ok(())
    }
}

#[tactic(auto, using(crate::proofs::KeptSteps::kept_steps))]
fn push_any_project(
    alloc: Global,
    out: &mut List<Way>,
    only: Option<Want>,
    input: u32,
    items: &List<Expr>,
) -> Result<(), NoMemory>
    ensures { OnOk result (out.new ≡ out.old
        ++ kept only (way (PlanNode.Project items.now) (asks input Want.Rows []) None ∷ [])) }
{
    if !takes_rows(only) {
        return Ok(());
    }
    let items = items.copy(alloc)?;
    push_way(
        out,
        PlanNode::Project { items },
        any_rows(alloc, input),
        None,
    )
}

#[tactic(auto, using(crate::proofs::KeptSteps::kept_steps))]
fn push_mem_project(
    alloc: Global,
    out: &mut List<Way>,
    only: Option<Want>,
    input: u32,
    items: &List<Expr>,
) -> Result<(), NoMemory>
    ensures { OnOk result (out.new ≡ out.old
        ++ kept only (way (PlanNode.MemProject items.now) (asks input Want.MemFiltered []) None ∷ [])) }
{
    if !takes_mem_project(only) {
        return Ok(());
    }
    let ask = asked(input, Want::MemFiltered, List::new(alloc));
    let items = items.copy(alloc)?;
    push_way(out, PlanNode::MemProject { items }, ask, None)
}

#[tactic(auto, using(crate::proofs::KeptSteps::kept_steps))]
fn push_csv_project(
    alloc: Global,
    out: &mut List<Way>,
    only: Option<Want>,
    input: u32,
    items: &List<Expr>,
) -> Result<(), NoMemory>
    ensures { OnOk result (out.new ≡ out.old
        ++ kept only (way (PlanNode.CsvProject items.now) (asks input Want.CsvScanned []) None ∷ [])) }
{
    if !takes_csv_project(only) {
        return Ok(());
    }
    let ask = asked(input, Want::CsvScanned, List::new(alloc));
    let items = items.copy(alloc)?;
    push_way(out, PlanNode::CsvProject { items }, ask, None)
}

#[tactic(auto, using(crate::proofs::KeptSteps::kept_steps))]
fn push_project(
    alloc: Global,
    out: &mut List<Way>,
    only: Option<Want>,
    input: Option<u32>,
    items: &List<Expr>,
) -> Result<(), NoMemory>
    ensures { OnOk result
        (out.new ≡ out.old ++ kept only (over_one (t.project_to items.now) input)) }
{
    let Some(input) = input else {
        return Ok(());
    };
    push_any_project(alloc, out, only, input, items)?;
    if !are_different(items.as_slice()) {
        return Ok(());
    }
    push_mem_project(alloc, out, only, input, items)?;
    push_csv_project(alloc, out, only, input, items)
}

fn push_groups(
    alloc: Global,
    out: &mut List<Way>,
    input: Option<u32>,
    groups: &List<u32>,
    calls: &List<AggCall>,
) -> Result<(), NoMemory>
    ensures { OnOk result
        (out.new ≡ out.old ++ over_one (t.aggregate_by groups.now calls.now) input) }
{
    let Some(input) = input else {
        return Ok(());
    };
    let order = ascending_by(alloc, groups)?;
    let hashed = PlanNode::HashAggregate {
        groups: groups.copy(alloc)?,
        calls: calls.copy(alloc)?,
    };
    push_way(out, hashed, any_rows(alloc, input), None)?;
    let sorted = PlanNode::SortedAggregate {
        groups: groups.copy(alloc)?,
        calls: calls.copy(alloc)?,
    };
    push_way(out, sorted, asked(input, Want::Rows, order), None)
}

#[tactic(auto, using(crate::proofs::KeptSteps::kept_steps))]
fn push_aggregate(
    alloc: Global,
    out: &mut List<Way>,
    only: Option<Want>,
    input: Option<u32>,
    groups: &List<u32>,
    calls: &List<AggCall>,
) -> Result<(), NoMemory>
    ensures { OnOk result (out.new ≡ out.old
        ++ kept only (over_one (t.aggregate_by groups.now calls.now) input)) }
{
    if takes_rows(only) {
        push_groups(alloc, out, input, groups, calls)
    } else {
        Ok(())
    }
}

// ---- joins

fn push_merge(
    alloc: Global,
    out: &mut List<Way>,
    kind: JoinKind,
    width: usize,
    on: &Expr,
    left: u32,
    right: u32,
) -> Result<(), NoMemory>
    ensures { OnOk result
        (out.new ≡ out.old ++ spec.merge_ways kind width on.now left right) }
{
    match kind {
        JoinKind::Left => Ok(()),
        JoinKind::Inner => {
            let first = asked(left, Want::Rows, left_order(alloc, width, on)?);
            let second = asked(right, Want::Rows, right_order(alloc, width, on)?);
            let on = on.copy(alloc)?;
            push_way(out, PlanNode::MergeJoin { on }, first, second)
        }
    }
}

fn push_pairs(
    alloc: Global,
    out: &mut List<Way>,
    kind: JoinKind,
    width: usize,
    on: &Expr,
    left: u32,
    right: u32,
) -> Result<(), NoMemory>
    ensures { OnOk result
        (out.new ≡ out.old ++ spec.pair_ways (t_pairs_of width on.now) kind width on.now left right) }
{
    let pairs = pairs_of(alloc, on, width)?;
    match pairs.as_slice() {
        [] => Ok(()),
        [_pair, ..] => {
            let copy = on.copy(alloc)?;
            let first = any_rows(alloc, left);
            let second = any_rows(alloc, right);
            push_way(out, PlanNode::HashJoin { kind, on: copy }, first, second)?;
            push_merge(alloc, out, kind, width, on, left, right)
        }
    }
}

fn push_both(
    alloc: Global,
    out: &mut List<Way>,
    space: &Space,
    kind: JoinKind,
    inputs: (Option<u32>, Option<u32>),
    on: &Expr,
) -> Result<(), NoMemory>
    ensures { OnOk result
        (out.new ≡ out.old
        ++ over_two (space_of space.now).info (t.join_on kind on.now) inputs.0 inputs.1) }
{
    let (Some(left), Some(right)) = inputs else {
        return Ok(());
    };
    let copy = on.copy(alloc)?;
    let first = any_rows(alloc, left);
    let second = any_rows(alloc, right);
    push_way(
        out,
        PlanNode::NestedLoopJoin { kind, on: copy },
        first,
        second,
    )?;
    push_pairs(alloc, out, kind, space.set_width(left), on, left, right)
}

#[tactic(auto, using(crate::proofs::KeptSteps::kept_steps))]
fn push_join(
    alloc: Global,
    out: &mut List<Way>,
    space: &Space,
    only: Option<Want>,
    kind: JoinKind,
    inputs: (Option<u32>, Option<u32>),
    on: &Expr,
) -> Result<(), NoMemory>
    ensures { OnOk result (out.new ≡ out.old
        ++ kept only (over_two (space_of space.now).info (t.join_on kind on.now) inputs.0 inputs.1)) }
{
    if takes_rows(only) {
        push_both(alloc, out, space, kind, inputs, on)
    } else {
        Ok(())
    }
}

// ---- members

#[tactic(auto, using(cal_rel::proofs::TreeSteps::tree_steps))]
fn hole_of(rel: &Rel) -> Option<u32>
    ensures { result ≡ hole_at (t.tree_of rel.now) }
{
    match rel {
        Rel::Hole(set) => Some(*set),
        Rel::Scan(_) => None,
        Rel::TileScan(_) => None,
        Rel::StarScan { .. } => None,
        Rel::Filter { .. } => None,
        Rel::Project { .. } => None,
        Rel::Join { .. } => None,
        Rel::Aggregate { .. } => None,
        Rel::Empty(_) => None,
    }
}

#[tactic(auto, using(crate::proofs::WaySteps::spelled_steps))]
fn push_member(
    alloc: Global,
    out: &mut List<Way>,
    space: &Space,
    only: Option<Want>,
    rel: &Rel,
) -> Result<(), NoMemory>
    ensures { OnOk result (out.new ≡ out.old
        ++ kept only (spec.spells (space_of space.now).info (t.tree_of rel.now))) }
{
    match rel {
        Rel::Scan(table) => push_scan(out, space, only, *table),
        Rel::TileScan(at) => push_tile(out, space, only, *at),
        Rel::StarScan { .. } => Ok(()),
        Rel::Filter { input, predicate } => {
            push_filter(alloc, out, only, hole_of(input.get()), predicate)
        }
        Rel::Project { input, items } => {
            push_project(alloc, out, only, hole_of(input.get()), items)
        }
        Rel::Join {
            kind,
            left,
            right,
            on,
        } => {
            let inputs = (hole_of(left.get()), hole_of(right.get()));
            push_join(alloc, out, space, only, *kind, inputs, on)
        }
        Rel::Aggregate {
            input,
            groups,
            calls,
        } => push_aggregate(alloc, out, only, hole_of(input.get()), groups, calls),
        Rel::Empty(types) => push_empty(alloc, out, only, types),
        Rel::Hole(_) => Ok(()),
    }
}

#[tactic(auto, using(crate::proofs::KeptSteps::kept_steps))]
fn push_member_of(
    alloc: Global,
    out: &mut List<Way>,
    space: &Space,
    only: Option<Want>,
    set: u32,
    member: &Member,
) -> Result<(), NoMemory>
    ensures { OnOk result (out.new ≡ out.old
        ++ kept only (spec.spells_in (space_of space.now).info set (member_of member.now))) }
{
    if member.set == set {
        push_member(alloc, out, space, only, &member.rel)
    } else {
        Ok(())
    }
}

// ---- roots

fn push_sort(
    alloc: Global,
    out: &mut List<Way>,
    set: u32,
    order: &[KeyOrder],
) -> Result<(), NoMemory>
    ensures { OnOk result (out.new ≡ out.old ++ spec.sort_ways set order.now) }
{
    match order {
        [] => Ok(()),
        [_key, ..] => {
            let keys = List::from_vec(Vec::from_slice(alloc, order)?);
            push_way(out, PlanNode::Sort { keys }, any_rows(alloc, set), None)
        }
    }
}

fn converters(alloc: Global, set: u32, order: &[KeyOrder]) -> Result<List<Way>, NoMemory>
    ensures { IfOk result (λ out. out ≡ spec.converters set order.now) }
{
    let mut out = List::new(alloc);
    let mem = asked(set, Want::MemKept, List::new(alloc));
    push_way(&mut out, PlanNode::ToEnumerable, mem, None)?;
    let csv = asked(set, Want::CsvKept, List::new(alloc));
    push_way(&mut out, PlanNode::ToEnumerable, csv, None)?;
    let tiled = asked(set, Want::Tiled, List::new(alloc));
    push_way(&mut out, PlanNode::ToEnumerable, tiled, None)?;
    push_sort(alloc, &mut out, set, order)?;
    Ok(out)
}

#[tactic(auto, using(crate::proofs::KeptSteps::kept_steps))]
fn fitting_converters(
    alloc: Global,
    only: Option<Want>,
    set: u32,
    order: &[KeyOrder],
) -> Result<List<Way>, NoMemory>
    ensures { IfOk result (λ out. out ≡ kept only (spec.converters set order.now)) }
{
    if takes_rows(only) {
        converters(alloc, set, order)
    } else {
        Ok(List::new(alloc))
    }
}

/// The roots whose nodes are of the kind that is asked, all where no kind is. Nothing is copied of another node.
pub fn fitting_ways(
    alloc: Global,
    space: &Space,
    only: Option<Want>,
    set: u32,
    order: &[KeyOrder],
) -> Result<List<Way>, NoMemory>
    ensures { IfOk result (λ ways. ways ≡ kept only (spec.ways (space_of space.now) set order.now)) }
{
    let mut out = fitting_converters(alloc, only, set, order)?;
    for member in space.members.as_slice() {
        push_member_of(alloc, &mut out, space, only, set, member)?;
    }
    Ok(out)
}

/// All roots of plans of a set, where this order is asked: what makes rows of its other plans, then what spells its
/// members, in the order of the members.
#[tactic(auto, using(crate::proofs::WaySteps::all_steps))]
pub fn ways_of(
    alloc: Global,
    space: &Space,
    set: u32,
    order: &[KeyOrder],
) -> Result<List<Way>, NoMemory>
    ensures { IfOk result (λ ways. ways ≡ spec.ways (space_of space.now) set order.now) }
{
    fitting_ways(alloc, space, None, set, order)
}
