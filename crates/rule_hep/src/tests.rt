ghost use Rattle.std.specs.Prelude.{IfOk};
ghost use Rattle.cal_rel.specs.Holes.{EachHole};
ghost use Rattle.cal_rel.specs.Tree.{tree_of};

mod swap_filters;

use crate::{HepRecord, Reach, Rule, hep, kept, place, places, replaced};
use cal_expr::Expr;
use cal_rel::{PlanInfo, Rel, RelType, type_of};
use cal_schema::{JoinKind, Schema, TileInfo};
use cal_value::{List, NoMemory, SqlType, Value};
use std::alloc::Global;
use std::test::Fail;
use swap_filters::SwapFilters;

// ---- trees without columns

fn truth(b: bool) -> Expr {
    Expr::Literal(Value::Bool(b))
}

// A filter by FALSE over one by TRUE.
#[tactic(auto, using(cal_rel::proofs::TreeSteps::tree_steps))]
fn two_filters(alloc: Global) -> Result<Rel, NoMemory>
    ensures { IfOk result (λ rel. EachHole (λ k. ⊥) (tree_of rel)) }
{
    let lower = Rel::filter(alloc, Rel::Empty(List::new(alloc)), truth(true))?;
    Rel::filter(alloc, lower, truth(false))
}

#[tactic(auto, using(cal_rel::proofs::TreeSteps::tree_steps))]
fn pair(alloc: Global) -> Result<Rel, NoMemory>
    ensures { IfOk result (λ rel. EachHole (λ k. ⊥) (tree_of rel)) }
{
    let left = two_filters(alloc)?;
    let right = two_filters(alloc)?;
    Rel::join(alloc, JoinKind::Inner, left, right, truth(true))
}

// No table, no tile, no set.
#[derive(Drop)]
struct World {
    schema: Schema,
    tiles: List<TileInfo>,
    sets: List<Option<RelType>>,
}

fn small_world(alloc: Global) -> World {
    World {
        schema: Schema {
            default_schema: None,
            tables: List::new(alloc),
        },
        tiles: List::new(alloc),
        sets: List::new(alloc),
    }
}

// Whether there is a filter by this literal at this path.
fn filters_by(rel: &Rel, path: &[u32], b: bool) -> bool {
    match place(rel, path) {
        Some(Rel::Filter { predicate, .. }) => *predicate == truth(b),
        _ => false,
    }
}

// ---- places

const PLACES: &[(&[u32], bool)] = &[
    (&[], false),
    (&[0], true),
    (&[0, 0], true),
    (&[0, 0, 0], false),
    (&[1], true),
    (&[1, 0], true),
    (&[1, 0, 0], false),
];

// Whether this is the path of that number, and whether there is a filter as the table says.
fn is_place(rel: &Rel, paths: &List<List<u32>>, k: usize, row: &(&[u32], bool)) -> bool {
    let is_filter = filters_by(rel, row.0, true) || filters_by(rel, row.0, false);
    match paths.get(k) {
        Some(path) => path.as_slice() == row.0 && is_filter == row.1,
        None => false,
    }
}

fn are_places(rel: &Rel, paths: &List<List<u32>>) -> bool {
    for (k, row) in PLACES.iter().enumerate() {
        if !is_place(rel, paths, k, row) {
            return false;
        }
    }
    paths.len() == PLACES.len()
}

fn has_places(alloc: Global, rel: &Rel) -> Result<bool, NoMemory> {
    let paths = places(alloc, rel)?;
    let are = are_places(rel, &paths);
    drop(paths);
    Ok(are)
}

// Whether another tree lies at this path once it is put there, and the parts beside it as before.
fn is_put(alloc: Global, rel: &Rel, path: &[u32]) -> Result<bool, NoMemory> {
    let whole = replaced(alloc, rel, path, Rel::Scan(7))?;
    let is = place(&whole, path) == Some(&Rel::Scan(7)) && filters_by(&whole, &[0, 0], true);
    drop(whole);
    Ok(is)
}

fn stays(alloc: Global, rel: &Rel, path: &[u32]) -> Result<bool, NoMemory> {
    let whole = replaced(alloc, rel, path, Rel::Scan(7))?;
    let is = whole == *rel;
    drop(whole);
    Ok(is)
}

fn has_parts(alloc: Global, rel: &Rel) -> Result<bool, NoMemory> {
    Ok(has_places(alloc, rel)? && is_put(alloc, rel, &[1, 0])? && stays(alloc, rel, &[2])?)
}

#[test]
fn finds_places(rt: HostRuntime) -> Result<(), Fail> {
    let alloc = rt.alloc();
    let rel = pair(alloc)?;
    let has = has_parts(alloc, &rel);
    drop(rel);
    assert!(rt; has?);
    Ok(())
}

// ---- runs

// The run, where the tree is well formed.
fn run_over(
    alloc: Global,
    rules: &[Box<dyn Rule>],
    limit: u32,
    info: &PlanInfo,
    rel: Rel,
) -> Result<Option<HepRecord>, NoMemory>
    requires { EachHole (λ k. ⊥) (tree_of rel) }
{
    if type_of(alloc, &rel, info)?.is_none() {
        return Ok(None);
    }
    let made = hep(alloc, rules, limit, info, rel)?;
    Ok(Some(made))
}

fn run(
    alloc: Global,
    rules: &[Box<dyn Rule>],
    limit: u32,
    rel: Rel,
) -> Result<Option<HepRecord>, NoMemory>
    requires { EachHole (λ k. ⊥) (tree_of rel) }
{
    let world = small_world(alloc);
    let info = PlanInfo::new(&world.schema, &world.tiles, &world.sets);
    run_over(alloc, rules, limit, &info, rel)
}

fn ends(made: &HepRecord, steps: usize, stopped: bool, upper: bool) -> bool {
    made.log.len() == steps && made.stopped == stopped && filters_by(&made.result, &[], upper)
}

// Whether the run over two filters makes so many steps, is stopped, and ends with the filter by this literal above.
fn runs(
    alloc: Global,
    rules: &[Box<dyn Rule>],
    limit: u32,
    wanted: (usize, bool, bool),
) -> Result<bool, NoMemory> {
    let rel = two_filters(alloc)?;
    let made = run(alloc, rules, limit, rel)?;
    let is = match &made {
        Some(made) => ends(made, wanted.0, wanted.1, wanted.2),
        None => false,
    };
    drop(made);
    Ok(is)
}

#[test]
fn stops_at_the_limit(rt: HostRuntime) -> Result<(), Fail> {
    let alloc = rt.alloc();
    let mut rules: Vec<Box<dyn Rule>> = Vec::new(alloc);
    rules.push(Box::new(alloc, SwapFilters::new(true))?)?;
    assert!(rt; runs(alloc, &rules, 200, (200, true, false))?);
    Ok(())
}

#[test]
fn has_no_rule(rt: HostRuntime) -> Result<(), Fail> {
    let alloc = rt.alloc();
    let rules: Vec<Box<dyn Rule>> = Vec::new(alloc);
    assert!(rt; runs(alloc, &rules, 3, (0, false, false))?);
    Ok(())
}

// Whether this step is by the second rule, on the left side, with the first image.
fn is_on_the_left(made: &HepRecord, at: usize) -> bool {
    match made.log.get(at) {
        Some(step) => step.rule == 1 && step.path.as_slice() == [0].as_slice() && step.nth == 0,
        None => false,
    }
}

fn runs_on_the_left(alloc: Global, rules: &[Box<dyn Rule>]) -> Result<bool, NoMemory> {
    let rel = pair(alloc)?;
    let made = run(alloc, rules, 2, rel)?;
    let is = match &made {
        Some(made) => is_on_the_left(made, 0) && is_on_the_left(made, 1),
        None => false,
    };
    drop(made);
    Ok(is)
}

// The first rule isn't for this planner.
#[test]
fn takes_the_first(rt: HostRuntime) -> Result<(), Fail> {
    let alloc = rt.alloc();
    let mut rules: Vec<Box<dyn Rule>> = Vec::new(alloc);
    rules.push(Box::new(alloc, SwapFilters::new(false))?)?;
    rules.push(Box::new(alloc, SwapFilters::new(true))?)?;
    assert!(rt; runs_on_the_left(alloc, &rules)?);
    Ok(())
}

// ---- one rule

#[test]
fn describes_itself(rt: HostRuntime) {
    let rule = SwapFilters::new(true);
    assert!(rt; rule.name() == "SwapFilters" && rule.reach() == Reach::FirstChild);
}

fn is_kept(alloc: Global, info: &PlanInfo, rel: &Rel, out: Rel) -> Result<bool, NoMemory> {
    let image = kept(alloc, info, rel, out)?;
    let is = image.is_some();
    drop(image);
    Ok(is)
}

// An image with a column isn't kept for a tree without one.
fn keeps_columns_of(alloc: Global, info: &PlanInfo, rel: &Rel) -> Result<bool, NoMemory> {
    let mut types = List::new(alloc);
    types.push(SqlType::boolean(true))?;
    let other = is_kept(alloc, info, rel, Rel::Empty(types))?;
    let same = is_kept(alloc, info, rel, Rel::Empty(List::new(alloc)))?;
    Ok(same && !other)
}

#[test]
fn keeps_columns(rt: HostRuntime) -> Result<(), Fail> {
    let alloc = rt.alloc();
    let world = small_world(alloc);
    let info = PlanInfo::new(&world.schema, &world.tiles, &world.sets);
    let rel = two_filters(alloc)?;
    let keeps = keeps_columns_of(alloc, &info, &rel);
    drop(rel);
    assert!(rt; keeps?);
    Ok(())
}
