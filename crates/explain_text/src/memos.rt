//! The printed text of memos.
ghost use Rattle.std.specs.Prelude.{◌≡◌, ◌++◌, IfOk, OnOk, codes, decimal, length, map, string_bytes};
ghost use Rattle.std.specs.List.{filter, flat_map};
ghost use Rattle.cal_rel.specs.Tree.{tree_of};
ghost use Rattle.memo_sets.specs.Seen.{member_of, sets_of};
ghost use Rattle.explain_text.specs.Details.{named};
ghost use Rattle.explain_text.specs.Memos as spec;

use crate::details::{push_aggregate, push_filter, push_join, push_project, push_scan};
use cal_rel::{Rel, RelType};
use cal_schema::Schema;
use cal_value::{List, NoMemory};
use memo_sets::{Member, Memo};
use script_text::{push_counted, push_text};
use std::alloc::Global;

/// How a search of a memo ended: the set of the root, how many firings there were, and whether nothing was left to fire.
#[derive(Clone, Copy, Debug, PartialEq, Eq)]
pub struct Searched {
    pub root: u32,
    pub firings: usize,
    pub complete: bool,
}

// ---- members

fn push_tile(out: &mut String, tiles: &[u32], at: u32) -> Result<(), NoMemory>
    ensures { OnOk result (string_bytes out.new ≡ string_bytes out.old ++ spec.tile_at tiles.now at) }
{
    match tiles.get(at as usize) {
        Some(tile) => push_counted(out, "tile ", *tile as u128),
        None => Ok(()),
    }
}

fn push_tile_scan(out: &mut String, tiles: &[u32], at: u32) -> Result<(), NoMemory>
    ensures { OnOk result (string_bytes out.new ≡ string_bytes out.old
        ++ named (codes "TileScan") (spec.tile_at tiles.now at)) }
{
    push_text(out, "TileScan(")?;
    push_tile(out, tiles, at)?;
    push_text(out, ")")
}

// The set that an input names.
#[tactic(auto, using(crate::proofs::RelSteps::input_steps))]
fn push_input(out: &mut String, input: &Rel) -> Result<(), NoMemory>
    ensures { OnOk result (string_bytes out.new ≡ string_bytes out.old ++ spec.input_text (tree_of input.now)) }
{
    match input {
        Rel::Hole(set) => push_counted(out, " #", *set as u128),
        Rel::Scan(_) => Ok(()),
        Rel::TileScan(_) => Ok(()),
        Rel::StarScan { .. } => Ok(()),
        Rel::Filter { .. } => Ok(()),
        Rel::Project { .. } => Ok(()),
        Rel::Join { .. } => Ok(()),
        Rel::Aggregate { .. } => Ok(()),
        Rel::Empty(_) => Ok(()),
    }
}

// A node with its details, and the sets of its inputs.
#[tactic(auto, using(crate::proofs::RelSteps::rel_steps))]
fn push_rel(out: &mut String, rel: &Rel, tiles: &[u32], schema: &Schema) -> Result<(), NoMemory>
    ensures { OnOk result (string_bytes out.new ≡ string_bytes out.old ++ spec.member_text schema.now tiles.now (tree_of rel.now)) }
{
    match rel {
        Rel::Scan(table) => push_scan(out, "Scan", schema, *table),
        Rel::TileScan(at) => push_tile_scan(out, tiles, *at),
        Rel::StarScan { .. } => push_text(out, "StarScan()"),
        Rel::Filter { input, predicate } => {
            push_filter(out, "Filter", predicate)?;
            push_input(out, input.get())
        }
        Rel::Project { input, items } => {
            push_project(out, "Project", items)?;
            push_input(out, input.get())
        }
        Rel::Join {
            kind,
            left,
            right,
            on,
        } => {
            push_join(out, "Join", *kind, on)?;
            push_input(out, left.get())?;
            push_input(out, right.get())
        }
        Rel::Aggregate {
            input,
            groups,
            calls,
        } => {
            push_aggregate(out, "Aggregate", groups, calls)?;
            push_input(out, input.get())
        }
        Rel::Empty(_) => push_text(out, "Empty"),
        Rel::Hole(set) => push_counted(out, " #", *set as u128),
    }
}

fn push_member(
    out: &mut String,
    member: &Member,
    tiles: &[u32],
    schema: &Schema,
) -> Result<(), NoMemory>
    ensures { OnOk result (string_bytes out.new ≡ string_bytes out.old ++ spec.member_line schema.now tiles.now (member_of member.now)) }
{
    out.push_str("  ")?;
    push_rel(out, &member.rel, tiles, schema)?;
    push_text(out, "\n")
}

// ---- sets

// The members of a set, a line each.
fn push_members(
    out: &mut String,
    members: &[Member],
    set: usize,
    tiles: &[u32],
    schema: &Schema,
) -> Result<(), NoMemory>
    ensures { OnOk result (string_bytes out.new ≡ string_bytes out.old
        ++ flat_map (spec.member_line schema.now tiles.now) (spec.members_of (map member_of members.now) set)) }
{
    for member in members {
        if member.set as usize == set {
            push_member(out, member, tiles, schema)?;
        }
    }
    Ok(())
}

fn estimate_at(estimates: &[u128], set: usize) -> u128
    ensures { result ≡ spec.estimate_at estimates.now set }
{
    match estimates.get(set) {
        Some(estimate) => *estimate,
        None => 0,
    }
}

fn push_set_line(out: &mut String, set: usize, estimate: u128) -> Result<(), NoMemory>
    ensures { OnOk result (string_bytes out.new ≡ string_bytes out.old ++ spec.set_line set estimate) }
{
    push_counted(out, "set ", set as u128)?;
    push_counted(out, " rows=", estimate)?;
    push_text(out, "\n")
}

fn push_set(
    out: &mut String,
    members: &[Member],
    set: usize,
    estimates: &[u128],
    tiles: &[u32],
    schema: &Schema,
) -> Result<(), NoMemory>
    ensures { OnOk result (string_bytes out.new ≡ string_bytes out.old
        ++ spec.set_text schema.now estimates.now tiles.now (map member_of members.now) set) }
{
    push_set_line(out, set, estimate_at(estimates, set))?;
    push_members(out, members, set, tiles, schema)
}

pub(crate) fn push_sets(
    out: &mut String,
    members: &[Member],
    sets: &[usize],
    estimates: &[u128],
    tiles: &[u32],
    schema: &Schema,
) -> Result<(), NoMemory>
    ensures { OnOk result (string_bytes out.new ≡ string_bytes out.old
        ++ flat_map (spec.set_text schema.now estimates.now tiles.now (map member_of members.now)) sets.now) }
{
    for set in sets {
        push_set(out, members, *set, estimates, tiles, schema)?;
    }
    Ok(())
}

// The numbers of the sets that are there.
pub(crate) fn sets_there(alloc: Global, types: &[Option<RelType>]) -> Result<List<usize>, NoMemory>
    ensures { IfOk result (λ sets. sets ≡ spec.sets_there types.now) }
{
    let mut sets = List::new(alloc);
    for (set, kind) in types.iter().enumerate() {
        if kind.is_some() {
            sets.push(set)?;
        }
    }
    Ok(sets)
}

// ---- a memo

fn state_text(complete: bool) -> &'static str
    ensures { result.now ≡ spec.state_text complete }
{
    if complete { "complete" } else { "stopped" }
}

fn push_state(out: &mut String, complete: bool) -> Result<(), NoMemory>
    ensures { OnOk result (string_bytes out.new ≡ string_bytes out.old ++ (codes " " ++ spec.state_text complete ++ codes "\n")) }
{
    out.push_str(" ")?;
    out.push_str(state_text(complete))?;
    push_text(out, "\n")
}

pub(crate) fn push_memo_line(
    out: &mut String,
    searched: Searched,
    sets: usize,
    members: usize,
) -> Result<(), NoMemory>
    ensures { OnOk result (string_bytes out.new ≡ string_bytes out.old ++ spec.memo_line searched sets members) }
{
    push_counted(out, "memo root=", searched.root as u128)?;
    push_counted(out, " sets=", sets as u128)?;
    push_counted(out, " members=", members as u128)?;
    push_counted(out, " firings=", searched.firings as u128)?;
    push_state(out, searched.complete)
}

/// Adds the text of a memo: a line on the memo and its search, and then for each set that is there a line with its estimate and
/// one for each of its members, with the sets of its inputs. The estimate of set k stands at place k, 0 where there is none;
/// a tile prints as its instance, which stands among `tiles` at the tile's place.
pub fn push_memo(
    alloc: Global,
    out: &mut String,
    memo: &Memo,
    searched: Searched,
    estimates: &[u128],
    tiles: &[u32],
    schema: &Schema,
) -> Result<(), NoMemory>
    ensures { OnOk result (string_bytes out.new ≡ string_bytes out.old
        ++ spec.memo_text schema.now searched estimates.now tiles.now (sets_of memo.now)) }
{
    let sets = sets_there(alloc, memo.types().as_slice())?;
    let members = memo.members().as_slice();
    push_memo_line(out, searched, sets.len(), members.len())?;
    push_sets(out, members, sets.as_slice(), estimates, tiles, schema)
}
