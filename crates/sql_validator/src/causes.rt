//! The causes of a refusal that come from the entries of FROM.
ghost use Rattle.std.specs.Prelude.{◌≡◌, ◌==◌, ◌<◌, ◌^◌, nat_lt, find, length, IfOk};
ghost use Rattle.std.specs.Option.{option_copied};
ghost use Rattle.sql_meaning.specs.Bounds.{bound_of};
ghost use Rattle.sql_meaning.specs.Names.{output_names};
ghost use Rattle.sql_meaning.specs.Parts as spec_parts;
ghost use Rattle.sql_meaning.specs.Refused as spec;
ghost use Rattle.sql_meaning.specs.Scope.{types_in};
ghost use Rattle.sql_validator.specs.Walks as walks;

use crate::aggregate_query::is_aggregate_query;
use crate::groups::{misplaced, ungrouped};
use crate::keys::bad_key;
use cal_schema::{Refusal, WrittenName};
use cal_value::{Duplicate, NoMemory, SqlText};
use sql_meaning::{Entry, Mention, SelectPart, parts_of};
use sql_names::{mentions_of, output_places};
use sql_tree::Select;
use sql_types::{nearest_misfit, type_clash};
use std::alloc::Global;

fn name_of(alloc: Global, mention: &Mention) -> Result<WrittenName, NoMemory>
    ensures { IfOk result (λ name. name ≡ mention.now.name) }
{
    let qualifier = mention.name.qualifier.copy(alloc)?;
    let name = mention.name.name.copy(alloc)?;
    Ok(WrittenName { qualifier, name })
}

// The first name that no entry has.
fn unknown_column(all: &[Mention]) -> Option<&Mention>
    ensures { option_copied result ≡ find (λ m. m.homes == 0) all.now }
{
    all.iter().find(|mention| mention.homes == 0)
}

// The first name that two entries have.
fn ambiguous(all: &[Mention]) -> Option<&Mention>
    ensures { option_copied result ≡ find (λ m. nat_lt 1 m.homes) all.now }
{
    all.iter().find(|mention| mention.homes > 1)
}

fn name_cause(alloc: Global, all: &[Mention]) -> Result<Option<Refusal>, NoMemory>
    ensures { IfOk result (λ cause. cause ≡ walks.name_cause all.now) }
{
    if let Some(mention) = unknown_column(all) {
        return Ok(Some(Refusal::UnknownColumn {
            name: name_of(alloc, mention)?,
        }));
    }
    match ambiguous(all) {
        Some(mention) => Ok(Some(Refusal::Ambiguous {
            name: name_of(alloc, mention)?,
        })),
        None => Ok(None),
    }
}

fn part_cause(select: &Select, parts: &[SelectPart], scope: &[Entry<'_>]) -> Option<Refusal>
    requires { parts.now ≡ spec_parts.parts_of select.now }
    ensures { result ≡ walks.part_cause scope.now select.now }
{
    if let Some(place) = type_clash(parts, scope) {
        return Some(Refusal::TypeClash { place });
    }
    match misplaced(parts) {
        Some(place) => Some(Refusal::AggregateMisplaced { place }),
        None => None,
    }
}

fn star_place(before: u64, select: &Select) -> u64
    requires { before < 2 ^ 32 }
    ensures { result ≡ spec.star_place before select.now }
{
    if select.distinct {
        before + 2
    } else {
        before + 1
    }
}

fn group_cause(
    alloc: Global,
    select: &Select,
    before: u64,
    parts: &[SelectPart],
    scope: &[Entry<'_>],
) -> Result<Option<Refusal>, NoMemory>
    requires numbered { length (types_in scope.now) < 2 ^ 32 }
    requires few { before < 2 ^ 32 }
    requires whole { parts.now ≡ spec_parts.parts_of select.now }
    ensures { IfOk result (λ cause. cause ≡ spec.not_grouped scope.now before select.now) }
{
    if !is_aggregate_query(select) {
        return Ok(None);
    }
    let place = star_place(before, select);
    match ungrouped(alloc, select, parts, place, scope)? {
        Some(place) => Ok(Some(Refusal::NotGrouped { place })),
        None => Ok(None),
    }
}

fn order_cause(
    alloc: Global,
    select: &Select,
    names: &[SqlText],
    scope: &[Entry<'_>],
) -> Result<Option<Refusal>, NoMemory>
    requires numbered { length (types_in scope.now) < 2 ^ 32 }
    requires named { names.now ≡ output_names scope.now select.now.items }
    ensures { IfOk result (λ cause. cause ≡ spec.order_key scope.now select.now) }
{
    let places = output_places(alloc, &select.items, scope)?;
    match bad_key(select, names, places.as_slice(), scope) {
        Some(place) => Ok(Some(Refusal::OrderKey { place })),
        None => Ok(None),
    }
}

fn size_cause(
    select: &Select,
    rows: u128,
    parts: &[SelectPart],
    scope: &[Entry<'_>],
) -> Option<Refusal>
    requires bound { rows ≡ bound_of scope.now }
    requires whole { parts.now ≡ spec_parts.parts_of select.now }
    ensures { result ≡ spec.may_not_fit scope.now select.now }
{
    match nearest_misfit(rows, parts, scope) {
        Some(misfit) => Some(Refusal::MayNotFit {
            place: misfit.place,
            lo: misfit.lo,
            hi: misfit.hi,
        }),
        None => None,
    }
}

fn late_cause(
    alloc: Global,
    select: &Select,
    before: u64,
    names: &[SqlText],
    rows: u128,
    parts: &[SelectPart],
    scope: &[Entry<'_>],
) -> Result<Option<Refusal>, NoMemory>
    requires numbered { length (types_in scope.now) < 2 ^ 32 }
    requires few { before < 2 ^ 32 }
    requires named { names.now ≡ output_names scope.now select.now.items }
    requires bound { rows ≡ bound_of scope.now }
    requires whole { parts.now ≡ spec_parts.parts_of select.now }
    ensures { IfOk result (λ cause. cause ≡ walks.late_cause scope.now before select.now) }
{
    if let Some(cause) = group_cause(alloc, select, before, parts, scope)? {
        return Ok(Some(cause));
    }
    if let Some(cause) = order_cause(alloc, select, names, scope)? {
        return Ok(Some(cause));
    }
    Ok(size_cause(select, rows, parts, scope))
}

/// The first of the causes that come from the entries of FROM. The columns of the answer have these names, and FROM has at
/// most so many rows; so many tokens stand before the SELECT.
pub(crate) fn scope_cause(
    alloc: Global,
    select: &Select,
    before: u64,
    names: &[SqlText],
    rows: u128,
    scope: &[Entry<'_>],
) -> Result<Option<Refusal>, NoMemory>
    requires numbered { length (types_in scope.now) < 2 ^ 32 }
    requires few { before < 2 ^ 32 }
    requires named { names.now ≡ output_names scope.now select.now.items }
    requires bound { rows ≡ bound_of scope.now }
    ensures { IfOk result (λ cause. cause ≡ walks.scope_cause scope.now before select.now) }
{
    let all = mentions_of(alloc, select, scope)?;
    if let Some(cause) = name_cause(alloc, all.as_slice())? {
        return Ok(Some(cause));
    }
    let parts = parts_of(alloc, select)?;
    let parts = parts.as_slice();
    if let Some(cause) = part_cause(select, parts, scope) {
        return Ok(Some(cause));
    }
    late_cause(alloc, select, before, names, rows, parts, scope)
}
