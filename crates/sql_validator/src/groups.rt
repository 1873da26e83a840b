//! Aggregates where none may stand, and columns outside the groups.
ghost use Rattle.std.specs.Prelude.{◌≡◌, ◌<◌, ◌^◌, ◌++◌, length, IfOk};
ghost use Rattle.std.specs.List.{flat_map, list_all};
ghost use Rattle.sql_meaning.specs.Groups as spec;
ghost use Rattle.sql_meaning.specs.Parts as parts;
ghost use Rattle.sql_meaning.specs.Parts.{listed, parts_of};
ghost use Rattle.sql_meaning.specs.Refused.{lowest};
ghost use Rattle.sql_meaning.specs.Scope.{column_at, types_in};

use cal_value::{List, NoMemory};
use sql_meaning::{Entry, Role, SelectPart, column_at};
use sql_names::star_places;
use sql_tree::{Items, Select, Tree};
use std::alloc::Global;

fn lower_of(a: Option<u64>, b: Option<u64>) -> Option<u64>
    ensures { result ≡ lowest (listed a ++ listed b) }
{
    match (a, b) {
        (Some(place), Some(other)) => Some(if other < place { other } else { place }),
        (Some(place), None) => Some(place),
        (None, other) => other,
    }
}

// Whether an expression there may have aggregates, and speaks of groups where the query has any.
fn is_of_groups(role: Role) -> bool
    ensures { result ≡ parts.is_of_groups role }
{
    match role {
        Role::Item | Role::Having => true,
        Role::Join | Role::Where => false,
    }
}

// ---- aggregates

#[tactic(auto, using(crate::proofs::Lowest::lowest_rules))]
fn lowest_aggregate(tree: &Tree) -> Option<u64>
    ensures { result ≡ lowest (spec.aggregates_in tree.now).all }
{
    match tree {
        Tree::Column { .. } | Tree::Literal { .. } => None,
        Tree::Negate { operand, .. } => lowest_aggregate(operand.get()),
        Tree::Binary { left, right, .. } => {
            let left = lowest_aggregate(left.get());
            let right = lowest_aggregate(right.get());
            lower_of(left, right)
        }
        Tree::Not { operand, .. } => lowest_aggregate(operand.get()),
        Tree::IsNull { operand, .. } => lowest_aggregate(operand.get()),
        Tree::Aggregate {
            place,
            argument,
            ..
        } => match argument {
            Some(argument) => lower_of(Some(*place), lowest_aggregate(argument.get())),
            None => Some(*place),
        },
    }
}

fn lowest_nested(tree: &Tree) -> Option<u64>
    ensures { result ≡ lowest (spec.aggregates_in tree.now).nested }
{
    match tree {
        Tree::Column { .. } | Tree::Literal { .. } => None,
        Tree::Negate { operand, .. } => lowest_nested(operand.get()),
        Tree::Binary { left, right, .. } => {
            let left = lowest_nested(left.get());
            let right = lowest_nested(right.get());
            lower_of(left, right)
        }
        Tree::Not { operand, .. } => lowest_nested(operand.get()),
        Tree::IsNull { operand, .. } => lowest_nested(operand.get()),
        Tree::Aggregate { argument, .. } => match argument {
            Some(argument) => lowest_aggregate(argument.get()),
            None => None,
        },
    }
}

fn part_misplaced(part: &SelectPart) -> Option<u64>
    ensures { result ≡ lowest (spec.misplaced_in part.now) }
{
    if is_of_groups(part.role) {
        lowest_nested(&part.tree)
    } else {
        lowest_aggregate(&part.tree)
    }
}

/// The lowest place of an aggregate where none may stand: in WHERE, in a join's condition and in another aggregate. Takes no
/// memory.
pub(crate) fn misplaced(parts: &[SelectPart]) -> Option<u64>
    ensures { result ≡ lowest (flat_map spec.misplaced_in parts.now) }
{
    let mut found = None;
    for part in parts {
        found = lower_of(found, part_misplaced(part));
    }
    found
}

// ---- columns

fn group_places(
    alloc: Global,
    select: &Select,
    scope: &[Entry<'_>],
) -> Result<List<usize>, NoMemory>
    requires { length (types_in scope.now) < 2 ^ 32 }
    ensures { IfOk result (λ places. places ≡ spec.group_places scope.now select.now) }
{
    let mut places = List::new(alloc);
    for name in select.groups.as_slice() {
        places.push(column_at(scope, name))?;
    }
    Ok(places)
}

fn is_grouped(groups: &[usize], at: usize) -> bool
    ensures { result ≡ spec.is_grouped groups.now at }
{
    groups.iter().any(|group| *group == at)
}

fn lowest_ungrouped(tree: &Tree, groups: &[usize], scope: &[Entry<'_>]) -> Option<u64>
    requires { length (types_in scope.now) < 2 ^ 32 }
    ensures { result ≡ lowest (spec.ungrouped scope.now groups.now tree.now) }
{
    match tree {
        Tree::Column { place, name } => {
            if is_grouped(groups, column_at(scope, name)) {
                None
            } else {
                Some(*place)
            }
        }
        Tree::Literal { .. } => None,
        Tree::Negate { operand, .. } => lowest_ungrouped(operand.get(), groups, scope),
        Tree::Binary { left, right, .. } => {
            let left = lowest_ungrouped(left.get(), groups, scope);
            let right = lowest_ungrouped(right.get(), groups, scope);
            lower_of(left, right)
        }
        Tree::Not { operand, .. } => lowest_ungrouped(operand.get(), groups, scope),
        Tree::IsNull { operand, .. } => lowest_ungrouped(operand.get(), groups, scope),
        Tree::Aggregate { .. } => None,
    }
}

fn part_ungrouped(part: &SelectPart, groups: &[usize], scope: &[Entry<'_>]) -> Option<u64>
    requires { length (types_in scope.now) < 2 ^ 32 }
    ensures { result ≡ lowest (spec.part_ungrouped scope.now groups.now part.now) }
{
    if is_of_groups(part.role) {
        lowest_ungrouped(&part.tree, groups, scope)
    } else {
        None
    }
}

fn parts_ungrouped(parts: &[SelectPart], groups: &[usize], scope: &[Entry<'_>]) -> Option<u64>
    requires { length (types_in scope.now) < 2 ^ 32 }
    ensures { result ≡ lowest (flat_map (spec.part_ungrouped scope.now groups.now) parts.now) }
{
    let mut found = None;
    for part in parts {
        found = lower_of(found, part_ungrouped(part, groups, scope));
    }
    found
}

fn are_grouped(groups: &[usize], places: &[usize]) -> bool
    ensures { result ≡ list_all (spec.is_grouped groups.now) places.now }
{
    places.iter().all(|at| is_grouped(groups, *at))
}

fn star_ungrouped(
    alloc: Global,
    items: &Items,
    place: u64,
    groups: &[usize],
    scope: &[Entry<'_>],
) -> Result<Option<u64>, NoMemory>
    requires { length (types_in scope.now) < 2 ^ 32 }
    ensures { IfOk result (λ found.
        found ≡ lowest (spec.star_ungrouped scope.now groups.now place items.now)) }
{
    match items {
        Items::Star => {
            let places = star_places(alloc, scope)?;
            let grouped = are_grouped(groups, places.as_slice());
            Ok(if grouped { None } else { Some(place) })
        }
        Items::Listed(_) => Ok(None),
    }
}

/// The lowest place of a column outside the groups in an aggregate query, whose `*` has this place.
#[tactic(auto, using(crate::proofs::Lowest::lowest_rules))]
pub(crate) fn ungrouped(
    alloc: Global,
    select: &Select,
    parts: &[SelectPart],
    place: u64,
    scope: &[Entry<'_>],
) -> Result<Option<u64>, NoMemory>
    requires numbered { length (types_in scope.now) < 2 ^ 32 }
    requires whole { parts.now ≡ parts_of select.now }
    ensures { IfOk result (λ found.
        found ≡ lowest (spec.all_ungrouped scope.now place select.now)) }
{
    let groups = group_places(alloc, select, scope)?;
    let star = star_ungrouped(alloc, &select.items, place, groups.as_slice(), scope)?;
    Ok(lower_of(star, parts_ungrouped(parts, groups.as_slice(), scope)))
}
