//! Where kinds don't go together.
ghost use Rattle.std.specs.Prelude.{◌≡◌, option_map};
ghost use Rattle.std.specs.List.{flat_map};
ghost use Rattle.sql_meaning.specs.Kinds as spec;
ghost use Rattle.sql_meaning.specs.Kinds.{kinded, part_clashes};
ghost use Rattle.sql_meaning.specs.Parts as parts;
ghost use Rattle.sql_meaning.specs.Refused.{lowest};
ghost use Rattle.sql_meaning.specs.Scope.{type_in};
ghost use Rattle.sql_types.specs.Walks as walks;
ghost use Rattle.sql_types.specs.Walks.{judged_of, bare};

use crate::seen::seen;
use cal_value::{Agg, Kind, Op, Value};
use sql_meaning::{Entry, Role, SelectPart, column_type};
use sql_tree::{ColumnName, Tree};

/// The kind of an expression, its own place, and the lowest place in it where kinds don't go together.
#[derive(Clone, Copy, Debug)]
pub(crate) struct Judged {
    pub(crate) kind: Kind,
    pub(crate) place: u64,
    pub(crate) clash: Option<u64>,
}

fn lower_of(a: Option<u64>, b: Option<u64>) -> Option<u64>
    ensures { result ≡ walks.lower_of a b }
{
    match (a, b) {
        (Some(place), Some(other)) => Some(if other < place { other } else { place }),
        (Some(place), None) => Some(place),
        (None, other) => other,
    }
}

fn unless(right: bool, place: u64) -> Option<u64>
    ensures { result ≡ lowest (spec.unless right place) }
{
    if right { None } else { Some(place) }
}

fn not_boolean(judged: Judged) -> Option<u64>
    ensures { result ≡ lowest (spec.not_boolean (bare judged)) }
{
    unless(judged.kind.is(Kind::Boolean), judged.place)
}

fn op_kind(op: Op) -> Kind
    ensures { result ≡ spec.op_kind op }
{
    match op {
        Op::Add | Op::Subtract | Op::Multiply | Op::Divide => Kind::Integer,
        _ => Kind::Boolean,
    }
}

fn arithmetic_clash(place: u64, a: Judged, b: Judged) -> Option<u64>
    ensures { result ≡ lowest (spec.arithmetic_clash place (bare a) (bare b)) }
{
    let right = a.kind.is(Kind::Integer) && b.kind.is(Kind::Integer);
    unless(right, place)
}

#[tactic(auto, using(crate::proofs::Lowest::lowest_rules))]
fn connective_clash(a: Judged, b: Judged) -> Option<u64>
    ensures { result ≡ lowest (spec.op_clash 0 Op.And (bare a) (bare b)) }
{
    lower_of(not_boolean(a), not_boolean(b))
}

fn op_clash(place: u64, op: Op, a: Judged, b: Judged) -> Option<u64>
    ensures { result ≡ lowest (spec.op_clash place op (bare a) (bare b)) }
{
    match op {
        Op::Add | Op::Subtract | Op::Multiply | Op::Divide => arithmetic_clash(place, a, b),
        Op::And | Op::Or => connective_clash(a, b),
        Op::Equal | Op::NotEqual | Op::Less | Op::LessEqual | Op::Greater | Op::GreaterEqual => {
            unless(a.kind.is(b.kind), place)
        }
    }
}

fn literal(place: u64, value: &Value) -> Judged
    ensures { result ≡ judged_of (spec.literal_kinded place value.now) }
{
    let (kind, clash) = match value {
        Value::Null => (Kind::Boolean, Some(place)),
        Value::Bool(_) => (Kind::Boolean, None),
        Value::Int(_) => (Kind::Integer, None),
        Value::Text(_) => (Kind::Text, None),
    };
    Judged { kind, place, clash }
}

fn agg_kind(agg: Agg, kind: Kind) -> Kind
    ensures { result ≡ spec.agg_kind agg kind }
{
    match agg {
        Agg::Count | Agg::Sum | Agg::Sum0 => Kind::Integer,
        Agg::Min | Agg::Max => kind,
    }
}

fn agg_clash(place: u64, agg: Agg, a: Judged) -> Option<u64>
    ensures { result ≡ lowest (spec.agg_clash place agg (bare a)) }
{
    match agg {
        Agg::Sum | Agg::Sum0 => unless(a.kind.is(Kind::Integer), place),
        Agg::Count | Agg::Min | Agg::Max => None,
    }
}

fn aggregate(place: u64, agg: Agg, a: Judged) -> Judged
    ensures { result ≡ record {
      kind = spec.agg_kind agg a.kind;
      place = place;
      clash = walks.lower_of (lowest (spec.agg_clash place agg (bare a))) a.clash;
    } }
{
    Judged {
        kind: agg_kind(agg, a.kind),
        place,
        clash: lower_of(agg_clash(place, agg, a), a.clash),
    }
}

fn column_kind(scope: &[Entry<'_>], name: &ColumnName) -> Kind
    ensures { result ≡ spec.column_kind (option_map (λ t. t.kind) (type_in scope.now name.now)) }
{
    match column_type(scope, name) {
        Some(t) => t.kind,
        None => Kind::Boolean,
    }
}

#[tactic(auto, using(crate::proofs::Lowest::lowest_rules))]
fn judge(tree: &Tree, scope: &[Entry<'_>]) -> Judged
    ensures { result ≡ judged_of (kinded scope.now tree.now) }
{
    match tree {
        Tree::Column { place, name } => Judged {
            kind: column_kind(scope, name),
            place: *place,
            clash: None,
        },
        Tree::Literal { place, value } => literal(*place, value),
        Tree::Negate { place, operand } => {
            let a = judge(operand.get(), scope);
            Judged {
                kind: Kind::Integer,
                place: *place,
                clash: lower_of(unless(a.kind.is(Kind::Integer), *place), a.clash),
            }
        }
        Tree::Binary {
            place,
            op,
            left,
            right,
        } => {
            let a = judge(left.get(), scope);
            let b = judge(right.get(), scope);
            Judged {
                kind: op_kind(*op),
                place: *place,
                clash: lower_of(lower_of(a.clash, op_clash(*place, *op, a, b)), b.clash),
            }
        }
        Tree::Not { place, operand } => {
            let a = judge(operand.get(), scope);
            Judged {
                kind: Kind::Boolean,
                place: *place,
                clash: lower_of(not_boolean(a), a.clash),
            }
        }
        Tree::IsNull { place, operand } => Judged {
            kind: Kind::Boolean,
            place: *place,
            clash: judge(operand.get(), scope).clash,
        },
        Tree::Aggregate {
            place,
            agg,
            argument,
        } => match argument {
            Some(argument) => aggregate(*place, *agg, judge(argument.get(), scope)),
            None => Judged {
                kind: Kind::Integer,
                place: *place,
                clash: None,
            },
        },
    }
}

fn is_condition(role: Role) -> bool
    ensures { result ≡ parts.is_condition role }
{
    !matches!(role, Role::Item)
}

#[tactic(auto, using(crate::proofs::Lowest::lowest_rules))]
fn condition_clash(tree: &Tree, scope: &[Entry<'_>]) -> Option<u64>
    ensures { result ≡ lowest (spec.condition_clashes scope.now tree.now) }
{
    let a = judge(tree, scope);
    lower_of(not_boolean(a), a.clash)
}

fn part_clash(part: &SelectPart, scope: &[Entry<'_>]) -> Option<u64>
    ensures { result ≡ lowest (part_clashes scope.now part.now) }
{
    let scope = seen(scope, part.entries);
    if is_condition(part.role) {
        condition_clash(&part.tree, scope)
    } else {
        judge(&part.tree, scope).clash
    }
}

/// The lowest place at which kinds don't go together, each part over the entries that it sees. Takes no memory.
pub fn type_clash(parts: &[SelectPart], scope: &[Entry<'_>]) -> Option<u64>
    ensures { result ≡ lowest (flat_map (part_clashes scope.now) parts.now) }
{
    let mut found = None;
    for part in parts {
        found = lower_of(found, part_clash(part, scope));
    }
    found
}
