//! The types of expressions, and those that may leave the range of numbers.
ghost use Rattle.std.specs.Prelude.{◌≡◌, Some};
ghost use Rattle.std.specs.List.{flat_map};
ghost use Rattle.std.specs.Option.{option_and_then};
ghost use Rattle.cal_value.specs.Interval.{negated};
ghost use Rattle.cal_value.specs.Types as types;
ghost use Rattle.cal_aggregate.specs.ResultType.{agg_type};
ghost use Rattle.cal_expr.specs.Typing as typing;
ghost use Rattle.sql_meaning.specs.Refused.{nearest};
ghost use Rattle.sql_meaning.specs.Sizes as spec;
ghost use Rattle.sql_meaning.specs.Sizes.{sized, part_misfits};
ghost use Rattle.sql_types.specs.Walks as walks;
ghost use Rattle.sql_types.specs.Walks.{weighed_of};

use crate::seen::seen;
use cal_aggregate::{count_interval, result_type, sum_interval, with_zero};
use cal_expr::{column_type, literal_type, negation_type, not_type, op_type};
use cal_value::{Agg, Interval, Kind, Op, SqlType, Value, cut_at_limit};
use sql_meaning::{Entry, Misfit, SelectPart, column_type as type_of_column};
use sql_tree::Tree;

/// The type of an expression, where it has one, and in it the misfit with the lowest place.
#[derive(Clone, Copy, Debug)]
pub(crate) struct Weighed {
    pub(crate) kind: Option<SqlType>,
    pub(crate) misfit: Option<Misfit>,
}

fn nearer_of(a: Option<Misfit>, b: Option<Misfit>) -> Option<Misfit>
    ensures { result ≡ walks.nearer_of a b }
{
    match (a, b) {
        (Some(m), Some(n)) => Some(if n.place < m.place { n } else { m }),
        (Some(m), None) => Some(m),
        (None, other) => other,
    }
}

fn told(place: u64, interval: Interval) -> Option<Misfit>
    ensures { result ≡ nearest (spec.told place interval) }
{
    match interval {
        Interval::Never => None,
        Interval::Range { lo, hi } => Some(Misfit {
            place,
            lo: cut_at_limit(lo),
            hi: cut_at_limit(hi),
        }),
    }
}

fn own(place: u64, interval: Interval) -> Option<Misfit>
    ensures { result ≡ nearest (spec.own place interval) }
{
    if interval.is_in_range() {
        None
    } else {
        told(place, interval)
    }
}

#[tactic(auto, using(crate::proofs::Nearest::own_rules))]
fn quotient_own(place: u64, s: SqlType, t: SqlType) -> Option<Misfit>
    ensures { result ≡ nearest (spec.quotient_own place s t) }
{
    if t.interval.excludes_zero() {
        own(place, s.interval.quotient(t.interval))
    } else {
        told(place, t.interval)
    }
}

#[tactic(auto, using(crate::proofs::Nearest::own_rules))]
fn op_own(place: u64, op: Op, s: SqlType, t: SqlType) -> Option<Misfit>
    ensures { result ≡ nearest (spec.op_own place op s t) }
{
    match op {
        Op::Add => own(place, s.interval.sum(t.interval)),
        Op::Subtract => own(place, s.interval.difference(t.interval)),
        Op::Multiply => own(place, s.interval.product(t.interval)),
        Op::Divide => quotient_own(place, s, t),
        _ => None,
    }
}

fn parts_own(place: u64, op: Op, a: Option<SqlType>, b: Option<SqlType>) -> Option<Misfit>
    ensures { result ≡ nearest (spec.of_parts (spec.op_own place op) a b) }
{
    match (a, b) {
        (Some(s), Some(t)) => op_own(place, op, s, t),
        _ => None,
    }
}

fn parts_type(op: Op, a: Option<SqlType>, b: Option<SqlType>) -> Option<SqlType>
    ensures { result ≡ typing.of_both (typing.op_type op) a b }
{
    match (a, b) {
        (Some(s), Some(t)) => op_type(op, s, t),
        _ => None,
    }
}

fn is_integer(t: SqlType) -> bool
    ensures { result ≡ types.is_integer t }
{
    matches!(t.kind, Kind::Integer)
}

fn column(place: u64, found: Option<SqlType>) -> Weighed
    ensures { result ≡ record {
      kind = option_and_then typing.column_type found;
      misfit = nearest (spec.of_part (spec.column_own place) found);
    } }
{
    match found {
        None => Weighed {
            kind: None,
            misfit: None,
        },
        Some(t) => Weighed {
            kind: column_type(t),
            misfit: if is_integer(t) {
                own(place, t.interval)
            } else {
                None
            },
        },
    }
}

fn literal(place: u64, value: &Value) -> Weighed
    ensures { result ≡ record {
      kind = typing.literal_type value.now;
      misfit = nearest (spec.literal_own place value.now);
    } }
{
    let misfit = match value {
        Value::Int(n) => own(place, Interval::Range { lo: *n, hi: *n }),
        _ => None,
    };
    Weighed {
        kind: literal_type(value),
        misfit,
    }
}

#[tactic(auto, using(crate::proofs::Nearest::own_rules))]
fn negation(place: u64, operand: Option<SqlType>) -> Weighed
    ensures { result ≡ record {
      kind = option_and_then typing.negation_type operand;
      misfit = nearest (spec.of_part (λ t. spec.own place (negated t.interval)) operand);
    } }
{
    match operand {
        None => Weighed {
            kind: None,
            misfit: None,
        },
        Some(t) => Weighed {
            kind: negation_type(t),
            misfit: own(place, t.interval.negation()),
        },
    }
}

#[tactic(auto, using(crate::proofs::Nearest::own_rules))]
fn agg_own(rows: u128, place: u64, agg: Agg, t: SqlType) -> Option<Misfit>
    ensures { result ≡ nearest (spec.agg_own rows place agg t) }
{
    match agg {
        Agg::Count => own(place, count_interval(rows)),
        Agg::Sum => own(place, sum_interval(t.interval, rows)),
        Agg::Sum0 => own(place, with_zero(sum_interval(t.interval, rows))),
        Agg::Min | Agg::Max => None,
    }
}

fn argument_own(rows: u128, place: u64, agg: Agg, a: Option<SqlType>) -> Option<Misfit>
    ensures { result ≡ nearest (spec.of_part (spec.agg_own rows place agg) a) }
{
    match a {
        None => None,
        Some(t) => agg_own(rows, place, agg, t),
    }
}

fn argument_type(rows: u128, agg: Agg, a: Option<SqlType>) -> Option<SqlType>
    ensures { result ≡ option_and_then (λ t. agg_type agg (Some t) rows) a }
{
    match a {
        None => None,
        Some(t) => result_type(agg, Some(t), rows),
    }
}

fn aggregate(rows: u128, place: u64, agg: Agg, a: Weighed) -> Weighed
    ensures { result ≡ record {
      kind = option_and_then (λ t. agg_type agg (Some t) rows) a.kind;
      misfit = walks.nearer_of
          (nearest (spec.of_part (spec.agg_own rows place agg) a.kind)) a.misfit;
    } }
{
    Weighed {
        kind: argument_type(rows, agg, a.kind),
        misfit: nearer_of(argument_own(rows, place, agg, a.kind), a.misfit),
    }
}

#[tactic(auto, using(crate::proofs::Nearest::nearest_rules))]
fn weigh(rows: u128, tree: &Tree, scope: &[Entry<'_>]) -> Weighed
    ensures { result ≡ weighed_of (sized rows scope.now tree.now) }
{
    match tree {
        Tree::Column { place, name } => column(*place, type_of_column(scope, name)),
        Tree::Literal { place, value } => literal(*place, value),
        Tree::Negate { place, operand } => {
            let a = weigh(rows, operand.get(), scope);
            let own = negation(*place, a.kind);
            Weighed {
                kind: own.kind,
                misfit: nearer_of(own.misfit, a.misfit),
            }
        }
        Tree::Binary {
            place,
            op,
            left,
            right,
        } => {
            let a = weigh(rows, left.get(), scope);
            let b = weigh(rows, right.get(), scope);
            let own = parts_own(*place, *op, a.kind, b.kind);
            Weighed {
                kind: parts_type(*op, a.kind, b.kind),
                misfit: nearer_of(nearer_of(a.misfit, own), b.misfit),
            }
        }
        Tree::Not { operand, .. } => {
            let a = weigh(rows, operand.get(), scope);
            Weighed {
                kind: a.kind.and_then(|t| not_type(t)),
                misfit: a.misfit,
            }
        }
        Tree::IsNull { operand, .. } => {
            let a = weigh(rows, operand.get(), scope);
            Weighed {
                kind: a.kind.map(|_| SqlType::boolean(false)),
                misfit: a.misfit,
            }
        }
        Tree::Aggregate {
            place,
            agg,
            argument,
        } => match argument {
            Some(argument) => aggregate(rows, *place, *agg, weigh(rows, argument.get(), scope)),
            None => Weighed {
                kind: result_type(Agg::Count, None, rows),
                misfit: own(*place, count_interval(rows)),
            },
        },
    }
}

fn part_misfit(rows: u128, part: &SelectPart, scope: &[Entry<'_>]) -> Option<Misfit>
    ensures { result ≡ nearest (part_misfits rows scope.now part.now) }
{
    weigh(rows, &part.tree, seen(scope, part.entries)).misfit
}

/// The misfit with the lowest place, each part over the entries that it sees, and aggregates over at most so many rows.
/// Takes no memory.
pub fn nearest_misfit(rows: u128, parts: &[SelectPart], scope: &[Entry<'_>]) -> Option<Misfit>
    ensures { result ≡ nearest (flat_map (part_misfits rows scope.now) parts.now) }
{
    let mut found = None;
    for part in parts {
        found = nearer_of(found, part_misfit(rows, part, scope));
    }
    found
}

/// The type of an expression over the columns of these entries, where it has one, and aggregates over at most so many
/// rows. Takes no memory.
pub fn tree_type(rows: u128, tree: &Tree, scope: &[Entry<'_>]) -> Option<SqlType>
    ensures { result ≡ spec.tree_type rows scope.now tree.now }
{
    weigh(rows, tree, scope).kind
}
