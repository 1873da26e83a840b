ghost use Rattle.std.specs.Prelude.{◌≡◌, IfOk};
ghost use Rattle.std.specs.Cmp.Lexicographic.{pointwise};
ghost use Rattle.cal_rel.specs.Equal.{agg_eq, call_eq, interval_eq, type_eq, join_kind_eq};

use cal_expr::Expr;
use cal_schema::{AggCall, JoinKind};
use cal_value::{Agg, Duplicate, Interval, List, NoMemory, SqlType};
use sqlite_items::Boxed;
use std::alloc::Global;

/// A relational tree. Columns are named by their places from 0, those of a join's right rows behind those of its left
/// rows. A scan names a table by its number, a tile by its place among the tiles, a star by its lattice; a hole names a set.
#[derive(Debug, Drop)]
pub enum Rel {
    Scan(u32),
    TileScan(u32),
    StarScan {
        lattice: u32,
    },
    Filter {
        input: Boxed<Rel>,
        predicate: Expr,
    },
    Project {
        input: Boxed<Rel>,
        items: List<Expr>,
    },
    Join {
        kind: JoinKind,
        left: Boxed<Rel>,
        right: Boxed<Rel>,
        on: Expr,
    },
    Aggregate {
        input: Boxed<Rel>,
        groups: List<u32>,
        calls: List<AggCall>,
    },
    Empty(List<SqlType>),
    Hole(u32),
}

impl Rel {
    /// The rows of the input of which the predicate is TRUE.
    pub fn filter(alloc: Global, input: Rel, predicate: Expr) -> Result<Rel, NoMemory>
        ensures { IfOk result (λ rel. rel ≡ Rel.Filter input predicate) }
    {
        let input = Boxed::new(alloc, input)?;
        Ok(Rel::Filter { input, predicate })
    }

    /// The items of each row of the input.
    pub fn project(alloc: Global, input: Rel, items: List<Expr>) -> Result<Rel, NoMemory>
        ensures { IfOk result (λ rel. rel ≡ Rel.Project input items) }
    {
        let input = Boxed::new(alloc, input)?;
        Ok(Rel::Project { input, items })
    }

    /// Each row of the left side with each of the right side of which the condition is TRUE.
    pub fn join(
        alloc: Global,
        kind: JoinKind,
        left: Rel,
        right: Rel,
        on: Expr,
    ) -> Result<Rel, NoMemory>
        ensures { IfOk result (λ rel. rel ≡ Rel.Join kind left right on) }
    {
        let left = Boxed::new(alloc, left)?;
        let right = Boxed::new(alloc, right)?;
        Ok(Rel::Join {
            kind,
            left,
            right,
            on,
        })
    }

    /// For each group of the input's rows the group columns and the aggregates.
    pub fn aggregate(
        alloc: Global,
        input: Rel,
        groups: List<u32>,
        calls: List<AggCall>,
    ) -> Result<Rel, NoMemory>
        ensures { IfOk result (λ rel. rel ≡ Rel.Aggregate input groups calls) }
    {
        let input = Boxed::new(alloc, input)?;
        Ok(Rel::Aggregate {
            input,
            groups,
            calls,
        })
    }

    /// An equal tree.
    pub fn copy(&self, alloc: Global) -> Result<Rel, NoMemory>
        ensures { IfOk result (λ copy. copy ≡ self.now) }
    {
        match self {
            Rel::Scan(table) => Ok(Rel::Scan(*table)),
            Rel::TileScan(at) => Ok(Rel::TileScan(*at)),
            Rel::StarScan { lattice } => Ok(Rel::StarScan { lattice: *lattice }),
            Rel::Filter { input, predicate } => {
                let input = Boxed::new(alloc, input.get().copy(alloc)?)?;
                Ok(Rel::Filter {
                    input,
                    predicate: predicate.copy(alloc)?,
                })
            }
            Rel::Project { input, items } => {
                let input = Boxed::new(alloc, input.get().copy(alloc)?)?;
                Ok(Rel::Project {
                    input,
                    items: items.copy(alloc)?,
                })
            }
            Rel::Join {
                kind,
                left,
                right,
                on,
            } => {
                let left = Boxed::new(alloc, left.get().copy(alloc)?)?;
                let right = Boxed::new(alloc, right.get().copy(alloc)?)?;
                Ok(Rel::Join {
                    kind: *kind,
                    left,
                    right,
                    on: on.copy(alloc)?,
                })
            }
            Rel::Aggregate {
                input,
                groups,
                calls,
            } => {
                let input = Boxed::new(alloc, input.get().copy(alloc)?)?;
                let groups = groups.copy(alloc)?;
                Ok(Rel::Aggregate {
                    input,
                    groups,
                    calls: calls.copy(alloc)?,
                })
            }
            Rel::Empty(types) => Ok(Rel::Empty(types.copy(alloc)?)),
            Rel::Hole(set) => Ok(Rel::Hole(*set)),
        }
    }
}

impl Duplicate for Rel {
    fn copy(&self, alloc: Global) -> Result<Rel, NoMemory> {
        Rel::copy(self, alloc)
    }
}

fn is_same_agg(a: Agg, b: Agg) -> bool
    ensures { result ≡ agg_eq a b }
{
    a as u8 == b as u8
}

fn is_same_call(a: AggCall, b: AggCall) -> bool
    ensures { result ≡ call_eq a b }
{
    is_same_agg(a.agg, b.agg) && a.argument == b.argument
}

fn are_same_calls(a: &[AggCall], b: &[AggCall]) -> bool
    ensures { result ≡ pointwise call_eq a.now b.now }
{
    match (a, b) {
        ([], []) => true,
        ([call, calls @ ..], [other, others @ ..]) => {
            is_same_call(*call, *other) && are_same_calls(calls, others)
        }
        _ => false,
    }
}

fn is_same_interval(a: Interval, b: Interval) -> bool
    ensures { result ≡ interval_eq a b }
{
    match (a, b) {
        (Interval::Never, Interval::Never) => true,
        (Interval::Range { lo, hi }, Interval::Range { lo: low, hi: high }) => {
            lo == low && hi == high
        }
        _ => false,
    }
}

fn is_same_type(a: SqlType, b: SqlType) -> bool
    ensures { result ≡ type_eq a b }
{
    a.kind.is(b.kind) && a.nullable == b.nullable && is_same_interval(a.interval, b.interval)
}

fn are_same_types(a: &[SqlType], b: &[SqlType]) -> bool
    ensures { result ≡ pointwise type_eq a.now b.now }
{
    match (a, b) {
        ([], []) => true,
        ([t, types @ ..], [other, others @ ..]) => {
            is_same_type(*t, *other) && are_same_types(types, others)
        }
        _ => false,
    }
}

fn is_same_kind(a: JoinKind, b: JoinKind) -> bool
    ensures { result ≡ join_kind_eq a b }
{
    match (a, b) {
        (JoinKind::Inner, JoinKind::Inner) | (JoinKind::Left, JoinKind::Left) => true,
        _ => false,
    }
}

impl PartialEq for Rel {
    ghost use Rattle.std.specs.Cmp.{partial_equiv_from_equiv};
    ghost use Rattle.cal_rel.specs.Equal.{rel_eq};
    ghost use Rattle.cal_rel.specs.EqualLaws.{rel_eq_equiv};

    ghost eq = { rel_eq };

    ghost laws = { partial_equiv_from_equiv rel_eq_equiv };

    fn eq(&self, other: &Rel) -> bool {
        match (self, other) {
            (Rel::Scan(x), Rel::Scan(y)) => *x == *y,
            (Rel::TileScan(x), Rel::TileScan(y)) => *x == *y,
            (Rel::StarScan { lattice: x }, Rel::StarScan { lattice: y }) => *x == *y,
            (
                Rel::Filter { input, predicate },
                Rel::Filter {
                    input: other_input,
                    predicate: other_predicate,
                },
            ) => *predicate == *other_predicate && *input.get() == *other_input.get(),
            (
                Rel::Project { input, items },
                Rel::Project {
                    input: other_input,
                    items: other_items,
                },
            ) => *items == *other_items && *input.get() == *other_input.get(),
            (
                Rel::Join {
                    kind,
                    left,
                    right,
                    on,
                },
                Rel::Join {
                    kind: other_kind,
                    left: first,
                    right: second,
                    on: other_on,
                },
            ) => is_same_kind(*kind, *other_kind)
                && *on == *other_on
                && *left.get() == *first.get()
                && *right.get() == *second.get(),
            (
                Rel::Aggregate {
                    input,
                    groups,
                    calls,
                },
                Rel::Aggregate {
                    input: other_input,
                    groups: other_groups,
                    calls: other_calls,
                },
            ) => *groups == *other_groups
                && are_same_calls(calls.as_slice(), other_calls.as_slice())
                && *input.get() == *other_input.get(),
            (Rel::Empty(x), Rel::Empty(y)) => are_same_types(x.as_slice(), y.as_slice()),
            (Rel::Hole(x), Rel::Hole(y)) => *x == *y,
            _ => false,
        }
    }
}

impl Eq for Rel {
    ghost use Rattle.cal_rel.specs.EqualLaws.{rel_eq_equiv};

    ghost laws = { rel_eq_equiv };
}
