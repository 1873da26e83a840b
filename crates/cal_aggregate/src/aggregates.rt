//! Aggregates of lists of values, value after value.
ghost use Rattle.std.specs.Prelude.{◌≡◌, IfOk};
ghost use Rattle.cal_value.specs.Held.{IsHeld};
ghost use Rattle.cal_aggregate.specs.Aggregate as spec;
ghost use Rattle.cal_aggregate.specs.Aggregate.{aggregated, combined};
ghost use Rattle.cal_aggregate.specs.Combine.{CanCombine};
ghost use Rattle.cal_aggregate.specs.ResultType.{IsAggregable, IsWellAggregated};

use cal_value::{Agg, Duplicate, List, NoMemory, Value, compare_values};
use std::alloc::Global;

// A number more.
fn plus(so_far: Value, value: &Value) -> Value
    requires { IsHeld (spec.plus so_far value.now) }
    ensures { result ≡ spec.plus so_far value.now }
{
    match (&so_far, value) {
        (Value::Null, Value::Int(y)) => Value::Int(*y),
        (Value::Int(x), Value::Int(y)) => Value::Int(*x + *y),
        _ => so_far,
    }
}

fn lesser(alloc: Global, so_far: Value, value: &Value) -> Result<Value, NoMemory>
    ensures { IfOk result (λ v. v ≡ spec.lesser so_far value.now) }
{
    if so_far.is_null() || compare_values(value, &so_far).is_lt() {
        value.copy(alloc)
    } else {
        Ok(so_far)
    }
}

fn greater(alloc: Global, so_far: Value, value: &Value) -> Result<Value, NoMemory>
    ensures { IfOk result (λ v. v ≡ spec.greater so_far value.now) }
{
    if so_far.is_null() || compare_values(&so_far, value).is_lt() {
        value.copy(alloc)
    } else {
        Ok(so_far)
    }
}

/// What the aggregate is over no value: 0 for COUNT and `Sum0`, else NULL. Takes no memory.
pub fn start_value(agg: Agg) -> Value
    ensures { result ≡ spec.start agg }
{
    match agg {
        Agg::Count | Agg::Sum0 => Value::Int(0),
        Agg::Sum | Agg::Min | Agg::Max => Value::Null,
    }
}

/// What the aggregate is with one value more, from what it was. NULL is skipped.
pub fn combine(alloc: Global, agg: Agg, so_far: Value, value: &Value) -> Result<Value, NoMemory>
    requires { CanCombine agg so_far value.now }
    ensures { IfOk result (λ v. v ≡ combined agg so_far value.now) }
{
    if value.is_null() {
        return Ok(so_far);
    }
    match agg {
        Agg::Count => Ok(plus(so_far, &Value::Int(1))),
        Agg::Sum | Agg::Sum0 => Ok(plus(so_far, value)),
        Agg::Min => lesser(alloc, so_far, value),
        Agg::Max => greater(alloc, so_far, value),
    }
}

/// The aggregate of the values, which is of its type. The values have a type over which the aggregate has one.
pub fn aggregate(alloc: Global, agg: Agg, values: &List<Value>) -> Result<Value, NoMemory>
    requires { IsAggregable agg values.now }
    ensures value { IfOk result (λ v. v ≡ aggregated agg values.now) }
    ensures typed { IfOk result (IsWellAggregated agg values.now) }
{
    let mut so_far = start_value(agg);
    for value in values.as_slice() {
        so_far = combine(alloc, agg, so_far, value)?;
    }
    Ok(so_far)
}
