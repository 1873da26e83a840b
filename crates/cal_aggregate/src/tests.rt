use crate::{aggregate, combine, result_type, start_value};
use cal_value::{Agg, Interval, List, NUMBER_LIMIT, NoMemory, SqlText, SqlType, Value};
use std::alloc::Global;
use std::test::Fail;

fn list_of<T: Drop, const N: usize>(alloc: Global, items: [T; N]) -> Result<List<T>, NoMemory> {
    Ok(List::from_vec(Vec::from_array(alloc, items)?))
}

fn word(alloc: Global, text: &str) -> Result<Value, Fail> {
    Ok(Value::Text(SqlText::of(alloc, text)?))
}

fn range(lo: i128, hi: i128) -> Interval {
    Interval::Range { lo, hi }
}

// The aggregate, where the values have the type and it has one over so many of them.
fn aggregate_of(
    alloc: Global,
    agg: Agg,
    values: &List<Value>,
    t: SqlType,
) -> Result<Option<Value>, NoMemory> {
    if !t.holds_all(values) || result_type(agg, Some(t), values.len() as u128).is_none() {
        return Ok(None);
    }
    Ok(Some(aggregate(alloc, agg, values)?))
}

#[test]
fn aggregates_skip_null(rt: HostRuntime) -> Result<(), Fail> {
    let alloc = rt.alloc();
    let number = SqlType::integer(true, range(-5, 5));
    let some = list_of(
        alloc,
        [
            Value::Null,
            Value::Int(3),
            Value::Int(-5),
            Value::Null,
            Value::Int(3),
        ],
    )?;
    let nulls = list_of(alloc, [Value::Null, Value::Null])?;
    let table = [
        (Agg::Count, Value::Int(3), Value::Int(0)),
        (Agg::Sum, Value::Int(1), Value::Null),
        (Agg::Sum0, Value::Int(1), Value::Int(0)),
        (Agg::Min, Value::Int(-5), Value::Null),
        (Agg::Max, Value::Int(3), Value::Null),
    ];
    for (agg, of_some, of_none) in &table {
        assert!(rt; aggregate_of(alloc, *agg, &some, number)?.as_ref() == Some(of_some));
        assert!(rt; aggregate_of(alloc, *agg, &nulls, number)?.as_ref() == Some(of_none));
        assert!(rt; start_value(*agg) == *of_none);
    }
    Ok(())
}

#[test]
fn texts_have_a_least_and_a_greatest(rt: HostRuntime) -> Result<(), Fail> {
    let alloc = rt.alloc();
    let words = list_of(alloc, [word(alloc, "b")?, Value::Null, word(alloc, "ab")?])?;
    let text = SqlType::text(true);
    let least = aggregate_of(alloc, Agg::Min, &words, text)?;
    assert!(rt; least == Some(word(alloc, "ab")?));
    let greatest = combine(alloc, Agg::Max, word(alloc, "ab")?, &word(alloc, "b")?)?;
    assert!(rt; greatest == word(alloc, "b")?);
    assert!(rt; aggregate_of(alloc, Agg::Sum, &words, text)?.is_none());
    Ok(())
}

#[test]
fn aggregates_have_their_types(rt: HostRuntime) {
    let all = NUMBER_LIMIT as u128;
    let table = [
        (Agg::Count, range(0, 1), 5, Some((false, range(0, 5)))),
        (Agg::Count, range(0, 1), all, None),
        (Agg::Sum, range(-2, 3), 4, Some((true, range(-8, 12)))),
        (Agg::Sum, range(2, 3), 4, Some((true, range(2, 12)))),
        (Agg::Sum, range(2, 3), 0, Some((true, range(2, 3)))),
        (Agg::Sum, range(1, 1), all, None),
        (Agg::Sum, range(0, 0), all, Some((true, range(0, 0)))),
        (Agg::Sum, Interval::Never, 4, Some((true, Interval::Never))),
        (Agg::Sum0, range(2, 3), 4, Some((false, range(0, 12)))),
        (Agg::Sum0, Interval::Never, 4, Some((false, range(0, 0)))),
        (Agg::Min, range(2, 3), 4, Some((true, range(2, 3)))),
        (Agg::Max, range(2, 3), 4, Some((true, range(2, 3)))),
    ];
    for (agg, interval, bound, wanted) in table {
        let argument = Some(SqlType::integer(false, interval));
        let wanted = wanted.map(|(nullable, interval)| SqlType::integer(nullable, interval));
        assert_eq!(rt; result_type(agg, argument, bound), wanted);
    }
}

#[test]
fn count_alone_takes_no_argument(rt: HostRuntime) {
    let text = SqlType::text(false);
    let table = [
        (Agg::Count, None, Some(SqlType::integer(false, range(0, 7)))),
        (
            Agg::Count,
            Some(text),
            Some(SqlType::integer(false, range(0, 7))),
        ),
        (Agg::Sum, None, None),
        (Agg::Sum, Some(text), None),
        (Agg::Sum0, None, None),
        (Agg::Min, None, None),
        (Agg::Max, None, None),
        (Agg::Max, Some(text), Some(SqlType::text(true))),
    ];
    for (agg, argument, wanted) in table {
        assert_eq!(rt; result_type(agg, argument, 7), wanted);
    }
}
