use crate::{Expr, Op, eval, expr_type};
use cal_value::{Interval, List, NUMBER_LIMIT, NoMemory, Row, SqlText, SqlType, Value, has_types};
use std::alloc::Global;
use std::test::Fail;

fn list_of<T: Drop, const N: usize>(alloc: Global, items: [T; N]) -> Result<List<T>, NoMemory> {
    Ok(List::from_vec(Vec::from_array(alloc, items)?))
}

fn range(lo: i128, hi: i128) -> Interval {
    Interval::Range { lo, hi }
}

fn number(n: i128) -> Expr {
    Expr::Literal(Value::Int(n))
}

// The value, where the row has the types and the expression is well formed over them.
fn value_of(
    alloc: Global,
    expr: &Expr,
    columns: &List<SqlType>,
    row: &Row,
) -> Result<Option<Value>, NoMemory> {
    if !has_types(row, columns) || expr_type(expr, columns).is_none() {
        return Ok(None);
    }
    Ok(Some(eval(alloc, expr, row)?))
}

// The value of an operator over two columns of these types.
fn applied(
    alloc: Global,
    op: Op,
    types: (SqlType, SqlType),
    a: Value,
    b: Value,
) -> Result<Option<Value>, NoMemory> {
    let expr = Expr::binary(alloc, op, Expr::Column(0), Expr::Column(1))?;
    let columns = list_of(alloc, [types.0, types.1])?;
    let row = list_of(alloc, [a, b])?;
    value_of(alloc, &expr, &columns, &row)
}

fn number_or_null(n: Option<i128>) -> Value {
    match n {
        Some(n) => Value::Int(n),
        None => Value::Null,
    }
}

// Whether the operator over two numbers, or NULL for none, gives this value.
fn gives(
    alloc: Global,
    op: Op,
    a: Option<i128>,
    b: Option<i128>,
    wanted: &Value,
) -> Result<bool, NoMemory> {
    let types = (
        SqlType::integer(true, range(-10, 10)),
        SqlType::integer(true, range(1, 10)),
    );
    let value = applied(alloc, op, types, number_or_null(a), number_or_null(b))?;
    Ok(value.as_ref() == Some(wanted))
}

// Whether the operator gives this value, and NULL where one of its operands is NULL.
fn gives_or_null(
    alloc: Global,
    op: Op,
    a: i128,
    b: i128,
    wanted: &Value,
) -> Result<bool, NoMemory> {
    let known = gives(alloc, op, Some(a), Some(b), wanted)?;
    let left = gives(alloc, op, None, Some(b), &Value::Null)?;
    let right = gives(alloc, op, Some(a), None, &Value::Null)?;
    let both = gives(alloc, op, None, None, &Value::Null)?;
    Ok(known && left && right && both)
}

const SUMS: &[(Op, i128, i128, i128)] = &[
    (Op::Add, -3, 2, -1),
    (Op::Subtract, -3, 2, -5),
    (Op::Multiply, -3, 2, -6),
    (Op::Divide, -3, 2, -1),
    (Op::Divide, 3, 2, 1),
];

const COMPARISONS: &[(Op, i128, i128, bool)] = &[
    (Op::Equal, 2, 2, true),
    (Op::NotEqual, 2, 2, false),
    (Op::Less, 2, 2, false),
    (Op::LessEqual, 2, 2, true),
    (Op::Greater, 3, 2, true),
    (Op::GreaterEqual, 1, 2, false),
];

#[test]
fn operators_over_numbers_and_null(rt: HostRuntime) -> Result<(), Fail> {
    let alloc = rt.alloc();
    for (op, a, b, wanted) in SUMS {
        let given = gives_or_null(alloc, *op, *a, *b, &Value::Int(*wanted))?;
        assert!(rt; given, "{op:?}");
    }
    for (op, a, b, wanted) in COMPARISONS {
        let given = gives_or_null(alloc, *op, *a, *b, &Value::Bool(*wanted))?;
        assert!(rt; given, "{op:?}");
    }
    Ok(())
}

// Whether the operator over two truth values, or NULL for none, gives this one.
fn gives_truth(
    alloc: Global,
    op: Op,
    a: Option<bool>,
    b: Option<bool>,
    wanted: Option<bool>,
) -> Result<bool, NoMemory> {
    let truth = SqlType::boolean(true);
    let value = applied(
        alloc,
        op,
        (truth, truth),
        Value::of_truth(a),
        Value::of_truth(b),
    )?;
    Ok(value == Some(Value::of_truth(wanted)))
}

// Two truth values, their AND and their OR.
const TRUTHS: &[(Option<bool>, Option<bool>, Option<bool>, Option<bool>)] = &[
    (Some(true), Some(true), Some(true), Some(true)),
    (Some(true), Some(false), Some(false), Some(true)),
    (Some(true), None, None, Some(true)),
    (Some(false), Some(true), Some(false), Some(true)),
    (Some(false), Some(false), Some(false), Some(false)),
    (Some(false), None, Some(false), None),
    (None, Some(true), None, Some(true)),
    (None, Some(false), Some(false), None),
    (None, None, None, None),
];

#[test]
fn connectives_over_truth_values(rt: HostRuntime) -> Result<(), Fail> {
    let alloc = rt.alloc();
    for (a, b, both, one) in TRUTHS {
        let is_and = gives_truth(alloc, Op::And, *a, *b, *both)?;
        let is_or = gives_truth(alloc, Op::Or, *a, *b, *one)?;
        assert!(rt; is_and && is_or, "{a:?} {b:?}");
    }
    let is_less = gives_truth(alloc, Op::Less, Some(false), Some(true), Some(true))?;
    assert!(rt; is_less);
    Ok(())
}

fn truth_and_number(alloc: Global) -> Result<List<SqlType>, NoMemory> {
    list_of(
        alloc,
        [SqlType::boolean(true), SqlType::integer(true, range(-5, 7))],
    )
}

// Whether the expression over a truth value and a number, or NULL for none, gives this value.
fn gives_of_row(
    alloc: Global,
    expr: &Expr,
    truth: Option<bool>,
    number: Option<i128>,
    wanted: &Value,
) -> Result<bool, NoMemory> {
    let columns = truth_and_number(alloc)?;
    let row = list_of(alloc, [Value::of_truth(truth), number_or_null(number)])?;
    let value = value_of(alloc, expr, &columns, &row)?;
    Ok(value.as_ref() == Some(wanted))
}

// Whether the expression has this type, and gives these values of FALSE and 7 and of two NULLs.
fn is_of_one(
    alloc: Global,
    expr: &Expr,
    of: SqlType,
    known: &Value,
    null: &Value,
) -> Result<bool, NoMemory> {
    let columns = truth_and_number(alloc)?;
    let is_known = gives_of_row(alloc, expr, Some(false), Some(7), known)?;
    let is_null = gives_of_row(alloc, expr, None, None, null)?;
    Ok(expr_type(expr, &columns) == Some(of) && is_known && is_null)
}

#[test]
fn negations_of_truth(rt: HostRuntime) -> Result<(), Fail> {
    let alloc = rt.alloc();
    let not = Expr::not(alloc, Expr::Column(0))?;
    let truth = SqlType::boolean(true);
    let is_right = is_of_one(alloc, &not, truth, &Value::Bool(true), &Value::Null)?;
    assert!(rt; is_right);
    Ok(())
}

#[test]
fn negations_of_numbers(rt: HostRuntime) -> Result<(), Fail> {
    let alloc = rt.alloc();
    let negated = Expr::negate(alloc, Expr::Column(1))?;
    let number = SqlType::integer(true, range(-7, 5));
    let is_right = is_of_one(alloc, &negated, number, &Value::Int(-7), &Value::Null)?;
    assert!(rt; is_right);
    Ok(())
}

#[test]
fn tests_for_null(rt: HostRuntime) -> Result<(), Fail> {
    let alloc = rt.alloc();
    let is_null = Expr::is_null(alloc, Expr::Column(1))?;
    let truth = SqlType::boolean(false);
    let is_right = is_of_one(
        alloc,
        &is_null,
        truth,
        &Value::Bool(false),
        &Value::Bool(true),
    )?;
    assert!(rt; is_right);
    Ok(())
}

// Four columns: SMALLINT, INTEGER, BIGINT that may be NULL, and a text.
fn columns_of_sizes(alloc: Global) -> Result<List<SqlType>, NoMemory> {
    list_of(
        alloc,
        [
            SqlType::integer(false, range(-32768, 32767)),
            SqlType::integer(false, range(-2147483648, 2147483647)),
            SqlType::integer(true, range(-9223372036854775808, 9223372036854775807)),
            SqlType::text(false),
        ],
    )
}

// Whether the operator over two of these columns has this type.
fn has_type(
    alloc: Global,
    op: Op,
    left: u32,
    right: u32,
    wanted: Option<SqlType>,
) -> Result<bool, NoMemory> {
    let columns = columns_of_sizes(alloc)?;
    let expr = Expr::binary(alloc, op, Expr::Column(left), Expr::Column(right))?;
    Ok(expr_type(&expr, &columns) == wanted)
}

// An operator over two columns, whether NULL may stand, and the ends of its numbers.
const NUMBERS: &[(Op, u32, u32, bool, i128, i128)] = &[
    (Op::Add, 0, 0, false, -65536, 65534),
    (Op::Subtract, 1, 1, false, -4294967295, 4294967295),
    (
        Op::Multiply,
        0,
        2,
        true,
        -302231454903657293643776,
        302231454903657293676544,
    ),
    (
        Op::Multiply,
        2,
        2,
        true,
        -85070591730234615856620279821087277056,
        85070591730234615865843651857942052864,
    ),
];

const MISFITS: &[(Op, u32, u32)] = &[
    (Op::Divide, 1, 1),
    (Op::Add, 1, 3),
    (Op::Equal, 1, 3),
    (Op::And, 1, 1),
    (Op::Add, 1, 4),
];

#[test]
fn types_of_operators(rt: HostRuntime) -> Result<(), Fail> {
    let alloc = rt.alloc();
    for (op, left, right, nullable, lo, hi) in NUMBERS {
        let of = SqlType::integer(*nullable, range(*lo, *hi));
        let has = has_type(alloc, *op, *left, *right, Some(of))?;
        assert!(rt; has, "{op:?} {left} {right}");
    }
    for (op, left, right) in MISFITS {
        let has = has_type(alloc, *op, *left, *right, None)?;
        assert!(rt; has, "{op:?} {left} {right}");
    }
    let has = has_type(alloc, Op::Less, 0, 2, Some(SqlType::boolean(true)))?;
    assert!(rt; has);
    Ok(())
}

#[test]
fn literals(rt: HostRuntime) -> Result<(), Fail> {
    let columns = columns_of_sizes(rt.alloc())?;
    let widest = NUMBER_LIMIT - 1;
    let of = SqlType::integer(false, range(widest, widest));
    assert!(rt; expr_type(&number(widest), &columns) == Some(of));
    assert!(rt; expr_type(&number(NUMBER_LIMIT), &columns).is_none());
    assert!(rt; expr_type(&Expr::Literal(Value::Null), &columns).is_none());
    Ok(())
}

// Whether the INTEGER column over this divisor has numbers between these ends, or no type.
fn is_divided(alloc: Global, divisor: i128, ends: Option<(i128, i128)>) -> Result<bool, NoMemory> {
    let columns = columns_of_sizes(alloc)?;
    let half = Expr::binary(alloc, Op::Divide, Expr::Column(1), number(divisor))?;
    let wanted = ends.map(|(lo, hi)| SqlType::integer(false, range(lo, hi)));
    Ok(expr_type(&half, &columns) == wanted)
}

#[test]
fn divisors(rt: HostRuntime) -> Result<(), Fail> {
    let alloc = rt.alloc();
    let below = is_divided(alloc, -1, Some((-2147483647, 2147483648)))?;
    let zero = is_divided(alloc, 0, None)?;
    let above = is_divided(alloc, 2, Some((-1073741824, 1073741823)))?;
    assert!(rt; below && zero && above);
    Ok(())
}

// The third column times itself, so many times.
fn power(alloc: Global, count: u32) -> Result<Expr, NoMemory> {
    let mut made = Expr::Column(2);
    for _ in 1..count {
        made = Expr::binary(alloc, Op::Multiply, made, Expr::Column(2))?;
    }
    Ok(made)
}

fn has_some_type(alloc: Global, expr: &Expr) -> Result<bool, NoMemory> {
    let columns = columns_of_sizes(alloc)?;
    Ok(expr_type(expr, &columns).is_some())
}

#[test]
fn a_product_of_three_leaves_the_range(rt: HostRuntime) -> Result<(), Fail> {
    let alloc = rt.alloc();
    let two = has_some_type(alloc, &power(alloc, 2)?)?;
    let three = has_some_type(alloc, &power(alloc, 3)?)?;
    let tested = has_some_type(alloc, &Expr::is_null(alloc, power(alloc, 3)?)?)?;
    assert!(rt; two && !three && !tested);
    Ok(())
}

fn is_less_than_negation(alloc: Global) -> Result<Expr, NoMemory> {
    let two = Expr::negate(alloc, number(2))?;
    Expr::binary(alloc, Op::Less, Expr::Column(1), two)
}

fn is_no_word(alloc: Global) -> Result<Expr, Fail> {
    let word = Expr::Literal(Value::Text(SqlText::of(alloc, "x")?));
    let same = Expr::binary(alloc, Op::Equal, Expr::Column(0), word)?;
    Ok(Expr::not(alloc, same)?)
}

fn tree_of_all(alloc: Global) -> Result<Expr, Fail> {
    let right = is_no_word(alloc)?;
    let left = is_less_than_negation(alloc)?;
    Ok(Expr::binary(alloc, Op::Or, left, right)?)
}

// Whether the copy is equal to the expression, and to no other.
fn is_copied(alloc: Global, expr: &Expr) -> Result<bool, NoMemory> {
    let copy = expr.copy(alloc)?;
    let other = Expr::is_null(alloc, expr.copy(alloc)?)?;
    Ok(copy == *expr && copy != other)
}

#[test]
fn copies_are_equal(rt: HostRuntime) -> Result<(), Fail> {
    let alloc = rt.alloc();
    let whole = tree_of_all(alloc)?;
    let is_copied = is_copied(alloc, &whole)?;
    assert!(rt; is_copied && Expr::Column(1) != Expr::Column(2));
    Ok(())
}
