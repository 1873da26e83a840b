ghost use Rattle.std.specs.Prelude.{◌≡◌, IsTrue};

use cal_value::{
    Duplicate, Interval, KeyOrder, Kind, List, NUMBER_LIMIT, NoMemory, Row, SqlText, SqlType,
    Steps, TEXT_LIMIT, TextFault, Value, and3, characters, compare, compare_rows, copy_row,
    cut_at_limit, cut_product, has_types, is_in_order, not3, or3, push_characters, same_bag,
    value_at, values_at,
};
use std::alloc::Global;
use std::cmp::Ordering;
use std::marker::Brand;
use std::sync::ledger::{Blank, Ledger};
use std::test::Fail;

// A text of `count` letters and one more.
fn long_text(alloc: Global, count: usize, last: char) -> Result<SqlText, Fail> {
    let mut text = String::new(alloc);
    for _ in 0..count {
        text.push('a')?;
    }
    text.push(last)?;
    Ok(SqlText::of(alloc, text.as_str())?)
}

fn word(alloc: Global, text: &str) -> Result<Value, Fail> {
    Ok(Value::Text(SqlText::of(alloc, text)?))
}

fn key(column: u32, descending: bool, nulls_first: bool) -> KeyOrder {
    KeyOrder {
        column,
        descending,
        nulls_first,
    }
}

fn list_of<T: Drop, const N: usize>(alloc: Global, items: [T; N]) -> Result<List<T>, NoMemory> {
    Ok(List::from_vec(Vec::from_array(alloc, items)?))
}

fn letters(alloc: Global, count: usize) -> Result<String, Fail> {
    let mut text = String::new(alloc);
    for _ in 0..count {
        text.push('a')?;
    }
    Ok(text)
}

// Whether the text has these characters, and its copy is equal to it.
fn is_text_of(alloc: Global, text: &str, characters: &[char]) -> Result<bool, Fail> {
    let text = SqlText::of(alloc, text)?;
    let copy = text.copy(alloc)?;
    Ok(text.as_slice() == characters && copy == text)
}

fn is_too_long(alloc: Global, text: &str) -> bool {
    match SqlText::of(alloc, text) {
        Ok(_) => false,
        Err(fault) => fault == TextFault::TooLong { limit: TEXT_LIMIT },
    }
}

#[test]
fn a_text_has_a_greatest_length(rt: HostRuntime) -> Result<(), Fail> {
    let alloc = rt.alloc();
    let is_text = is_text_of(alloc, "aß\u{1F600}", &['a', 'ß', '\u{1F600}'])?;
    let longest = long_text(alloc, 3999, 'b')?;
    let longer = letters(alloc, 4001)?;
    assert!(rt; is_text && longest.as_slice().len() == 4000);
    assert!(rt; is_too_long(alloc, longer.as_str()));
    Ok(())
}

fn pushed_behind(alloc: Global, front: char, letters: &[char]) -> Result<String, Fail> {
    let mut text = String::new(alloc);
    text.push(front)?;
    push_characters(&mut text, letters)?;
    Ok(text)
}

#[test]
fn characters_go_into_strings_and_back(rt: HostRuntime) -> Result<(), Fail> {
    let alloc = rt.alloc();
    let letters = characters(alloc, "aß\u{1F600}")?;
    let text = pushed_behind(alloc, 'x', letters.as_slice())?;
    assert!(rt; letters.as_slice() == ['a', 'ß', '\u{1F600}'].as_slice());
    assert!(rt; text.as_str() == "xaß\u{1F600}");
    let known = SqlText::from_characters(letters);
    assert!(rt; known.as_slice() == ['a', 'ß', '\u{1F600}'].as_slice());
    Ok(())
}

// The row of 7 and 'x'.
fn seven_and_x(alloc: Global) -> Result<Row, Fail> {
    let word = word(alloc, "x")?;
    Ok(list_of(alloc, [Value::Int(7), word])?)
}

// Whether this value stands in the row of 7 and 'x' at this place.
fn stands_at(alloc: Global, at: usize, wanted: &Value) -> Result<bool, Fail> {
    let row = seven_and_x(alloc)?;
    let value = value_at(alloc, &row, at)?;
    Ok(value == *wanted)
}

fn x_null_seven(alloc: Global) -> Result<Row, Fail> {
    let word = word(alloc, "x")?;
    Ok(list_of(alloc, [word, Value::Null, Value::Int(7)])?)
}

fn stand_at_places(alloc: Global) -> Result<bool, Fail> {
    let row = seven_and_x(alloc)?;
    let wanted = x_null_seven(alloc)?;
    let values = values_at(alloc, &row, [1, 5, 0].as_slice())?;
    Ok(values == wanted)
}

fn row_is_copied(alloc: Global) -> Result<bool, Fail> {
    let row = seven_and_x(alloc)?;
    let copy = copy_row(alloc, &row)?;
    Ok(copy == row)
}

fn option_is_copied(alloc: Global) -> Result<bool, Fail> {
    let word = Some(word(alloc, "x")?);
    let copy = word.copy(alloc)?;
    Ok(copy == word)
}

#[test]
fn values_are_copied_out_of_rows(rt: HostRuntime) -> Result<(), Fail> {
    let alloc = rt.alloc();
    let word = word(alloc, "x")?;
    let is_word = stands_at(alloc, 1, &word)?;
    let is_null = stands_at(alloc, 2, &Value::Null)?;
    let at_places = stand_at_places(alloc)?;
    assert!(rt; is_word && is_null && at_places);
    Ok(())
}

#[test]
fn rows_and_options_are_copied(rt: HostRuntime) -> Result<(), Fail> {
    let alloc = rt.alloc();
    let row = row_is_copied(alloc)?;
    let option = option_is_copied(alloc)?;
    let number = Some(3u32).copy(alloc)?;
    assert!(rt; row && option && number == Some(3));
    Ok(())
}

fn is_below(a: &Value, b: &Value) -> bool {
    compare(a, b, &key(0, false, false)) == Ordering::Less
}

fn is_word_below(alloc: Global, a: &str, b: &str) -> Result<bool, Fail> {
    let a = word(alloc, a)?;
    let b = word(alloc, b)?;
    Ok(is_below(&a, &b))
}

// Whether 3,999 letters and b stand below 3,999 letters and c, and these below b.
fn are_long_words_below(alloc: Global) -> Result<bool, Fail> {
    let first = Value::Text(long_text(alloc, 3999, 'b')?);
    let second = Value::Text(long_text(alloc, 3999, 'c')?);
    let third = word(alloc, "b")?;
    Ok(is_below(&first, &second) && is_below(&second, &third))
}

#[test]
fn values_have_their_order(rt: HostRuntime) -> Result<(), Fail> {
    let alloc = rt.alloc();
    assert!(rt; is_below(&Value::Bool(false), &Value::Bool(true)));
    assert!(rt; is_below(&Value::Int(-3), &Value::Int(2)));
    let long = are_long_words_below(alloc)?;
    let empty = is_word_below(alloc, "", "\0")?;
    let high = is_word_below(alloc, "\u{FFFF}", "\u{10000}")?;
    assert!(rt; long && empty && high);
    Ok(())
}

fn number_or_null(n: Option<i128>) -> Value {
    match n {
        Some(n) => Value::Int(n),
        None => Value::Null,
    }
}

// How two numbers stand, or NULL for none.
fn compared(a: Option<i128>, b: Option<i128>, key: &KeyOrder) -> Ordering {
    let a = number_or_null(a);
    let b = number_or_null(b);
    compare(&a, &b, key)
}

// Whether NULL is told equal to itself and stands so to a value, and so 1 to 2.
fn stands(key: &KeyOrder, null_to_value: Ordering, one_to_two: Ordering) -> bool {
    compared(None, Some(1), key) == null_to_value
        && compared(Some(1), None, key) == null_to_value.reverse()
        && compared(Some(1), Some(2), key) == one_to_two
        && compared(None, None, key) == Ordering::Equal
}

// Whether a key goes down and has NULL first, how NULL then stands to a value, and 1 to 2.
const KEYS: &[(bool, bool, Ordering, Ordering)] = &[
    (false, false, Ordering::Greater, Ordering::Less),
    (false, true, Ordering::Less, Ordering::Less),
    (true, false, Ordering::Greater, Ordering::Greater),
    (true, true, Ordering::Less, Ordering::Greater),
];

#[test]
fn nulls_stand_where_the_key_says(rt: HostRuntime) {
    for (descending, nulls_first, null_to_value, one_to_two) in KEYS {
        let key = key(0, *descending, *nulls_first);
        assert!(rt; stands(&key, *null_to_value, *one_to_two));
    }
}

// A row of two numbers, or NULL for none.
#[derive(Clone, Copy)]
struct Two(Option<i128>, Option<i128>);

const A: Two = Two(None, Some(5));

const B: Two = Two(Some(2), Some(7));

const C: Two = Two(Some(1), None);

const D: Two = Two(Some(1), Some(2));

fn row_of(alloc: Global, two: Two) -> Result<Row, NoMemory> {
    list_of(alloc, [number_or_null(two.0), number_or_null(two.1)])
}

fn rows_of(alloc: Global, all: &[Two]) -> Result<List<Row>, NoMemory> {
    let mut rows = List::new(alloc);
    for two in all {
        let row = row_of(alloc, *two)?;
        rows.push(row)?;
    }
    Ok(rows)
}

fn two_keys(alloc: Global) -> Result<List<KeyOrder>, NoMemory> {
    list_of(alloc, [key(0, true, true), key(1, false, true)])
}

fn compared_rows(alloc: Global, a: Two, b: Two) -> Result<Ordering, NoMemory> {
    let keys = two_keys(alloc)?;
    let a = row_of(alloc, a)?;
    let b = row_of(alloc, b)?;
    Ok(compare_rows(&a, &b, &keys))
}

fn are_in_order(alloc: Global, all: &[Two]) -> Result<bool, NoMemory> {
    let keys = two_keys(alloc)?.copy(alloc)?;
    let rows = rows_of(alloc, all)?.copy(alloc)?;
    Ok(is_in_order(&rows, &keys))
}

fn are_same_bag(alloc: Global, a: &[Two], b: &[Two]) -> Result<bool, NoMemory> {
    let a = rows_of(alloc, a)?;
    let b = rows_of(alloc, b)?;
    Ok(same_bag(&a, &b))
}

#[test]
fn rows_stand_in_order(rt: HostRuntime) -> Result<(), Fail> {
    let alloc = rt.alloc();
    let below = compared_rows(alloc, C, D)?;
    let above = compared_rows(alloc, C, B)?;
    assert!(rt; below == Ordering::Less && above == Ordering::Greater);
    let in_order = are_in_order(alloc, &[A, B, C, D, D])?;
    let turned = are_in_order(alloc, &[D, A, B, C, D])?;
    assert!(rt; in_order && !turned);
    Ok(())
}

#[test]
fn rows_stand_in_bags(rt: HostRuntime) -> Result<(), Fail> {
    let alloc = rt.alloc();
    let fewer = are_same_bag(alloc, &[A, B, C, D, D], &[A, B, C, D])?;
    let same = are_same_bag(alloc, &[A, B, C, D, D], &[D, A, B, C, D])?;
    assert!(rt; !fewer && same);
    let mut rows = rows_of(alloc, &[A, B])?;
    let last = rows.pop();
    assert!(rt; last.is_some() && rows.len() == 1);
    Ok(())
}

// Two truth values, their AND and their OR.
const TRUTHS: &[(Option<bool>, Option<bool>, Option<bool>, Option<bool>)] = &[
    (Some(true), Some(true), Some(true), Some(true)),
    (Some(true), Some(false), Some(false), Some(true)),
    (Some(true), None, None, Some(true)),
    (Some(false), Some(true), Some(false), Some(true)),
    (Some(false), Some(false), Some(false), Some(false)),
    (Some(false), None, Some(false), None),
    (None, Some(true), None, Some(true)),
    (None, Some(false), Some(false), None),
    (None, None, None, None),
];

fn negates() -> bool {
    not3(Some(true)) == Some(false) && not3(Some(false)) == Some(true) && not3(None).is_none()
}

#[test]
fn connectives_have_their_tables(rt: HostRuntime) {
    for (a, b, both, one) in TRUTHS {
        assert!(rt; and3(*a, *b) == *both && or3(*a, *b) == *one, "{a:?} {b:?}");
    }
    assert!(rt; negates());
}

#[test]
fn truth_values_are_values(rt: HostRuntime) {
    assert!(rt; Value::of_truth(None).truth().is_none());
    assert!(rt; Value::of_truth(Some(true)) == Value::Bool(true));
    assert!(rt; Value::Null.is_null());
}

fn range(lo: i128, hi: i128) -> Interval {
    Interval::Range { lo, hi }
}

const SMALLINT: Interval = Interval::Range {
    lo: -32768,
    hi: 32767,
};

const INTEGER: Interval = Interval::Range {
    lo: -2147483648,
    hi: 2147483647,
};

const BIGINT: Interval = Interval::Range {
    lo: -9223372036854775808,
    hi: 9223372036854775807,
};

// Whether an interval has these sums, differences and products with itself, and these negations.
fn has_results(
    i: Interval,
    sum: Interval,
    difference: Interval,
    product: Interval,
    negation: Interval,
) -> bool {
    i.sum(i) == sum
        && i.difference(i) == difference
        && i.product(i) == product
        && i.negation() == negation
        && i.sum(Interval::Never) == Interval::Never
        && i.is_in_range()
}

fn small_results() -> bool {
    has_results(
        SMALLINT,
        range(-65536, 65534),
        range(-65535, 65535),
        range(-1073709056, 1073741824),
        range(-32767, 32768),
    )
}

fn results() -> bool {
    has_results(
        INTEGER,
        range(-4294967296, 4294967294),
        range(-4294967295, 4294967295),
        range(-4611686016279904256, 4611686018427387904),
        range(-2147483647, 2147483648),
    )
}

fn big_results() -> bool {
    has_results(
        BIGINT,
        range(-18446744073709551616, 18446744073709551614),
        range(-18446744073709551615, 18446744073709551615),
        range(
            -85070591730234615856620279821087277056,
            85070591730234615865843651857942052864,
        ),
        range(-9223372036854775807, 9223372036854775808),
    )
}

fn no_results() -> bool {
    let none = Interval::Never;
    has_results(none, none, none, none, none)
}

#[test]
fn intervals_hold_the_results_at_the_ends(rt: HostRuntime) {
    assert!(rt; small_results() && results() && big_results() && no_results());
}

fn products_end_at_the_limit() -> bool {
    let cube = BIGINT.product(BIGINT).product(BIGINT);
    cube == range(-NUMBER_LIMIT, NUMBER_LIMIT) && !cube.is_in_range()
}

fn numbers_are_cut() -> bool {
    cut_at_limit(i128::MIN) == -NUMBER_LIMIT && cut_product(NUMBER_LIMIT, -1) == -NUMBER_LIMIT
}

fn sums_end_at_the_limit() -> bool {
    let widest = range(1 - NUMBER_LIMIT, NUMBER_LIMIT - 1);
    let sum = widest.sum(range(0, 1));
    widest.is_in_range()
        && sum == range(1 - NUMBER_LIMIT, NUMBER_LIMIT)
        && !sum.is_in_range()
        && widest.difference(widest) == range(-NUMBER_LIMIT, NUMBER_LIMIT)
}

#[test]
fn intervals_end_at_the_limit(rt: HostRuntime) {
    assert!(rt; products_end_at_the_limit() && numbers_are_cut() && sums_end_at_the_limit());
}

// The interval of quotients, where the divisor's doesn't hold 0.
fn quotient_of(i: Interval, divisor: Interval) -> Option<Interval> {
    if divisor.excludes_zero() {
        Some(i.quotient(divisor))
    } else {
        None
    }
}

fn has_quotients() -> bool {
    let lowest = range(i128::MIN, i128::MIN);
    let below = range(-1, -1);
    quotient_of(lowest, below) == Some(range(NUMBER_LIMIT, NUMBER_LIMIT))
        && quotient_of(range(-3, -3), range(2, 2)) == Some(below)
        && quotient_of(SMALLINT, range(2, 3)) == Some(range(-16384, 16383))
        && quotient_of(BIGINT, below) == Some(range(-9223372036854775807, 9223372036854775808))
        && quotient_of(SMALLINT, Interval::Never) == Some(Interval::Never)
}

fn has_no_quotients_around_zero() -> bool {
    quotient_of(SMALLINT, range(0, 5)).is_none()
        && quotient_of(SMALLINT, range(-5, 0)).is_none()
        && quotient_of(SMALLINT, range(-1, 1)).is_none()
}

#[test]
fn divisors_exclude_zero(rt: HostRuntime) {
    assert!(rt; has_quotients() && has_no_quotients_around_zero());
}

// Whether this is what two intervals both hold, either way round.
fn is_meet(i: Interval, j: Interval, both: Interval) -> bool {
    i.meet(j) == both && j.meet(i) == both && both.is_within(i) && both.is_within(j)
}

fn have_meets() -> bool {
    let ten = range(0, 10);
    is_meet(ten, range(5, 20), range(5, 10))
        && is_meet(ten, range(10, 20), range(10, 10))
        && is_meet(ten, range(11, 20), Interval::Never)
        && is_meet(ten, range(2, 3), range(2, 3))
        && is_meet(ten, Interval::Never, Interval::Never)
}

fn types_meet() -> bool {
    let number = SqlType::integer(true, range(0, 10));
    let narrow = number.meet(SqlType::integer(false, range(3, 20)));
    narrow == SqlType::integer(false, range(3, 10))
        && narrow.is_at_most_as_wide(number)
        && !number.is_at_most_as_wide(narrow)
}

#[test]
fn what_two_intervals_hold_is_their_meet(rt: HostRuntime) {
    assert!(rt; have_meets() && types_meet());
    assert!(rt; range(2, 3).holds(3) && !range(2, 3).holds(4));
    assert!(rt; !SqlType::text(false).is_at_most_as_wide(SqlType::boolean(true)));
    assert!(rt; SqlType::number(false, range(0, NUMBER_LIMIT)).is_none());
}

const NUMBER: SqlType = SqlType {
    kind: Kind::Integer,
    nullable: false,
    interval: Interval::Range { lo: 0, hi: 5 },
};

fn five_null_x(alloc: Global) -> Result<Row, Fail> {
    let word = word(alloc, "x")?;
    Ok(list_of(alloc, [Value::Int(5), Value::Null, word])?)
}

// Whether 5, NULL and 'x' have a number's type, that of truth values and that of texts.
fn have_types(alloc: Global, nullable: bool) -> Result<bool, Fail> {
    let row = five_null_x(alloc)?;
    let types = list_of(
        alloc,
        [NUMBER, SqlType::boolean(nullable), SqlType::text(false)],
    )?;
    Ok(has_types(&row, &types))
}

fn have_one_type(alloc: Global) -> Result<bool, Fail> {
    let row = five_null_x(alloc)?;
    let types = list_of(alloc, [NUMBER])?;
    Ok(has_types(&row, &types))
}

#[test]
fn types_are_true_of_rows(rt: HostRuntime) -> Result<(), Fail> {
    let alloc = rt.alloc();
    let nullable = have_types(alloc, true)?;
    let strict = have_types(alloc, false)?;
    let one = have_one_type(alloc)?;
    assert!(rt; nullable && !strict && !one);
    Ok(())
}

#[test]
fn types_are_true_of_values(rt: HostRuntime) -> Result<(), Fail> {
    assert!(rt; NUMBER.holds(&Value::Int(0)) && !NUMBER.holds(&Value::Int(6)));
    assert!(rt; !NUMBER.holds(&Value::Bool(true)) && !NUMBER.holds(&Value::Null));
    assert!(rt; NUMBER.kind.is(Kind::Integer) && !NUMBER.kind.is(Kind::Text));
    let types = list_of(rt.alloc(), [NUMBER, SqlType::boolean(true)])?.copy(rt.alloc())?;
    assert!(rt; types.get(1).copied() == Some(SqlType::boolean(true)));
    Ok(())
}

fn three_steps<L: Ledger>(blank: Blank) -> bool
    requires name { blank.name ≡ L.name }
    requires parts { blank.parts ≡ L.parts }
    requires whole { L.parts ≡ 1 }
    ensures { IsTrue result }
{
    let mut steps: Steps<L> = Steps::new(blank);
    for _ in 0..3 {
        steps.tick();
    }
    true
}

#[test]
fn steps_are_counted(rt: HostRuntime) {
    assert!(rt; three_steps::<Brand>(Blank::new(1)));
}
