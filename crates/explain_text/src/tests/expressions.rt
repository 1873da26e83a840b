//! Expressions, and their texts.
use crate::expressions::push_expression;
use crate::tests::trees::expression;
use cal_value::NoMemory;
use std::alloc::Global;
use std::test::Fail;

const TEXTS: &[(&str, &str)] = &[
    ("0", "$0"),
    ("i", "7"),
    ("m", "-3"),
    ("q", "'it''s'"),
    ("n", "NULL"),
    ("t", "TRUE"),
    ("f", "FALSE"),
    ("01+", "$0 + $1"),
    ("01-", "$0 - $1"),
    ("01*", "$0 * $1"),
    ("01/", "$0 / $1"),
    ("01=", "$0 = $1"),
    ("01!", "$0 <> $1"),
    ("01<", "$0 < $1"),
    ("01l", "$0 <= $1"),
    ("01>", "$0 > $1"),
    ("01g", "$0 >= $1"),
    ("01&", "$0 AND $1"),
    ("01|", "$0 OR $1"),
    ("0~", "- $0"),
    ("0^", "NOT $0"),
    ("0?", "$0 IS NULL"),
    ("0m+", "$0 + -3"),
    ("m~", "- -3"),
    ("0~~", "- (- $0)"),
    ("01+2*", "($0 + $1) * $2"),
    ("012-+", "$0 + ($1 - $2)"),
    ("0~1-", "(- $0) - $1"),
    ("01=?^", "NOT (($0 = $1) IS NULL)"),
    (
        "0i=1q=|2n!&",
        "(($0 = 7) OR ($1 = 'it''s')) AND ($2 <> NULL)",
    ),
];

fn text_of(alloc: Global, signs: &str) -> Result<String, NoMemory> {
    let mut out = String::new(alloc);
    let expression = expression(alloc, signs)?;
    push_expression(&mut out, &expression)?;
    Ok(out)
}

// The first text that is another one; empty where there is none.
fn first_wrong(alloc: Global) -> Result<String, NoMemory> {
    for (signs, wanted) in TEXTS {
        let text = text_of(alloc, *signs)?;
        if text.as_str() != *wanted {
            return Ok(text);
        }
    }
    Ok(String::new(alloc))
}

#[test]
fn expressions_print(rt: HostRuntime) -> Result<(), Fail> {
    let wrong = first_wrong(rt.alloc())?;
    assert_eq!(rt; wrong.as_str(), "");
    Ok(())
}
