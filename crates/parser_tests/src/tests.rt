use cal_value::{Duplicate, List, NoMemory};
use sql_parser::{ParseFault, one_statement, parse, printed_text_spells_the_statement};
use sql_printer::print_statement;
use sql_text::tokens;
use sql_tree::{Cond, How, Items, Select, Statement, Tree};
use std::alloc::Global;
use std::test::Fail;

fn fault(alloc: Global, text: &str) -> Result<Option<ParseFault>, Fail> {
    let found = tokens(alloc, text)?;
    Ok(parse(alloc, &found).err())
}

/// `front`, then `count` times `middle`, then `count` times `back`, then `end`.
fn repeated(
    alloc: Global,
    front: &str,
    middle: &str,
    back: &str,
    end: &str,
    count: usize,
) -> Result<String, Fail> {
    let mut text = String::from_str(alloc, front)?;
    for _ in 0..count {
        text.push_str(middle)?;
    }
    text.push_str("1")?;
    for _ in 0..count {
        text.push_str(back)?;
    }
    text.push_str(end)?;
    Ok(text)
}

// A line each.
const NO_STATEMENTS: &str = ";
SELECT FROM T
SELECT A FROM T;;
SELECT A FROM T extra extra
SELECT A FROM T WHERE A = B = C
SELECT A FROM T WHERE A IS NULL IS NULL
SELECT NULL FROM T
SELECT SUM(*) FROM T
SELECT A FROM T WHERE (A
SELECT A, FROM T
SELECT A FROM T JOIN U
SELECT A FROM T CROSS JOIN U ON TRUE
SELECT A FROM T GROUP BY 1
SELECT A FROM T ORDER BY A + 1
SELECT A FROM T ORDER BY - 1
INSERT INTO T VALUES ()
INSERT INTO T VALUES (- 'a')
CREATE TILE ON L (A) MEASURES (SUM(A + 1))
CREATE TILE ON L (A) MEASURES ((SUM(A)))
CREATE TILE ON L (A) MEASURES ()
CHOOSE TILES ON L LIMIT 0
CHOOSE TILES ON L LIMIT 17
DELETE FROM T";

fn is_no_statement(alloc: Global, text: &str) -> Result<bool, Fail> {
    let found = fault(alloc, text)?;
    Ok(found == Some(ParseFault::NotSql))
}

#[test]
fn what_is_no_statement(rt: HostRuntime) -> Result<(), Fail> {
    let empty = is_no_statement(rt.alloc(), "")?;
    assert!(rt; empty);
    for text in NO_STATEMENTS.lines() {
        let is_none = is_no_statement(rt.alloc(), text)?;
        assert!(rt; is_none, "{text}");
    }
    Ok(())
}

const DEEP: Option<ParseFault> = Some(ParseFault::TooDeep { limit: 64 });

const MANY: Option<ParseFault> = Some(ParseFault::TooManyOperators { limit: 256 });

// The parts of a text, how often two of them stand there, and what is told of it.
const LIMITS: &[(&str, &str, &str, &str, usize, Option<ParseFault>)] = &[
    ("SELECT ", "(", ")", " FROM T", 64, None),
    ("SELECT ", "(", ")", " FROM T", 65, DEEP),
    ("", "(", "", "", 65, DEEP),
    (")))", "(", "", "", 64, Some(ParseFault::NotSql)),
    ("SELECT ", "1 + ", "", " FROM T", 256, None),
    ("SELECT ", "1 + ", "", " FROM T", 257, MANY),
    ("SELECT ", "NOT ", "", " FROM T", 256, None),
    ("SELECT ", "- ", "", " FROM T", 256, None),
    ("SELECT * FROM T WHERE ", "NOT ", "", "", 256, MANY),
    ("INSERT INTO T VALUES (", "- 1, ", "", ")", 300, None),
    ("REFRESH TABLE T ", "* ", "", "", 257, MANY),
    ("SELECT ", "- (", ")", " FROM T", 64, None),
];

fn told_at(
    alloc: Global,
    front: &str,
    middle: &str,
    back: &str,
    end: &str,
    count: usize,
) -> Result<Option<ParseFault>, Fail> {
    let text = repeated(alloc, front, middle, back, end, count)?;
    fault(alloc, text.as_str())
}

#[test]
fn the_two_limits(rt: HostRuntime) -> Result<(), Fail> {
    for (front, middle, back, end, count, want) in LIMITS {
        let told = told_at(rt.alloc(), *front, *middle, *back, *end, *count)?;
        assert!(rt; told == *want, "{middle} {count}");
    }
    one_statement();
    Ok(())
}

// What a copy of the statement prints as. A large value is dropped by `drop`, which is proved once; at the end of a function
// its drop is written out in the code of that function, which is dear to prove.
fn printed_copy(alloc: Global, statement: &Statement) -> Result<List<u8>, NoMemory> {
    let copy = statement.copy(alloc)?;
    let printed = print_statement(alloc, &copy);
    drop(copy);
    printed
}

fn printed_of(alloc: Global, statement: Statement) -> Result<List<u8>, NoMemory> {
    let printed = printed_copy(alloc, &statement);
    drop(statement);
    printed
}

fn printed(alloc: Global, text: &str) -> Result<List<u8>, Fail> {
    let found = tokens(alloc, text)?;
    match parse(alloc, &found) {
        Ok(statement) => Ok(printed_of(alloc, statement)?),
        Err(fault) => Err(Fail::from(fault)),
    }
}

fn prints(alloc: Global, text: &str, want: &str) -> Result<bool, Fail> {
    let found = printed(alloc, text)?;
    Ok(found.as_slice() == want.as_bytes())
}

/// Whether the statement before ` => ` prints as what stands behind it.
fn prints_as(alloc: Global, row: &str) -> Result<bool, Fail> {
    match row.split_once(" => ") {
        Some((text, want)) => prints(alloc, text, want),
        None => Ok(false),
    }
}

const EXPRESSIONS: &str = r#"SELECT A - B - C FROM T => SELECT A - B - C FROM T
SELECT A - (B - C) + (D) FROM T => SELECT A - (B - C) + D FROM T
SELECT A / B * (C * D) FROM T => SELECT A / B * (C * D) FROM T
SELECT (A + B) * - - 1 FROM T => SELECT (A + B) * - - 1 FROM T
SELECT -(A + B), (-A) + (007) FROM T => SELECT - (A + B), - A + 7 FROM T
SELECT NOT A = B AND C OR D FROM T => SELECT NOT A = B AND C OR D FROM T
SELECT NOT (A <> (B AND (C OR D))) FROM T => SELECT NOT A <> (B AND (C OR D)) FROM T
SELECT A < B OR (A <= B OR A > B) AND (A >= B) FROM T => SELECT A < B OR (A <= B OR A > B) AND A >= B FROM T
SELECT a is null, a is not null FROM T => SELECT A IS NULL, NOT A IS NULL FROM T
SELECT (A IS NULL) = (NOT NOT C) FROM T => SELECT (A IS NULL) = (NOT NOT C) FROM T
SELECT t.a, "t"."From", "A" FROM T => SELECT T.A, "t"."From", A FROM T
SELECT 'it''s', TRUE, false FROM T => SELECT 'it''s', TRUE, FALSE FROM T
SELECT COUNT ( * ), count((a)) FROM T => SELECT COUNT(*), COUNT(A) FROM T
SELECT SUM(- A), MIN(A), MAX(A + 1) FROM T => SELECT SUM(- A), MIN(A), MAX(A + 1) FROM T
SELECT A X, B AS Y, C FROM T => SELECT A AS X, B AS Y, C FROM T"#;

#[test]
fn what_expressions_print_as(rt: HostRuntime) -> Result<(), Fail> {
    for row in EXPRESSIONS.lines() {
        let prints = prints_as(rt.alloc(), row)?;
        assert!(rt; prints, "{row}");
    }
    Ok(())
}

const STATEMENTS: &str = r#"select a from t; => SELECT A FROM T
SELECT DISTINCT * FROM S.T U => SELECT DISTINCT * FROM S.T AS U
SELECT * FROM T AS T, U V CROSS JOIN S.W AS X => SELECT * FROM T CROSS JOIN U AS V CROSS JOIN S.W AS X
SELECT * FROM T INNER JOIN U ON A = B JOIN V USING (A, B) => SELECT * FROM T JOIN U ON A = B JOIN V USING (A, B)
SELECT * FROM T LEFT JOIN U ON TRUE LEFT OUTER JOIN V USING (A) => SELECT * FROM T LEFT JOIN U ON TRUE LEFT JOIN V USING (A)
SELECT T.A FROM T WHERE A > 0 GROUP BY T.A, B HAVING COUNT(*) > 1 => SELECT T.A FROM T WHERE A > 0 GROUP BY T.A, B HAVING COUNT(*) > 1
SELECT A FROM T ORDER BY 1 DESC NULLS FIRST, T.A ASC NULLS LAST, A => SELECT A FROM T ORDER BY 1 DESC, T.A, A
SELECT A FROM T ORDER BY A NULLS FIRST, 2 DESC NULLS LAST, A DESC => SELECT A FROM T ORDER BY A NULLS FIRST, 2 DESC NULLS LAST, A DESC
insert into s.t values (1, -2, - 0, 'x'), (TRUE, FALSE, NULL), (3) => INSERT INTO S.T VALUES (1, - 2, 0, 'x'), (TRUE, FALSE, NULL), (3)
EXPLAIN PLAN FOR SELECT A FROM T; => EXPLAIN PLAN FOR SELECT A FROM T
EXPLAIN MEMO FOR SELECT A FROM T => EXPLAIN MEMO FOR SELECT A FROM T
refresh table s.t => REFRESH TABLE S.T
CREATE TILE ON S.L (A, T.B) MEASURES (COUNT(*), SUM((C))) => CREATE TILE ON S.L (A, T.B) MEASURES (COUNT(*), SUM(C))
DROP TILE ON L ( ) => DROP TILE ON L ()
CHOOSE TILES ON L LIMIT 16; => CHOOSE TILES ON L LIMIT 16"#;

#[test]
fn what_statements_print_as(rt: HostRuntime) -> Result<(), Fail> {
    for row in STATEMENTS.lines() {
        let prints = prints_as(rt.alloc(), row)?;
        assert!(rt; prints, "{row}");
    }
    printed_text_spells_the_statement();
    Ok(())
}

fn add(alloc: Global, out: &mut String, place: u64) -> Result<(), Fail> {
    let place = format!(in alloc; "{place} ")?;
    out.push_str(place.as_str())?;
    Ok(())
}

fn place_of(tree: &Tree) -> u64 {
    match tree {
        Tree::Column { place, .. } => *place,
        Tree::Literal { place, .. } => *place,
        Tree::Negate { place, .. } => *place,
        Tree::Binary { place, .. } => *place,
        Tree::Not { place, .. } => *place,
        Tree::IsNull { place, .. } => *place,
        Tree::Aggregate { place, .. } => *place,
    }
}

/// The place of each node, a node before its parts.
fn add_tree(alloc: Global, out: &mut String, tree: &Tree) -> Result<(), Fail> {
    add(alloc, out, place_of(tree))?;
    match tree {
        Tree::Negate { operand, .. } => add_tree(alloc, out, operand.get()),
        Tree::Not { operand, .. } => add_tree(alloc, out, operand.get()),
        Tree::IsNull { operand, .. } => add_tree(alloc, out, operand.get()),
        Tree::Binary { left, right, .. } => {
            add_tree(alloc, out, left.get())?;
            add_tree(alloc, out, right.get())
        }
        Tree::Aggregate {
            argument: Some(argument),
            ..
        } => add_tree(alloc, out, argument.get()),
        _ => Ok(()),
    }
}

fn add_optional(alloc: Global, out: &mut String, tree: &Option<Tree>) -> Result<(), Fail> {
    match tree {
        Some(tree) => add_tree(alloc, out, tree),
        None => Ok(()),
    }
}

fn add_items(alloc: Global, out: &mut String, items: &Items) -> Result<(), Fail> {
    if let Items::Listed(items) = items {
        for item in items.as_slice() {
            add_tree(alloc, out, &item.tree)?;
        }
    }
    Ok(())
}

fn add_cond(alloc: Global, out: &mut String, cond: &Cond) -> Result<(), Fail> {
    match cond {
        Cond::On(tree) => add_tree(alloc, out, tree),
        Cond::Using(names) => {
            for name in names.as_slice() {
                add(alloc, out, name.place)?;
            }
            Ok(())
        }
    }
}

fn add_select(alloc: Global, out: &mut String, select: &Select) -> Result<(), Fail> {
    add_items(alloc, out, &select.items)?;
    for entry in select.from.as_slice() {
        if let How::Inner(cond) | How::Left(cond) = &entry.how {
            add_cond(alloc, out, cond)?;
        }
    }
    add_optional(alloc, out, &select.filter)?;
    add_optional(alloc, out, &select.having)?;
    for key in select.order.as_slice() {
        add(alloc, out, key.place)?;
    }
    Ok(())
}

/// The places in a SELECT: of its items, of the conditions of its joins, of WHERE, of HAVING, and of its keys.
fn places_of(alloc: Global, statement: &Statement) -> Result<String, Fail> {
    let mut out = String::new(alloc);
    if let Statement::Select(select) = statement {
        add_select(alloc, &mut out, select)?;
    }
    Ok(out)
}

fn places_in(alloc: Global, statement: Statement) -> Result<String, Fail> {
    let places = places_of(alloc, &statement);
    drop(statement);
    places
}

fn places(alloc: Global, text: &str) -> Result<String, Fail> {
    let found = tokens(alloc, text)?;
    match parse(alloc, &found) {
        Ok(statement) => places_in(alloc, statement),
        Err(fault) => Err(Fail::from(fault)),
    }
}

const PLACES: &[(&str, &str)] = &[
    (
        "SELECT - (A + 2), COUNT(*), SUM(T.B) FROM T",
        "1 4 3 5 8 13 15 ",
    ),
    (
        "SELECT A FROM T WHERE B = 1 AND NOT C IS NULL",
        "1 8 6 5 7 9 11 10 ",
    ),
    (
        "SELECT * FROM T JOIN U ON A = B LEFT JOIN V USING (C, D)",
        "8 7 9 15 17 ",
    ),
    (
        "SELECT * FROM T HAVING A IS NOT NULL ORDER BY 1, T.A DESC, B",
        "6 6 5 11 13 18 ",
    ),
];

#[test]
fn the_places_of_the_nodes(rt: HostRuntime) -> Result<(), Fail> {
    for (text, want) in PLACES {
        let found = places(rt.alloc(), *text)?;
        assert!(rt; found.as_str() == *want, "{text}");
    }
    Ok(())
}
