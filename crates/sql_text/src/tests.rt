use crate::{Token, TokenFault, tokens};
use cal_value::{Duplicate, SqlText};
use std::alloc::Global;
use std::test::Fail;

fn spelled(alloc: Global, text: &SqlText) -> Result<String, Fail> {
    let mut spelled = String::new(alloc);
    for c in text.as_slice() {
        spelled.push(*c)?;
    }
    Ok(spelled)
}

fn shown(alloc: Global, token: &Token) -> Result<String, Fail> {
    match token {
        Token::Name(name) => {
            let name = spelled(alloc, name)?;
            Ok(format!(in alloc; "[{name}]")?)
        }
        Token::Word(word) => Ok(format!(in alloc; "{word:?}")?),
        Token::Number(number) => Ok(format!(in alloc; "{number}")?),
        Token::Text(text) => {
            let text = spelled(alloc, text)?;
            Ok(format!(in alloc; "({text})")?)
        }
        Token::Symbol(symbol) => Ok(format!(in alloc; "{symbol:?}")?),
    }
}

/// The tokens with a blank behind each, or where none begins.
fn read(alloc: Global, text: &str) -> Result<String, Fail> {
    match tokens(alloc, text) {
        Ok(found) => {
            let mut read = String::new(alloc);
            for token in found.as_slice() {
                let shown = shown(alloc, &token.copy(alloc)?)?;
                read.push_str(shown.as_str())?;
                read.push(' ')?;
            }
            Ok(read)
        }
        Err(TokenFault::NotToken { at }) => Ok(format!(in alloc; "none at {at}")?),
        Err(TokenFault::NoMemory) => Ok(format!(in alloc; "no memory")?),
    }
}

#[test]
fn texts_and_their_tokens(rt: HostRuntime) -> Result<(), Fail> {
    let rows = [
        ("", ""),
        (" \t\r\n", ""),
        ("-- only a comment", ""),
        ("select a from t;", "Select [A] From [T] Semicolon "),
        ("_x1 X_\u{e9}", "none at 6"),
        ("count Counts \"count\"", "Count [COUNTS] [count] "),
        (
            "\"\"\"\" \"a\"\"b\" \"\u{e9}\n\"",
            "[\"] [a\"b] [\u{e9}\n] ",
        ),
        ("\"\"", "none at 0"),
        ("'' 'a''b' '\u{1F600}' '\"'", "() (a'b) (\u{1F600}) (\") "),
        ("'a' 'b", "none at 4"),
        ("a\"b\"'c'", "[A] [b] (c) "),
        ("0 007 1.5", "0 7 1 Dot 5 "),
        ("1a", "none at 0"),
        ("1_", "none at 0"),
        ("a -1a", "none at 3"),
        (
            "99999999999999999999999999999999999999",
            "99999999999999999999999999999999999999 ",
        ),
        ("000100000000000000000000000000000000000000", "none at 0"),
        (
            "SELECT 100000000000000000000000000000000000000 FROM W",
            "none at 7",
        ),
        (
            "<> < > <= >= << = <==",
            "NotEqual Less Greater LessEqual GreaterEqual Less Less Equal LessEqual Equal ",
        ),
        (
            ",.()*+-/=;",
            "Comma Dot Open Close Star Plus Minus Slash Equal Semicolon ",
        ),
        ("1 - - 1--1", "1 Minus Minus 1 "),
        ("a--\u{e9}\r b\nc", "[A] [C] "),
        ("'\u{e9}' \u{e9}", "none at 4"),
        ("a ! b", "none at 2"),
        ("a != b", "none at 2"),
    ];
    for (text, want) in rows {
        let read = read(rt.alloc(), text)?;
        assert_eq!(rt; read.as_str(), want, "at {text}");
    }
    Ok(())
}

/// The text `front`, then `count` times the character, then `back`.
fn long(alloc: Global, front: &str, c: char, count: usize, back: &str) -> Result<String, Fail> {
    let mut text = String::new(alloc);
    text.push_str(front)?;
    for _ in 0..count {
        text.push(c)?;
    }
    text.push_str(back)?;
    Ok(text)
}

#[test]
fn the_limits_of_names_and_texts(rt: HostRuntime) -> Result<(), Fail> {
    let rows = [
        ("a ", 'b', 128, "", None),
        ("a ", 'b', 129, "", Some(2)),
        ("\"", 'b', 128, "\"", None),
        ("a\"", '\u{e9}', 129, "\"", Some(1)),
        ("'", '\u{e9}', 4000, "'", None),
        ("\u{20}'", 'b', 4001, "'", Some(1)),
        ("'", '\'', 8001, "", None),
        ("'", '\'', 8003, "", Some(0)),
    ];
    for (front, c, count, back, want) in rows {
        let text = long(rt.alloc(), front, c, count, back)?;
        let place = match tokens(rt.alloc(), text.as_str()) {
            Ok(_) => None,
            Err(TokenFault::NotToken { at }) => Some(at),
            Err(TokenFault::NoMemory) => Some(u64::MAX),
        };
        assert_eq!(rt; place, want, "at {count} times {c}");
    }
    Ok(())
}

#[test]
fn all_reserved_words(rt: HostRuntime) -> Result<(), Fail> {
    let text =
        "select distinct from where group by having order asc desc nulls first last as on using join inner left outer cross and or not is null true false count sum min max insert into values explain plan memo for refresh table create drop choose tile tiles measures limit offset row rows fetch next only delete";
    let want =
        "Select Distinct From Where Group By Having Order Asc Desc Nulls First Last As On Using Join Inner Left Outer Cross And Or Not Is Null True False Count Sum Min Max Insert Into Values Explain Plan Memo For Refresh Table Create Drop Choose Tile Tiles Measures Limit Offset Row Rows Fetch Next Only Delete ";
    let read = read(rt.alloc(), text)?;
    assert_eq!(rt; read.as_str(), want);
    Ok(())
}
