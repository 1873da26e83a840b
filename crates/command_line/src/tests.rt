use crate::{Asked, BUDGET_DEFAULT, read_words};
use cal_outside::Word;
use cal_value::{List, NoMemory};
use std::alloc::Global;

// The reading of words that stand in one text with a line for each.
fn read(alloc: Global, text: &str) -> Result<Option<Asked>, NoMemory> {
    let mut words = List::new(alloc);
    for line in text.lines() {
        let word = Word::of(alloc, line)?;
        words.push(word)?;
    }
    read_words(alloc, words.as_slice())
}

fn is_asked(alloc: Global, text: &str, budget: u32) -> bool {
    match read(alloc, text) {
        Ok(Some(asked)) => {
            asked.model.as_str() == "m" && asked.sql.as_str() == "SELECT" && asked.budget == budget
        }
        _ => false,
    }
}

fn is_refused(alloc: Global, text: &str) -> bool {
    matches!(read(alloc, text), Ok(None))
}

#[test]
fn words_with_and_without_a_reading(rt: HostRuntime) {
    let alloc = rt.alloc();
    for (text, budget) in [
        ("m\nSELECT", 2_000),
        ("m\n--budget\n5\nSELECT", 5),
        ("m\nSELECT\n--budget\n1", 1),
        ("--budget=20000\nm\nSELECT", 20_000),
        ("m\nSELECT\n--budget\n+007", 7),
        ("--\nm\nSELECT", BUDGET_DEFAULT),
    ] {
        assert!(rt; is_asked(alloc, text, budget));
    }
    for text in [
        "",
        "m",
        "m\nSELECT\nmore",
        "m\nSELECT\n--budget",
        "m\nSELECT\n--budget\n0",
        "m\nSELECT\n--budget\n20001",
        "m\nSELECT\n--budget\nx",
        "m\nSELECT\n--budget\n5\n--budget\n6",
        "m\nSELECT\n--help",
        "m\n-x",
    ] {
        assert!(rt; is_refused(alloc, text));
    }
}
