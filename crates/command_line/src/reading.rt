//! What the words ask.
ghost use Rattle.std.specs.Prelude.{◌≡◌, ◌↔◌, [], None, IfOk, IfSome, map, encode_utf8_all, codes, unwrap_or};
ghost use Rattle.std.specs.Str.{chars};
ghost use Rattle.clap.specs.Matches.{first_value, found_of};
ghost use Rattle.clap.specs.Values.{IsUnsignedIn};
ghost use Rattle.cal_value.specs.declared.limits.TheConstants.{BUDGET_LIMIT};
ghost use Rattle.command_line.specs.Reading as spec;

use crate::command::calq_command;
use cal_outside::Word;
use cal_value::NoMemory;
use clap::ArgMatches;
use clap::error::ErrorKind;
use std::alloc::Global;

/// The budget where a command line gives none, in rewrites of a search.
pub const BUDGET_DEFAULT: u32 = 2_000;

/// What a command line asks: the name of the model's file, the text of the statement, and how many rewrites a search may make.
#[derive(Debug, Drop)]
pub struct Asked {
    pub model: Word,
    pub sql: Word,
    pub budget: u32,
}

fn texts_of<'a>(alloc: Global, words: &'a [Word]) -> Result<Vec<&'a str>, NoMemory>
    ensures { IfOk result (λ texts. map (λ text. text.now) texts.items ≡ map encode_utf8_all words.entry.now) }
{
    let mut texts = Vec::new(alloc);
    for word in words {
        texts.push(word.as_str())?;
    }
    Ok(texts)
}

// The word of this name.
fn word_in(alloc: Global, matches: &ArgMatches<'_>, id: &str) -> Result<Word, NoMemory>
    ensures { IfOk result (λ word. word
        ≡ chars (unwrap_or (first_value (found_of matches.now) id.now) [])) }
{
    match matches.get_str(id) {
        Some(text) => Word::of(alloc, text),
        None => Word::of(alloc, ""),
    }
}

fn number_in(text: &str) -> u32
    requires { IsUnsignedIn 1 BUDGET_LIMIT text.now }
    ensures { result ≡ spec.number_of text.now }
{
    text.parse::<u32>().unwrap_or(BUDGET_DEFAULT)
}

fn budget_in(matches: &ArgMatches<'_>) -> u32
    requires { IfSome (first_value (found_of matches.now) (codes "budget"))
        (IsUnsignedIn 1 BUDGET_LIMIT) }
    ensures { result ≡ spec.budget_of (first_value (found_of matches.now) (codes "budget")) }
{
    match matches.get_str("budget") {
        Some(text) => number_in(text),
        None => BUDGET_DEFAULT,
    }
}

fn asked_in(alloc: Global, matches: &ArgMatches<'_>) -> Result<Asked, NoMemory>
    requires { IfSome (first_value (found_of matches.now) (codes "budget"))
        (IsUnsignedIn 1 BUDGET_LIMIT) }
    ensures { IfOk result (λ found. found
        ≡ spec.asked (first_value (found_of matches.now) (codes "MODEL"))
        (first_value (found_of matches.now) (codes "SQL"))
        (first_value (found_of matches.now) (codes "budget"))) }
{
    let model = word_in(alloc, matches, "MODEL")?;
    let sql = word_in(alloc, matches, "SQL")?;
    let budget = budget_in(matches);
    Ok(Asked { model, sql, budget })
}

fn matched(alloc: Global, texts: &[&str]) -> Result<Option<Asked>, NoMemory>
    ensures reading { IfOk result (λ found. found ≡ spec.reading_of (map (λ text. text.now) texts.now)) }
    ensures budget { IfOk result (λ found. IfSome found (λ asked. spec.IsBudget asked.budget)) }
{
    let command = calq_command(alloc)?;
    match command.try_get_matches_from(texts) {
        Ok(matches) => {
            let asked = asked_in(alloc, &matches)?;
            Ok(Some(asked))
        }
        Err(error) => match error.kind() {
            ErrorKind::OutOfMemory => Err(NoMemory),
            _ => Ok(None),
        },
    }
}

fn words_read(alloc: Global, words: &[Word]) -> Result<Option<Asked>, NoMemory>
    ensures reading { IfOk result (λ found. found ≡ spec.reading words.now) }
    ensures budget { IfOk result (λ found. IfSome found (λ asked. spec.IsBudget asked.budget)) }
{
    let texts = texts_of(alloc, words)?;
    matched(alloc, texts.as_slice())
}

/// What the words ask, which are those after the program's name: None exactly where `clap` gives a fault for them as words of
/// `calq MODEL SQL [--budget N]`. N is a whole number from 1 to 20,000, and `BUDGET_DEFAULT` where none is given.
pub fn read_words(alloc: Global, words: &[Word]) -> Result<Option<Asked>, NoMemory>
    ensures reading { IfOk result (λ found. found ≡ spec.reading words.now) }
    ensures none { IfOk result (λ found. (found ≡ None) ↔ spec.IsFaulty words.now) }
    ensures budget { IfOk result (λ found. IfSome found (λ asked. spec.IsBudget asked.budget)) }
{
    words_read(alloc, words)
}
