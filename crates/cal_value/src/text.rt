ghost use Rattle.std.specs.Prelude.{◌≡◌, ◌≤◌, ◌++◌, length, IfOk, OnOk, IfErr, ◌==◌, string_bytes, encode_utf8_all};
ghost use Rattle.std.specs.Cmp.Lexicographic.{pointwise, nat_list_eq_equiv};
ghost use Rattle.std.specs.Cmp;
ghost use Rattle.std.specs.Hash as fed;
ghost use Rattle.std.specs.Cmp.Rules.{comparing, hashing};
ghost use Rattle.std.proofs.Common.{rules};
ghost use Rattle.std.specs.Str.{chars};

use crate::limits::TEXT_LIMIT;
use crate::list::List;
use crate::memory::{Duplicate, NoMemory};
use std::alloc::Global;
use std::hash::{Hash, Hasher};
use std::marker::Model;
use thiserror::Error;

/// Why a text isn't taken.
#[derive(Clone, Copy, Debug, PartialEq, Eq, Error)]
pub enum TextFault {
    #[error("a text has more than {limit} characters")]
    TooLong { limit: u32 },
    #[error("out of memory")]
    NoMemory,
}

/// At most 4,000 characters, which contracts see as the list of their code points.
#[derive(Debug, Drop)]
pub struct SqlText {
    chars: Vec<char>,
}

impl Model for SqlText {
    ghost use Rattle.std.specs.Prelude.{List, ℕ, ◌≤◌, length};
    ghost use Rattle.cal_value.specs.declared.limits.TheConstants.{TEXT_LIMIT};

    ghost Value = { List ℕ };

    ghost view = { λ text. text.chars.items };

    ghost invariant = { λ text. length text.chars.items ≤ TEXT_LIMIT };
}

#[tactic(auto, using(std::proofs::lemmas::Str::chars_from_encodes))]
fn character_count(text: &str) -> usize
    ensures { result ≡ length (chars text.now) }
{
    text.chars().count()
}

/// The characters of a text.
#[tactic(auto, using(std::proofs::lemmas::Str::chars_from_encodes))]
pub fn characters(alloc: Global, text: &str) -> Result<Vec<char>, NoMemory>
    ensures { IfOk result (λ all. all.items ≡ chars text.now) }
{
    let all = text.chars().collect(alloc)?;
    Ok(all)
}

/// Adds the characters at the end of `out`. Where there is no memory, the first ones may stand there.
#[tactic(auto, using(crate::proofs::TextLemmas::encoded_more))]
pub fn push_characters(out: &mut String, text: &[char]) -> Result<(), NoMemory>
    ensures { OnOk result
        (string_bytes out.new ≡ string_bytes out.old ++ encode_utf8_all text.now) }
{
    for character in text {
        out.push(*character)?;
    }
    Ok(())
}

impl SqlText {
    ghost use Rattle.cal_value.specs.Text.{IsFaultOf};

    /// The text, where it has at most 4,000 characters. `TooLong` comes exactly where it has more, also where no memory is left.
    pub fn of(alloc: Global, text: &str) -> Result<SqlText, TextFault>
        ensures value { IfOk result (λ t. t ≡ chars text.now) }
        ensures fits { OnOk result (length (chars text.now) ≤ TEXT_LIMIT) }
        ensures fault { IfErr result (IsFaultOf (chars text.now)) }
    {
        if character_count(text) > TEXT_LIMIT as usize {
            return Err(TextFault::TooLong { limit: TEXT_LIMIT });
        }
        match characters(alloc, text) {
            Ok(chars) => Ok(SqlText { chars }),
            Err(_) => Err(TextFault::NoMemory),
        }
    }

    /// The text of these characters. Takes no memory.
    pub fn from_characters(characters: Vec<char>) -> SqlText
        requires { length characters.items ≤ TEXT_LIMIT }
        ensures { result ≡ characters.items }
    {
        SqlText { chars: characters }
    }

    /// The characters.
    pub fn as_slice(&self) -> &[char]
        ensures { result.now ≡ self.now }
    {
        self.chars.as_slice()
    }
}

impl Duplicate for SqlText {
    fn copy(&self, alloc: Global) -> Result<SqlText, NoMemory> {
        let chars = Vec::from_slice(alloc, self.chars.as_slice())?;
        Ok(SqlText { chars })
    }
}

impl PartialEq for SqlText {
    ghost eq = { pointwise ◌==◌ };

    ghost laws = { Prim.search (comparing, rules) };

    fn eq(&self, other: &SqlText) -> bool {
        self.chars == other.chars
    }
}

impl Eq for SqlText {
    ghost laws = { Prim.search (comparing, rules) };
}

impl Hash for SqlText {
    ghost hash_input = { fed.slice fed.char };

    ghost respects_eq = { Prim.search (hashing, rules) };

    fn hash<H: Hasher>(&self, state: &mut H) {
        self.chars.hash(state);
    }
}
