ghost use Rattle.std.specs.Prelude.{◌≡◌, IfOk, encode_utf8_all, slice_get};
ghost use Rattle.std.specs.Str.{chars};

use cal_value::{Duplicate, NoMemory};
use std::alloc::Global;
use std::marker::Model;

/// A text that contracts see as the list of its characters.
#[derive(Debug, Drop)]
pub struct Word {
    text: String,
}

impl Model for Word {
    ghost use Rattle.std.specs.Prelude.{List, ℕ, string_bytes};
    ghost use Rattle.std.specs.Str.{chars};

    ghost Value = { List ℕ };

    ghost view = { λ w. chars (string_bytes w.text) };
}

impl Word {
    /// The word of this text.
    pub fn of(alloc: Global, text: &str) -> Result<Word, NoMemory>
        ensures characters { IfOk result (λ w. w ≡ chars text.now) }
        ensures bytes { IfOk result (λ w. encode_utf8_all w ≡ text.now) }
    {
        match String::from_str(alloc, text) {
            Ok(text) => Ok(Word { text }),
            Err(_) => Err(NoMemory),
        }
    }

    /// The text.
    pub fn as_str(&self) -> &str
        ensures bytes { result.now ≡ encode_utf8_all self.now }
        ensures characters { chars result.now ≡ self.now }
    {
        self.text.as_str()
    }

    /// The first character.
    pub fn first(&self) -> Option<char>
        ensures { result ≡ slice_get self.now 0 }
    {
        self.text.as_str().chars().next()
    }
}

impl Duplicate for Word {
    fn copy(&self, alloc: Global) -> Result<Word, NoMemory> {
        match String::from_str(alloc, self.text.as_str()) {
            Ok(text) => Ok(Word { text }),
            Err(_) => Err(NoMemory),
        }
    }
}
