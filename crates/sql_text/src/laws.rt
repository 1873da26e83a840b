//! Laws of the definitions.
ghost use Rattle.std.specs.Prelude.{◌≡◌, ◌⊎◌, ℕ, List as ListOf};
ghost use Rattle.sql_text.specs.declared.token.Token.{Token};
ghost use Rattle.sql_text.specs.Tokens.{HasTokens, StopsAt};

/// A text has one list of tokens or one place where none begins, and never both.
pub fn each_text_reads_one_way()
    ensures either { (cs : ListOf ℕ) → ((ts : ListOf Token) × HasTokens cs ts) ⊎ ((at : ℕ) × StopsAt cs at) }
    ensures never_both { (cs : ListOf ℕ) (ts : ListOf Token) (at : ℕ) → HasTokens cs ts → StopsAt cs at → ⊥ }
    ensures one_list { (cs : ListOf ℕ) (ts us : ListOf Token) → HasTokens cs ts → HasTokens cs us → us ≡ ts }
    ensures one_place { (cs : ListOf ℕ) (a b : ℕ) → StopsAt cs a → StopsAt cs b → a ≡ b }
{}
