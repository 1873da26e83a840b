//! Laws of what statements are printed as.
ghost use Rattle.std.specs.Prelude.{◌≡◌, ℕ, List as ListOf};
ghost use Rattle.sql_tree.specs.declared.statement.Statement.{Statement};
ghost use Rattle.sql_text.specs.declared.token.Token.{Token};
ghost use Rattle.sql_printer.specs.Printing.{printed, printed_tokens};
ghost use Rattle.sql_tree.specs.Same.{IsSame};
ghost use Rattle.sql_parser.specs.Answers.{IsTextOf, IsWithinLimits};
ghost use Rattle.sql_parser.specs.Grammar.{Spells};

/// A statement that a text spells is printed as a text that spells it, places aside, and within the limits where the first
/// was. `print_statement` answers just the characters that `printed` gives.
pub fn printed_text_spells_the_statement()
    ensures text { (cs : ListOf ℕ) (x : Statement) → IsTextOf cs x → IsTextOf (printed x) x }
    ensures tokens { (ts : ListOf Token) (x : Statement) → Spells ts x → (y : Statement) × Spells (printed_tokens x) y × IsSame y x }
    ensures within { (ts : ListOf Token) (x : Statement) → Spells ts x → IsWithinLimits ts → IsWithinLimits (printed_tokens x) }
{}
