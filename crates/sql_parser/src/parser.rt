//! The parser.
ghost use Rattle.std.specs.Prelude.{◌≡◌, List as ListOf, IfOk, IfErr, OnOk};
ghost use Rattle.sql_text.specs.declared.token.Token.{Token as TokenOf};
ghost use Rattle.sql_tree.specs.declared.statement.Statement.{Statement as StatementOf};
ghost use Rattle.sql_expressions.specs.declared.limits.TheConstants.{NESTING_LIMIT};
ghost use Rattle.sql_parser.specs.Answers.{IsWithinLimits, IsFaultOf, IsAnswer};
ghost use Rattle.sql_parser.specs.Grammar.{Spells};
ghost use Rattle.sql_parser.specs.ReadingStatement as reading;

use crate::statement::statement;
use cal_value::{BRACKET_LIMIT, List, OPERATOR_LIMIT};
use sql_expressions::{Cursor, ParseFault, is_insert, most_open, operators};
use sql_text::Token;
use sql_tree::Statement;
use std::alloc::Global;

#[tactic(auto, unfolding(crate::specs::ReadingStatement::read_tokens))]
fn read(alloc: Global, tokens: &[Token]) -> Result<Statement, ParseFault>
    ensures { IsAnswer (reading.read_tokens NESTING_LIMIT tokens.now) result }
{
    let mut cursor = Cursor::new(tokens);
    statement(alloc, &mut cursor)
}

fn parse_within(alloc: Global, tokens: &[Token]) -> Result<Statement, ParseFault>
    requires { IsWithinLimits tokens.now }
    ensures spelled { IfOk result (λ x. Spells tokens.now x) }
    ensures only { IfOk result (λ x. (y : StatementOf) → Spells tokens.now y → y ≡ x) }
    ensures fault { IfErr result (IsFaultOf tokens.now) }
{
    read(alloc, tokens)
}

/// The statement that the tokens spell. The limits are judged first, also where no memory is left.
pub fn parse(alloc: Global, tokens: &List<Token>) -> Result<Statement, ParseFault>
    ensures spelled { IfOk result (λ x. Spells tokens.now x) }
    ensures only { IfOk result (λ x. (y : StatementOf) → Spells tokens.now y → y ≡ x) }
    ensures within { OnOk result (IsWithinLimits tokens.now) }
    ensures fault { IfErr result (IsFaultOf tokens.now) }
{
    let tokens = tokens.as_slice();
    if most_open(tokens) > BRACKET_LIMIT as usize {
        return Err(ParseFault::TooDeep {
            limit: BRACKET_LIMIT,
        });
    }
    if !is_insert(tokens) && operators(tokens) > OPERATOR_LIMIT as usize {
        return Err(ParseFault::TooManyOperators {
            limit: OPERATOR_LIMIT,
        });
    }
    parse_within(alloc, tokens)
}

/// Tokens spell at most one statement, also beyond the limits.
pub fn one_statement()
    ensures { (tokens : ListOf TokenOf) (x y : StatementOf) → Spells tokens x → Spells tokens y → x ≡ y }
{}
