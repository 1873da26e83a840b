//! Expressions. The rules take the function that reads what nests as a parameter, so that each is proved by itself.
ghost use Rattle.std.specs.Prelude.{◌≡◌, IfOk, OnSome, ◌<◌, length};
ghost use Rattle.sql_expressions.specs.Input.{Reads};
ghost use Rattle.sql_expressions.specs.Operators as operators;
ghost use Rattle.sql_expressions.specs.Reading as spec;
ghost use Rattle.sql_expressions.specs.Nests.{Nests};

use crate::cursor::Cursor;
use crate::fault::ParseFault;
use crate::limits::NESTING_LIMIT;
use cal_value::{Agg, Duplicate, NoMemory, Op, Value};
use sql_text::{Reserved, Symbol, Token};
use sql_tree::{ColumnName, Tree};
use sqlite_items::Boxed;
use std::alloc::Global;

/// The operators that bind equally tightly.
#[derive(Clone, Copy)]
pub enum Level {
    Or,
    And,
    Comparison,
    Sum,
    Term,
}

/// The rules of the grammar that lead back to themselves.
#[derive(Clone, Copy)]
pub enum Part {
    Expression,
    Negation,
    Factor,
    Aggregate,
}

fn compares(symbol: Symbol) -> Option<Op>
    ensures { result ≡ operators.compares symbol }
{
    match symbol {
        Symbol::Equal => Some(Op::Equal),
        Symbol::NotEqual => Some(Op::NotEqual),
        Symbol::Less => Some(Op::Less),
        Symbol::LessEqual => Some(Op::LessEqual),
        Symbol::Greater => Some(Op::Greater),
        Symbol::GreaterEqual => Some(Op::GreaterEqual),
        _ => None,
    }
}

fn adds(symbol: Symbol) -> Option<Op>
    ensures { result ≡ operators.adds symbol }
{
    match symbol {
        Symbol::Plus => Some(Op::Add),
        Symbol::Minus => Some(Op::Subtract),
        _ => None,
    }
}

fn multiplies(symbol: Symbol) -> Option<Op>
    ensures { result ≡ operators.multiplies symbol }
{
    match symbol {
        Symbol::Star => Some(Op::Multiply),
        Symbol::Slash => Some(Op::Divide),
        _ => None,
    }
}

#[tactic(auto, unfolding(crate::specs::Input::same_word))]
fn word_links(level: Level, word: Reserved) -> Option<Op>
    ensures { result ≡ spec.word_links level word }
{
    match level {
        Level::Or if word == Reserved::Or => Some(Op::Or),
        Level::And if word == Reserved::And => Some(Op::And),
        _ => None,
    }
}

fn symbol_links(level: Level, symbol: Symbol) -> Option<Op>
    ensures { result ≡ spec.symbol_links level symbol }
{
    match level {
        Level::Or | Level::And => None,
        Level::Comparison => compares(symbol),
        Level::Sum => adds(symbol),
        Level::Term => multiplies(symbol),
    }
}

/// The operator of this level that a token is.
fn links(level: Level, token: &Token) -> Option<Op>
    ensures { result ≡ spec.links level token.now }
{
    match token {
        Token::Word(word) => word_links(level, *word),
        Token::Symbol(symbol) => symbol_links(level, *symbol),
        _ => None,
    }
}

#[tactic(auto, unfolding(crate::specs::Reading::operator_at))]
fn operator_at(cursor: &Cursor<'_>, level: Level) -> Option<Op>
    ensures found { result ≡ spec.operator_at level cursor.now }
    ensures some { OnSome result (0 < length cursor.now.left) }
{
    match cursor.left() {
        [first, ..] => links(level, first),
        [] => None,
    }
}

/// Goes past the next token, if it is an operator of this level.
#[tactic(auto, unfolding(crate::specs::Reading::after_operator))]
fn eat_operator(cursor: &mut Cursor<'_>, level: Level) -> Option<Op>
    ensures found { result ≡ spec.operator_at level cursor.old }
    ensures after { cursor.new ≡ spec.after_operator level cursor.old }
{
    let found = operator_at(cursor, level);
    if found.is_some() {
        cursor.skip();
    }
    found
}

fn binary(alloc: Global, place: u64, op: Op, left: Tree, right: Tree) -> Result<Tree, NoMemory>
    ensures { IfOk result (λ t. t ≡ Tree.Binary place op left right) }
{
    Ok(Tree::Binary {
        place,
        op,
        left: Boxed::new(alloc, left)?,
        right: Boxed::new(alloc, right)?,
    })
}

fn negate(alloc: Global, place: u64, operand: Tree) -> Result<Tree, NoMemory>
    ensures { IfOk result (λ t. t ≡ Tree.Negate place operand) }
{
    let operand = Boxed::new(alloc, operand)?;
    Ok(Tree::Negate { place, operand })
}

fn not(alloc: Global, place: u64, operand: Tree) -> Result<Tree, NoMemory>
    ensures { IfOk result (λ t. t ≡ Tree.Not place operand) }
{
    let operand = Boxed::new(alloc, operand)?;
    Ok(Tree::Not { place, operand })
}

fn is_null(alloc: Global, place: u64, operand: Tree) -> Result<Tree, NoMemory>
    ensures { IfOk result (λ t. t ≡ Tree.IsNull place operand) }
{
    let operand = Boxed::new(alloc, operand)?;
    Ok(Tree::IsNull { place, operand })
}

fn aggregate(alloc: Global, place: u64, agg: Agg, argument: Tree) -> Result<Tree, NoMemory>
    ensures { IfOk result (λ t. t ≡ Tree.Aggregate place agg (Some argument)) }
{
    let argument = Some(Boxed::new(alloc, argument)?);
    Ok(Tree::Aggregate {
        place,
        agg,
        argument,
    })
}

/// A column, with the alias of its entry where it is written.
#[tactic(auto, unfolding(crate::specs::Reading::column))]
pub fn column(alloc: Global, cursor: &mut Cursor<'_>) -> Result<ColumnName, ParseFault>
    ensures { Reads (spec.column cursor.old) result cursor.new }
{
    let first = cursor.name(alloc)?;
    if !cursor.eat_symbol(Symbol::Dot) {
        return Ok(ColumnName {
            alias: None,
            name: first,
        });
    }
    let name = cursor.name(alloc)?;
    Ok(ColumnName {
        alias: Some(first),
        name,
    })
}

/// The rules of an expression, over the function that reads what nests.
#[derive(Clone, Copy)]
struct Rules<F> {
    alloc: Global,
    /// How deep brackets, NOTs and signs may still nest.
    depth: u32,
    nested: F,
}

impl<F: Fn(Global, &mut Cursor<'_>, u32, Part) -> Result<Tree, ParseFault>> Rules<F> {
    fn nested(&self, cursor: &mut Cursor<'_>, part: Part) -> Result<Tree, ParseFault>
        requires { Nests self.now.depth (F.pre self.now.nested) (F.post self.now.nested) }
        ensures { Reads (spec.reads_part self.now.depth part cursor.old) result cursor.new }
    {
        (self.nested)(self.alloc, cursor, self.depth, part)
    }

    /// What an aggregate's brackets hold, from behind the opening one.
    #[tactic(auto, unfolding(crate::specs::Reading::argument))]
    fn argument(&self, cursor: &mut Cursor<'_>, place: u64, agg: Agg) -> Result<Tree, ParseFault>
        requires { Nests self.now.depth (F.pre self.now.nested) (F.post self.now.nested) }
        ensures { Reads (spec.argument (spec.reads_part self.now.depth) place agg cursor.old) result cursor.new }
    {
        let inner = self.nested(cursor, Part::Expression)?;
        cursor.expect_symbol(Symbol::Close)?;
        Ok(aggregate(self.alloc, place, agg, inner)?)
    }

    #[tactic(auto, unfolding(crate::specs::Reading::aggregate))]
    fn aggregate(&self, cursor: &mut Cursor<'_>, agg: Agg) -> Result<Tree, ParseFault>
        requires nests { Nests self.now.depth (F.pre self.now.nested) (F.post self.now.nested) }
        requires some { 0 < length cursor.old.left }
        ensures { Reads (spec.aggregate (spec.reads_part self.now.depth) agg cursor.old) result cursor.new }
    {
        let place = cursor.place();
        cursor.skip();
        cursor.expect_symbol(Symbol::Open)?;
        self.argument(cursor, place, agg)
    }

    #[tactic(auto, unfolding(crate::specs::Reading::count))]
    fn count(&self, cursor: &mut Cursor<'_>) -> Result<Tree, ParseFault>
        requires nests { Nests self.now.depth (F.pre self.now.nested) (F.post self.now.nested) }
        requires some { 0 < length cursor.old.left }
        ensures { Reads (spec.count (spec.reads_part self.now.depth) cursor.old) result cursor.new }
    {
        let place = cursor.place();
        cursor.skip();
        cursor.expect_symbol(Symbol::Open)?;
        if !cursor.eat_symbol(Symbol::Star) {
            return self.argument(cursor, place, Agg::Count);
        }
        cursor.expect_symbol(Symbol::Close)?;
        Ok(Tree::Aggregate {
            place,
            agg: Agg::Count,
            argument: None,
        })
    }

    #[tactic(auto, unfolding(crate::specs::Reading::truth))]
    fn truth(&self, cursor: &mut Cursor<'_>, value: bool) -> Result<Tree, ParseFault>
        requires { 0 < length cursor.old.left }
        ensures { Reads (spec.truth value cursor.old) result cursor.new }
    {
        let place = cursor.place();
        cursor.skip();
        let value = Value::Bool(value);
        Ok(Tree::Literal { place, value })
    }

    /// An aggregate, whose word comes next.
    fn aggregate_word(&self, cursor: &mut Cursor<'_>, word: Reserved) -> Result<Tree, ParseFault>
        requires nests { Nests self.now.depth (F.pre self.now.nested) (F.post self.now.nested) }
        requires some { 0 < length cursor.old.left }
        ensures { Reads (spec.aggregate_word (spec.reads_part self.now.depth) word cursor.old) result cursor.new }
    {
        match word {
            Reserved::Count => self.count(cursor),
            Reserved::Sum => self.aggregate(cursor, Agg::Sum),
            Reserved::Min => self.aggregate(cursor, Agg::Min),
            Reserved::Max => self.aggregate(cursor, Agg::Max),
            _ => Err(ParseFault::NotSql),
        }
    }

    #[tactic(auto, unfolding(crate::specs::Reading::any_aggregate, crate::specs::Input::by_token))]
    fn any_aggregate(&self, cursor: &mut Cursor<'_>) -> Result<Tree, ParseFault>
        requires { Nests self.now.depth (F.pre self.now.nested) (F.post self.now.nested) }
        ensures { Reads (spec.any_aggregate (spec.reads_part self.now.depth) cursor.old) result cursor.new }
    {
        match cursor.left() {
            [Token::Word(word), ..] => self.aggregate_word(cursor, *word),
            _ => Err(ParseFault::NotSql),
        }
    }

    fn primary_word(&self, cursor: &mut Cursor<'_>, word: Reserved) -> Result<Tree, ParseFault>
        requires nests { Nests self.now.depth (F.pre self.now.nested) (F.post self.now.nested) }
        requires some { 0 < length cursor.old.left }
        ensures { Reads (spec.primary_word (spec.reads_part self.now.depth) word cursor.old) result cursor.new }
    {
        match word {
            Reserved::True => self.truth(cursor, true),
            Reserved::False => self.truth(cursor, false),
            other => self.aggregate_word(cursor, other),
        }
    }

    /// From behind the opening bracket.
    #[tactic(auto, unfolding(crate::specs::Reading::bracketed))]
    fn bracketed(&self, cursor: &mut Cursor<'_>) -> Result<Tree, ParseFault>
        requires { Nests self.now.depth (F.pre self.now.nested) (F.post self.now.nested) }
        ensures { Reads (spec.bracketed (spec.reads_part self.now.depth) cursor.old) result cursor.new }
    {
        let inner = self.nested(cursor, Part::Expression)?;
        cursor.expect_symbol(Symbol::Close)?;
        Ok(inner)
    }

    fn primary_symbol(&self, cursor: &mut Cursor<'_>, symbol: Symbol) -> Result<Tree, ParseFault>
        requires nests { Nests self.now.depth (F.pre self.now.nested) (F.post self.now.nested) }
        requires some { 0 < length cursor.old.left }
        ensures { Reads (spec.primary_symbol (spec.reads_part self.now.depth) symbol cursor.old) result cursor.new }
    {
        match symbol {
            Symbol::Open => {
                cursor.skip();
                self.bracketed(cursor)
            }
            _ => Err(ParseFault::NotSql),
        }
    }

    #[tactic(auto, unfolding(crate::specs::Reading::primary, crate::specs::Input::by_token))]
    fn primary(&self, cursor: &mut Cursor<'_>) -> Result<Tree, ParseFault>
        requires { Nests self.now.depth (F.pre self.now.nested) (F.post self.now.nested) }
        ensures { Reads (spec.primary (spec.reads_part self.now.depth) cursor.old) result cursor.new }
    {
        let [first, ..] = cursor.left() else {
            return Err(ParseFault::NotSql);
        };
        let place = cursor.place();
        match first {
            Token::Name(_) => {
                let name = column(self.alloc, cursor)?;
                Ok(Tree::Column { place, name })
            }
            Token::Word(word) => self.primary_word(cursor, *word),
            Token::Number(_) => {
                let value = Value::Int(cursor.number()?);
                Ok(Tree::Literal { place, value })
            }
            Token::Text(text) => {
                let value = Value::Text(text.copy(self.alloc)?);
                cursor.skip();
                Ok(Tree::Literal { place, value })
            }
            Token::Symbol(symbol) => self.primary_symbol(cursor, *symbol),
        }
    }

    #[tactic(auto, unfolding(crate::specs::Reading::factor))]
    fn factor(&self, cursor: &mut Cursor<'_>) -> Result<Tree, ParseFault>
        requires { Nests self.now.depth (F.pre self.now.nested) (F.post self.now.nested) }
        ensures { Reads (spec.factor (spec.reads_part self.now.depth) cursor.old) result cursor.new }
    {
        let place = cursor.place();
        if !cursor.eat_symbol(Symbol::Minus) {
            return self.primary(cursor);
        }
        let inner = self.nested(cursor, Part::Factor)?;
        Ok(negate(self.alloc, place, inner)?)
    }

    #[tactic(auto, unfolding(crate::specs::Reading::term, crate::specs::Reading::chain, crate::specs::Reading::chain_from))]
    fn term(&self, cursor: &mut Cursor<'_>) -> Result<Tree, ParseFault>
        requires { Nests self.now.depth (F.pre self.now.nested) (F.post self.now.nested) }
        ensures { Reads (spec.term (spec.reads_part self.now.depth) cursor.old) result cursor.new }
    {
        let mut left = self.factor(cursor)?;
        for _turn in 0..cursor.count() {
            let place = cursor.place();
            let Some(op) = eat_operator(cursor, Level::Term) else {
                return Ok(left);
            };
            let right = self.factor(cursor)?;
            left = binary(self.alloc, place, op, left, right)?;
        }
        Ok(left)
    }

    #[tactic(auto, unfolding(crate::specs::Reading::sum, crate::specs::Reading::chain, crate::specs::Reading::chain_from))]
    fn sum(&self, cursor: &mut Cursor<'_>) -> Result<Tree, ParseFault>
        requires { Nests self.now.depth (F.pre self.now.nested) (F.post self.now.nested) }
        ensures { Reads (spec.sum (spec.reads_part self.now.depth) cursor.old) result cursor.new }
    {
        let mut left = self.term(cursor)?;
        for _turn in 0..cursor.count() {
            let place = cursor.place();
            let Some(op) = eat_operator(cursor, Level::Sum) else {
                return Ok(left);
            };
            let right = self.term(cursor)?;
            left = binary(self.alloc, place, op, left, right)?;
        }
        Ok(left)
    }

    /// From behind the IS at this place.
    #[tactic(auto, unfolding(crate::specs::Reading::is_null))]
    fn is_null(&self, cursor: &mut Cursor<'_>, place: u64, left: Tree) -> Result<Tree, ParseFault>
        ensures { Reads (spec.is_null place left cursor.old) result cursor.new }
    {
        let is_negated = cursor.eat_word(Reserved::Not);
        cursor.expect_word(Reserved::Null)?;
        let test = is_null(self.alloc, place, left)?;
        if is_negated {
            Ok(not(self.alloc, place, test)?)
        } else {
            Ok(test)
        }
    }

    #[tactic(auto, unfolding(crate::specs::Reading::comparison))]
    fn comparison(
        &self,
        cursor: &mut Cursor<'_>,
        place: u64,
        left: Tree,
    ) -> Result<Tree, ParseFault>
        requires { Nests self.now.depth (F.pre self.now.nested) (F.post self.now.nested) }
        ensures { Reads (spec.comparison (spec.reads_part self.now.depth) place left cursor.old) result cursor.new }
    {
        let Some(op) = eat_operator(cursor, Level::Comparison) else {
            return Ok(left);
        };
        let right = self.sum(cursor)?;
        Ok(binary(self.alloc, place, op, left, right)?)
    }

    #[tactic(auto, unfolding(crate::specs::Reading::predicate))]
    fn predicate(&self, cursor: &mut Cursor<'_>) -> Result<Tree, ParseFault>
        requires { Nests self.now.depth (F.pre self.now.nested) (F.post self.now.nested) }
        ensures { Reads (spec.predicate (spec.reads_part self.now.depth) cursor.old) result cursor.new }
    {
        let left = self.sum(cursor)?;
        let place = cursor.place();
        if cursor.eat_word(Reserved::Is) {
            self.is_null(cursor, place, left)
        } else {
            self.comparison(cursor, place, left)
        }
    }

    #[tactic(auto, unfolding(crate::specs::Reading::negation))]
    fn negation(&self, cursor: &mut Cursor<'_>) -> Result<Tree, ParseFault>
        requires { Nests self.now.depth (F.pre self.now.nested) (F.post self.now.nested) }
        ensures { Reads (spec.negation (spec.reads_part self.now.depth) cursor.old) result cursor.new }
    {
        let place = cursor.place();
        if !cursor.eat_word(Reserved::Not) {
            return self.predicate(cursor);
        }
        let inner = self.nested(cursor, Part::Negation)?;
        Ok(not(self.alloc, place, inner)?)
    }

    #[tactic(auto, unfolding(crate::specs::Reading::conjunction, crate::specs::Reading::chain, crate::specs::Reading::chain_from))]
    fn conjunction(&self, cursor: &mut Cursor<'_>) -> Result<Tree, ParseFault>
        requires { Nests self.now.depth (F.pre self.now.nested) (F.post self.now.nested) }
        ensures { Reads (spec.conjunction (spec.reads_part self.now.depth) cursor.old) result cursor.new }
    {
        let mut left = self.negation(cursor)?;
        for _turn in 0..cursor.count() {
            let place = cursor.place();
            let Some(op) = eat_operator(cursor, Level::And) else {
                return Ok(left);
            };
            let right = self.negation(cursor)?;
            left = binary(self.alloc, place, op, left, right)?;
        }
        Ok(left)
    }

    #[tactic(auto, unfolding(crate::specs::Reading::disjunction, crate::specs::Reading::chain, crate::specs::Reading::chain_from))]
    fn disjunction(&self, cursor: &mut Cursor<'_>) -> Result<Tree, ParseFault>
        requires { Nests self.now.depth (F.pre self.now.nested) (F.post self.now.nested) }
        ensures { Reads (spec.disjunction (spec.reads_part self.now.depth) cursor.old) result cursor.new }
    {
        let mut left = self.conjunction(cursor)?;
        for _turn in 0..cursor.count() {
            let place = cursor.place();
            let Some(op) = eat_operator(cursor, Level::Or) else {
                return Ok(left);
            };
            let right = self.conjunction(cursor)?;
            left = binary(self.alloc, place, op, left, right)?;
        }
        Ok(left)
    }

    fn part(&self, cursor: &mut Cursor<'_>, part: Part) -> Result<Tree, ParseFault>
        requires { Nests self.now.depth (F.pre self.now.nested) (F.post self.now.nested) }
        ensures { Reads (spec.part_by (spec.reads_part self.now.depth) part cursor.old) result cursor.new }
    {
        match part {
            Part::Expression => self.disjunction(cursor),
            Part::Negation => self.negation(cursor),
            Part::Factor => self.factor(cursor),
            Part::Aggregate => self.any_aggregate(cursor),
        }
    }
}

/// A part of an expression in which brackets, NOTs and signs nest less deep than `depth`.
fn read_part(
    alloc: Global,
    cursor: &mut Cursor<'_>,
    depth: u32,
    part: Part,
) -> Result<Tree, ParseFault>
    ensures { Reads (spec.reads_part depth part cursor.old) result cursor.new }
{
    if depth == 0 {
        return Err(ParseFault::NotSql);
    }
    let rules = Rules {
        alloc,
        depth: depth - 1,
        nested: read_part,
    };
    rules.part(cursor, part)
}

/// An expression.
#[tactic(auto, unfolding(crate::specs::Reading::expression))]
pub fn expression(alloc: Global, cursor: &mut Cursor<'_>) -> Result<Tree, ParseFault>
    ensures { Reads (spec.expression NESTING_LIMIT cursor.old) result cursor.new }
{
    read_part(alloc, cursor, NESTING_LIMIT, Part::Expression)
}

/// COUNT, SUM, MIN or MAX with its brackets.
#[tactic(auto, unfolding(crate::specs::Reading::aggregation))]
pub fn aggregation(alloc: Global, cursor: &mut Cursor<'_>) -> Result<Tree, ParseFault>
    ensures { Reads (spec.aggregation NESTING_LIMIT cursor.old) result cursor.new }
{
    read_part(alloc, cursor, NESTING_LIMIT, Part::Aggregate)
}
