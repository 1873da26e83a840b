ghost use Rattle.std.specs.Prelude.{◌≡◌, ◌↔◌, IsTrue, All};
ghost use Rattle.cal_value.specs.Types.{HasTypes, same_kind};

use crate::interval::Interval;
use crate::list::List;
use crate::memory::{Duplicate, NoMemory};
use crate::value::{Row, Value};
use std::alloc::Global;

/// The kinds of values.
#[derive(Clone, Copy, Debug, PartialEq, Eq, Hash)]
pub enum Kind {
    Boolean,
    Integer,
    Text,
}

impl Kind {
    /// Whether the two are one kind.
    pub fn is(self, other: Kind) -> bool
        ensures { result ≡ same_kind self other }
    {
        match (self, other) {
            (Kind::Boolean, Kind::Boolean)
            | (Kind::Integer, Kind::Integer)
            | (Kind::Text, Kind::Text) => true,
            _ => false,
        }
    }
}

/// A kind, whether NULL may stand there, and which whole numbers. At another kind than `Integer` the interval is
/// `Range { lo: 0, hi: 0 }` and means nothing.
#[derive(Clone, Copy, Debug, PartialEq, Eq, Hash)]
pub struct SqlType {
    pub kind: Kind,
    pub nullable: bool,
    pub interval: Interval,
}

/// The interval of a kind that has none.
const BLANK: Interval = Interval::Range { lo: 0, hi: 0 };

impl SqlType {
    ghost use Rattle.cal_value.specs.Types.{boolean_type, integer_type, text_type, number_type, met_type, IsOfType, IsAtMostAsWide, IsTypeMeet};

    /// The type of truth values.
    pub fn boolean(nullable: bool) -> SqlType
        ensures { result ≡ boolean_type nullable }
    {
        SqlType {
            kind: Kind::Boolean,
            nullable,
            interval: BLANK,
        }
    }

    /// A type of whole numbers.
    pub fn integer(nullable: bool, interval: Interval) -> SqlType
        ensures { result ≡ integer_type nullable interval }
    {
        SqlType {
            kind: Kind::Integer,
            nullable,
            interval,
        }
    }

    /// A type of whole numbers, where the ends of its interval are numbers of SQL, smaller than 10^38 in size.
    pub fn number(nullable: bool, interval: Interval) -> Option<SqlType>
        ensures { result ≡ number_type nullable interval }
    {
        if interval.is_in_range() {
            Some(SqlType::integer(nullable, interval))
        } else {
            None
        }
    }

    /// The type of texts.
    pub fn text(nullable: bool) -> SqlType
        ensures { result ≡ text_type nullable }
    {
        SqlType {
            kind: Kind::Text,
            nullable,
            interval: BLANK,
        }
    }

    /// What both types hold. Takes no memory.
    pub fn meet(self, other: SqlType) -> SqlType
        requires { self.kind ≡ other.kind }
        ensures value { result ≡ met_type self other }
        ensures greatest { IsTypeMeet self other result }
    {
        SqlType {
            kind: self.kind,
            nullable: self.nullable && other.nullable,
            interval: self.interval.meet(other.interval),
        }
    }

    /// Whether the type is true of the value.
    pub fn holds(self, value: &Value) -> bool
        ensures { IsTrue result ↔ IsOfType value.now self }
    {
        match value {
            Value::Null => self.nullable,
            Value::Bool(_) => self.kind == Kind::Boolean,
            Value::Int(n) => self.kind == Kind::Integer && self.interval.holds(*n),
            Value::Text(_) => self.kind == Kind::Text,
        }
    }

    /// Whether the type is true of each value.
    pub fn holds_all(self, values: &List<Value>) -> bool
        ensures { IsTrue result ↔ All (λ v. IsOfType v self) values.now }
    {
        for value in values.as_slice() {
            if !self.holds(value) {
                return false;
            }
        }
        true
    }

    /// Whether it is at most as wide as the other type: of its kind, nullable only where that is, and for numbers
    /// within its interval.
    pub fn is_at_most_as_wide(self, other: SqlType) -> bool
        ensures { IsTrue result ↔ IsAtMostAsWide self other }
    {
        self.kind == other.kind
            && (!self.nullable || other.nullable)
            && (self.kind != Kind::Integer || self.interval.is_within(other.interval))
    }
}

impl Duplicate for SqlType {
    fn copy(&self, _alloc: Global) -> Result<SqlType, NoMemory> {
        Ok(*self)
    }
}

/// Whether the row has as many values as there are types, each of the type in its place.
pub fn has_types(row: &Row, types: &List<SqlType>) -> bool
    ensures { IsTrue result ↔ HasTypes row.now types.now }
{
    if row.len() != types.len() {
        return false;
    }
    let types = types.as_slice();
    for (at, value) in row.as_slice().iter().enumerate() {
        if !types[at].holds(value) {
            return false;
        }
    }
    true
}
