//! Laws of the definitions, each as the contract of a function that does nothing.
ghost use Rattle.std.specs.Prelude.{◌≡◌, ℤ, pos, ◌+ℤ◌, ◌-ℤ◌, ◌*ℤ◌, ◌≤ℤ◌, int_div, IsTrue, ◌↔◌};
ghost use Rattle.std.specs.declared.cmp.Ordering.TheVariants.{Equal};
ghost use Rattle.std.specs.Cmp.{IsTotalOrder};
ghost use Rattle.std.specs.List.Sorted.{IsPermutation};
ghost use Rattle.cal_value.specs.declared.value.Value.{Value as ValueOf};
ghost use Rattle.cal_value.specs.declared.interval.Interval.TheVariants.{Range};
ghost use Rattle.cal_value.specs.Interval.{Holds, IsProper, IsWithin, HoldsResults, IsLeastOfTwo, IsLeastOfFour, hull, at_ends, negated, meet_of, excludes_zero, is_in_range};
ghost use Rattle.cal_value.specs.Logic as logic;
ghost use Rattle.cal_value.specs.Order.{value_cmp, key_cmp, row_cmp, SameBag};
ghost use Rattle.cal_value.specs.Types.{IsOfType, HasTypes, IsAtMostAsWide, AreAtMostAsWide, IsProperType, met_type};

use crate::interval::Interval;
use crate::kind::SqlType;
use crate::list::List;
use crate::order::{Collation, KeyOrder};
use crate::value::{Row, Value};

/// OR is what NOT and AND make of it, and the order of operands doesn't matter.
pub fn connectives_law(a: Option<bool>, b: Option<bool>)
    ensures or { logic.or3 a b ≡ logic.not3 (logic.and3 (logic.not3 a) (logic.not3 b)) }
    ensures and_turned { logic.and3 a b ≡ logic.and3 b a }
    ensures or_turned { logic.or3 a b ≡ logic.or3 b a }
{}

/// The order of values is total, and equal values alone tie.
#[tactic(auto, using(crate::proofs::OrderLemmas::orders))]
pub fn value_order_law()
    ensures total { IsTotalOrder value_cmp }
    ensures ties { (a b : ValueOf) → value_cmp a b ≡ Equal → a ≡ b }
{}

/// The order of values under a key is total.
pub fn key_order_law(key: &KeyOrder)
    ensures { IsTotalOrder (key_cmp key.now) }
{
    let _ = key;
}

/// The order of rows under keys is total.
#[tactic(auto, using(crate::proofs::OrderLemmas::orders))]
pub fn row_order_law(keys: &Collation)
    ensures { IsTotalOrder (row_cmp keys.now) }
{
    let _ = keys;
}

/// Two lists are the same bag exactly where one is the other in another order.
pub fn same_bag_law(a: &List<Row>, b: &List<Row>)
    ensures { SameBag a.now b.now ↔ IsPermutation a.now b.now }
{
    let _ = a;
    let _ = b;
}

/// The results of arithmetic on numbers of two intervals are in the interval that the ends give.
#[tactic(auto, using(crate::proofs::IntervalLaws::interval_laws))]
pub fn arithmetic_law(i: Interval, j: Interval)
    ensures sum { HoldsResults ◌+ℤ◌ i j (at_ends ◌+ℤ◌ i j) }
    ensures difference { HoldsResults ◌-ℤ◌ i j (at_ends ◌-ℤ◌ i j) }
    ensures product { HoldsResults ◌*ℤ◌ i j (at_ends ◌*ℤ◌ i j) }
    ensures quotient { IsTrue (excludes_zero j) → HoldsResults int_div i j (at_ends int_div i j) }
    ensures negation { (x : ℤ) → Holds i x → Holds (negated i) (pos 0 -ℤ x) }
{}

/// The interval of the ends of four numbers is the least that holds them.
pub fn least_interval_law(p: i128, q: i128, r: i128, s: i128)
    ensures { IsLeastOfFour p q r s (hull p q r s) }
{}

/// The interval of a negation is the least that holds the negations of both ends; where the ends stand in order, it goes
/// from that of the upper one to that of the lower one.
#[tactic(auto, using(crate::proofs::IntervalLaws::negation_laws))]
pub fn negation_law(lo: i128, hi: i128)
    ensures least { IsLeastOfTwo (pos 0 -ℤ lo) (pos 0 -ℤ hi) (negated (Range lo hi)) }
    ensures ends { lo ≤ℤ hi → negated (Range lo hi) ≡ Range (pos 0 -ℤ hi) (pos 0 -ℤ lo) }
{}

/// What is within an interval holds no other numbers.
#[tactic(auto, using(crate::proofs::IntervalLaws::interval_laws))]
pub fn within_law(i: Interval, j: Interval, k: Interval)
    ensures holds { (x : ℤ) → IsWithin i j → Holds i x → Holds j x }
    ensures itself { IsProper i → IsWithin i i }
    ensures further { IsWithin i j → IsWithin j k → IsWithin i k }
{}

/// Narrower operands give narrower intervals, which stay in range, and a narrower divisor stays apart from 0.
#[tactic(auto, using(crate::proofs::IntervalLaws::narrower_laws))]
pub fn narrower_operands_law(i: Interval, j: Interval, k: Interval, l: Interval)
    requires first { IsWithin i k }
    requires second { IsWithin j l }
    ensures sum { IsWithin (at_ends ◌+ℤ◌ i j) (at_ends ◌+ℤ◌ k l) }
    ensures difference { IsWithin (at_ends ◌-ℤ◌ i j) (at_ends ◌-ℤ◌ k l) }
    ensures product { IsWithin (at_ends ◌*ℤ◌ i j) (at_ends ◌*ℤ◌ k l) }
    ensures quotient { IsTrue (excludes_zero l)
        → IsWithin (at_ends int_div i j) (at_ends int_div k l) }
    ensures divisor { IsTrue (excludes_zero l) → IsTrue (excludes_zero j) }
    ensures negation { IsWithin (negated i) (negated k) }
    ensures range { IsTrue (is_in_range k) → IsTrue (is_in_range i) }
{}

/// The ends of what arithmetic and the meet give stand in order.
pub fn proper_ends_law(i: Interval, j: Interval)
    ensures sum { IsProper (at_ends ◌+ℤ◌ i j) }
    ensures difference { IsProper (at_ends ◌-ℤ◌ i j) }
    ensures product { IsProper (at_ends ◌*ℤ◌ i j) }
    ensures quotient { IsProper (at_ends int_div i j) }
    ensures negation { IsProper (negated i) }
    ensures meet { IsProper (meet_of i j) }
{}

/// What a type is true of, a type at least as wide is true of.
#[tactic(auto, using(crate::proofs::TypeLaws::type_laws))]
pub fn wider_type_law(value: &Value, s: SqlType, t: SqlType)
    ensures { IsAtMostAsWide s t → IsOfType value.now s → IsOfType value.now t }
{
    let _ = value;
}

/// The same of a row.
#[tactic(auto, using(crate::proofs::TypeLaws::type_laws))]
pub fn wider_types_law(row: &Row, types: &List<SqlType>, wider: &List<SqlType>)
    ensures { AreAtMostAsWide types.now wider.now
        → HasTypes row.now types.now → HasTypes row.now wider.now }
{
    let _ = row;
    let _ = types;
    let _ = wider;
}

/// What two types of one kind are true of, their meet is true of, and it is true of nothing else.
#[tactic(auto, using(crate::proofs::TypeLaws::type_laws))]
pub fn type_meet_law(value: &Value, s: SqlType, t: SqlType)
    requires { s.kind ≡ t.kind }
    ensures { IsOfType value.now (met_type s t) ↔ (IsOfType value.now s × IsOfType value.now t) }
{
    let _ = value;
}

/// A type is at most as wide as itself, and as what is wider than what is wider.
#[tactic(auto, using(crate::proofs::TypeLaws::type_laws))]
pub fn width_law(s: SqlType, t: SqlType, u: SqlType)
    ensures itself { IsProperType s → IsAtMostAsWide s s }
    ensures further { IsAtMostAsWide s t → IsAtMostAsWide t u → IsAtMostAsWide s u }
{}
