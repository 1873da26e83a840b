ghost use Rattle.std.specs.Prelude.{◌≡◌, pos, ◌+ℤ◌, ◌-ℤ◌, ◌*ℤ◌, int_div, IsTrue, ◌↔◌, ◌≢◌};
ghost use Rattle.std.specs.Int.{int_min, int_max};
ghost use Rattle.cal_value.specs.Interval as spec;
ghost use Rattle.cal_value.specs.Interval.{Holds, IsProper, IsWithin, IsMeet, hull, at_ends, negated, meet_of, cut, cut_ends};

use crate::limits::NUMBER_LIMIT;

/// The whole numbers from `lo` to `hi`, both included, or none.
#[derive(Clone, Copy, Debug, PartialEq, Eq, Hash)]
pub enum Interval {
    Never,
    Range { lo: i128, hi: i128 },
}

/// The number of -10^38 .. 10^38 that is nearest.
pub fn cut_at_limit(z: i128) -> i128
    ensures { result ≡ cut z }
{
    z.clamp(-NUMBER_LIMIT, NUMBER_LIMIT)
}

fn least_of(p: i128, q: i128, r: i128, s: i128) -> i128
    ensures { result ≡ int_min (int_min p q) (int_min r s) }
{
    p.min(q).min(r.min(s))
}

fn greatest_of(p: i128, q: i128, r: i128, s: i128) -> i128
    ensures { result ≡ int_max (int_max p q) (int_max r s) }
{
    p.max(q).max(r.max(s))
}

fn hull_of(p: i128, q: i128, r: i128, s: i128) -> Interval
    ensures { result ≡ hull p q r s }
{
    Interval::Range {
        lo: least_of(p, q, r, s),
        hi: greatest_of(p, q, r, s),
    }
}

#[tactic(auto, using(crate::proofs::IntervalLemmas::cut_rules))]
fn cut_sum(a: i128, b: i128) -> i128
    ensures { result ≡ cut (a +ℤ b) }
{
    cut_at_limit(a.saturating_add(b))
}

#[tactic(auto, using(crate::proofs::IntervalLemmas::cut_rules))]
fn cut_difference(a: i128, b: i128) -> i128
    ensures { result ≡ cut (a -ℤ b) }
{
    cut_at_limit(a.saturating_sub(b))
}

/// The product, cut at 10^38.
#[tactic(auto, using(crate::proofs::IntervalLemmas::cut_rules))]
pub fn cut_product(a: i128, b: i128) -> i128
    ensures { result ≡ cut (a *ℤ b) }
{
    cut_at_limit(a.saturating_mul(b))
}

#[tactic(auto, using(crate::proofs::IntervalLemmas::cut_rules))]
fn cut_quotient(a: i128, b: i128) -> i128
    requires { b ≢ pos 0 }
    ensures { result ≡ cut (int_div a b) }
{
    if b == -1 {
        cut_difference(0, a)
    } else {
        cut_at_limit(a / b)
    }
}

fn sum_at(a: i128, b: i128, c: i128, d: i128) -> Interval
    ensures { result ≡ cut_ends (hull (a +ℤ c) (a +ℤ d) (b +ℤ c) (b +ℤ d)) }
{
    let p = cut_sum(a, c);
    let q = cut_sum(a, d);
    let r = cut_sum(b, c);
    let s = cut_sum(b, d);
    hull_of(p, q, r, s)
}

fn difference_at(a: i128, b: i128, c: i128, d: i128) -> Interval
    ensures { result ≡ cut_ends (hull (a -ℤ c) (a -ℤ d) (b -ℤ c) (b -ℤ d)) }
{
    let p = cut_difference(a, c);
    let q = cut_difference(a, d);
    let r = cut_difference(b, c);
    let s = cut_difference(b, d);
    hull_of(p, q, r, s)
}

fn product_at(a: i128, b: i128, c: i128, d: i128) -> Interval
    ensures { result ≡ cut_ends (hull (a *ℤ c) (a *ℤ d) (b *ℤ c) (b *ℤ d)) }
{
    let p = cut_product(a, c);
    let q = cut_product(a, d);
    let r = cut_product(b, c);
    let s = cut_product(b, d);
    hull_of(p, q, r, s)
}

fn quotient_at(a: i128, b: i128, c: i128, d: i128) -> Interval
    requires first { c ≢ pos 0 }
    requires second { d ≢ pos 0 }
    ensures { result ≡ cut_ends (hull (int_div a c) (int_div a d) (int_div b c) (int_div b d)) }
{
    let p = cut_quotient(a, c);
    let q = cut_quotient(a, d);
    let r = cut_quotient(b, c);
    let s = cut_quotient(b, d);
    hull_of(p, q, r, s)
}

impl Interval {
    /// Whether the number is in the interval.
    pub fn holds(self, number: i128) -> bool
        ensures holds { IsTrue result ↔ Holds self number }
        ensures test { result ≡ spec.holds self number }
    {
        match self {
            Interval::Never => false,
            Interval::Range { lo, hi } => lo <= number && number <= hi,
        }
    }

    /// Whether both ends are in the other interval.
    pub fn is_within(self, other: Interval) -> bool
        ensures { IsTrue result ↔ IsWithin self other }
    {
        match self {
            Interval::Never => true,
            Interval::Range { lo, hi } => other.holds(lo) && other.holds(hi),
        }
    }

    /// The part that both hold. Takes no memory.
    pub fn meet(self, other: Interval) -> Interval
        ensures value { result ≡ meet_of self other }
        ensures greatest { IsMeet self other result }
    {
        match (self, other) {
            (Interval::Range { lo: a, hi: b }, Interval::Range { lo: c, hi: d }) => {
                let lo = a.max(c);
                let hi = b.min(d);
                if hi < lo {
                    Interval::Never
                } else {
                    Interval::Range { lo, hi }
                }
            }
            _ => Interval::Never,
        }
    }

    /// Whether the ends are numbers of SQL, smaller than 10^38 in size.
    pub fn is_in_range(self) -> bool
        ensures { result ≡ spec.is_in_range self }
    {
        match self {
            Interval::Never => true,
            Interval::Range { lo, hi } => -NUMBER_LIMIT < lo
                && lo < NUMBER_LIMIT
                && -NUMBER_LIMIT < hi
                && hi < NUMBER_LIMIT,
        }
    }

    /// Whether both ends are above 0, or both below, or there is no number.
    pub fn excludes_zero(self) -> bool
        ensures value { result ≡ spec.excludes_zero self }
        ensures zero { IsProper self → (IsTrue result ↔ ¬ Holds self (pos 0)) }
    {
        match self {
            Interval::Never => true,
            Interval::Range { lo, hi } => (0 < lo && 0 < hi) || (lo < 0 && hi < 0),
        }
    }

    /// The least interval that holds the sums of the operands' ends, cut at 10^38. `Never` where an operand is.
    pub fn sum(self, other: Interval) -> Interval
        ensures { result ≡ cut_ends (at_ends ◌+ℤ◌ self other) }
    {
        match (self, other) {
            (Interval::Range { lo: a, hi: b }, Interval::Range { lo: c, hi: d }) => sum_at(
                a, b, c, d,
            ),
            _ => Interval::Never,
        }
    }

    /// The least interval that holds the differences of the operands' ends, cut at 10^38. `Never` where an operand is.
    pub fn difference(self, other: Interval) -> Interval
        ensures { result ≡ cut_ends (at_ends ◌-ℤ◌ self other) }
    {
        match (self, other) {
            (Interval::Range { lo: a, hi: b }, Interval::Range { lo: c, hi: d }) => difference_at(
                a, b, c, d,
            ),
            _ => Interval::Never,
        }
    }

    /// The least interval that holds the products of the operands' ends, cut at 10^38. `Never` where an operand is.
    pub fn product(self, other: Interval) -> Interval
        ensures { result ≡ cut_ends (at_ends ◌*ℤ◌ self other) }
    {
        match (self, other) {
            (Interval::Range { lo: a, hi: b }, Interval::Range { lo: c, hi: d }) => product_at(
                a, b, c, d,
            ),
            _ => Interval::Never,
        }
    }

    /// The least interval that holds the quotients of the operands' ends, toward 0, cut at 10^38. `Never` where an
    /// operand is.
    pub fn quotient(self, other: Interval) -> Interval
        requires { IsTrue (spec.excludes_zero other) }
        ensures { result ≡ cut_ends (at_ends int_div self other) }
    {
        match (self, other) {
            (Interval::Range { lo: a, hi: b }, Interval::Range { lo: c, hi: d }) => quotient_at(
                a, b, c, d,
            ),
            _ => Interval::Never,
        }
    }

    /// The least interval that holds the negations of the ends, cut at 10^38. `Never` of `Never`.
    #[tactic(auto, using(crate::proofs::IntervalLemmas::negation_rules))]
    pub fn negation(self) -> Interval
        ensures { result ≡ cut_ends (negated self) }
    {
        Interval::Range { lo: 0, hi: 0 }.difference(self)
    }
}
