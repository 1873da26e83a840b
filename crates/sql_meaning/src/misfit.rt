/// The place of an expression that may leave the range of numbers, and the ends of its interval, cut at 10^38.
#[derive(Clone, Copy, Debug, PartialEq, Eq)]
pub struct Misfit {
    pub place: u64,
    pub lo: i128,
    pub hi: i128,
}
