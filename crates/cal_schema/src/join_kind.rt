/// Whether a join keeps a left row without a partner, once and with NULLs.
#[derive(Clone, Copy, Debug, PartialEq, Eq, Hash)]
pub enum JoinKind {
    Inner,
    Left,
}
