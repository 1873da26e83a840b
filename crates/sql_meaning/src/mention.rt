use cal_schema::WrittenName;

/// A name as a SELECT has it, and how many entries of FROM it may stand for.
#[derive(Debug, Drop)]
pub struct Mention {
    pub name: WrittenName,
    pub homes: usize,
}
