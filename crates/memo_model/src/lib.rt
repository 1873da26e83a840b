//! What a memo of equivalent expressions is, when it is sound, and what each step makes of it.
#![tactic(auto)]

/// How many members a memo can ever have, also those that a merge makes equal to others.
pub const MEMBER_LIMIT: u32 = 1024;
