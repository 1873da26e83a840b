//! Tables of statements: what the parser makes of them, and what it refuses.
#![tactic(auto)]

#[cfg(test)]
mod tests;
