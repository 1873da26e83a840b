//! Tables of statements: why they are refused, and what accepted ones have.
#![tactic(auto)]

#[cfg(test)]
mod tests;
