//! Tables of models: what is read of them, and what is refused.
#![tactic(auto)]

#[cfg(test)]
mod tests;
