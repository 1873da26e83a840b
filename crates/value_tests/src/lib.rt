//! Tables of values: how they compare, what their types are, and how steps are counted.
#![tactic(auto)]

#[cfg(test)]
mod tests;
