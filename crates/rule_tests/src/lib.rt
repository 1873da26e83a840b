//! Tables of trees: what each rule makes of them.
#![tactic(auto)]

#[cfg(test)]
mod tests;
