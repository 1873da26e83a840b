//! Tables of relational trees: their types, and how they are copied, walked and compared.
#![tactic(auto)]

#[cfg(test)]
mod tests;
