//! Tables of plans' nodes: their orders, traits, weights and costs.
#![tactic(auto)]

#[cfg(test)]
mod tests;
