//! What the cheapest plans of memos are, as a table.
#![tactic(auto)]

#[cfg(test)]
mod tests;
