//! Plans and memos that are explained, and the rows that the plans give, asked of the top call.
#![tactic(auto)]

#[cfg(test)]
mod tests;
