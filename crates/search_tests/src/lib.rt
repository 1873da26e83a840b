//! What searches find, asked of the top call.
#![tactic(auto)]

#[cfg(test)]
mod tests;
