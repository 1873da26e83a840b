//! SELECTs of all forms, asked of the top call.
#![tactic(auto)]

#[cfg(test)]
mod tests;
