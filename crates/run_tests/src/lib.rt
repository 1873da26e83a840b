//! Runs of the top call over files and a sink in memory: ends, causes, texts, and each device failing in turn.
#![tactic(auto)]

#[cfg(test)]
mod tests;
